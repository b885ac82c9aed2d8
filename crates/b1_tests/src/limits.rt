ghost use Rattle.std.specs.Prelude.{◌<◌, length};
ghost use Rattle.std.specs.List.{All};

use crate::openings::{most_peers, two_wired};
use b1_model::{
    Answer, Bytes, Call, Command, CommandLists, Commands, Limits, Nums, Opening, Quantity, Reason,
    Receipt, Record, Refused, SendCmd, valid_opening,
};
use b1_play::{Played, play};
use b1_script::{Script, Turns};
use std::alloc::{AllocError, Global};
use std::test::Fail;

// A SEND of these bytes to the held node.
fn send(alloc: Global, payload: &[u8]) -> Result<Command, AllocError> {
    Ok(Command::Send(SendCmd {
        go_on: false,
        to: Nums::from_slice(alloc, &[2])?,
        with: Nums::new(alloc),
        payload: Bytes::from_slice(alloc, payload)?,
    }))
}

// A PEER_RESET without flush.
fn limit(entries: u32, bytes: u32, handles: u32) -> Command {
    Command::Limit {
        limits: Limits {
            entries,
            bytes,
            handles,
        },
    }
}

// A call of a peer, by its place.
fn call(record: &Record, peer: usize, place: usize) -> Option<&Call> {
    match record.peers.get(peer) {
        Some(calls) => calls.calls.get(place),
        None => None,
    }
}

// Whether a call answered Done.
fn is_done(call: Option<&Call>) -> bool {
    match call {
        Some(call) => matches!(&call.answer, Answer::Done),
        None => false,
    }
}

// Whether a call is a SEND that was accepted with a stamp.
fn is_sent(call: Option<&Call>, stamp: u64) -> bool {
    match call {
        Some(call) => match &call.answer {
            Answer::Sent(sent) => sent.stamp == stamp,
            _ => false,
        },
        None => false,
    }
}

// Whether a call is refused at place 0 since one entry more would be charged than the limit lets.
fn is_over(call: Option<&Call>, charged: u64, most: u32) -> bool {
    match call {
        Some(call) => match &call.answer {
            Answer::Refused(
                Refused {
                    reason: Reason::Quota {
                        what: Quantity::Entries,
                        own,
                        others,
                        limit,
                        asked,
                    },
                    place: Some(0),
                },
            ) => *own == charged && *others == 0 && *limit == most && *asked == 1,
            _ => false,
        },
        None => false,
    }
}

// Whether a call received a message of peer 0 with stamp 2 at node 4, without handles, and with these bytes in slice 0.
fn is_message(call: Option<&Call>, bytes: &[u8]) -> bool {
    match call {
        Some(call) => match &call.answer {
            Answer::Got(
                Receipt::Message {
                    key,
                    number,
                    offset,
                    handles,
                    payload,
                },
            ) => {
                let first = key.stamp == 2 && key.origin == 0 && key.index == 0;
                let node = *number == 4 && *offset == 0 && handles.is_empty();
                first && node && payload.as_slice() == bytes
            }
            _ => false,
        },
        None => false,
    }
}

// The record of a play that comes to its end; `None` where the opening isn't valid, or the play stalls.
fn played(
    alloc: Global,
    opening: Opening,
    lists: Vec<Commands>,
    turns: &[u32],
) -> Result<Option<Record>, AllocError>
    requires { All (λ p. p < length opening.peers) turns.now }
{
    if !valid_opening(alloc, &opening)? || opening.peers.len() != lists.len() {
        return Ok(None);
    }
    let script = Script {
        opening,
        commands: CommandLists::from_vec(lists),
        turns: Turns::from_slice(alloc, turns)?,
        cookies: None,
    };
    Ok(match play(alloc, &script)? {
        Played::Done(record) => Some(record),
        Played::Stalled { .. } => None,
    })
}

// New limits hold for the next message: with a limit of one entry none may be queued.
#[test]
fn a_lower_limit_refuses(rt: HostRuntime) -> Result<(), Fail> {
    let alloc = rt.alloc();
    let opening = two_wired(alloc)?;
    assert_eq!(rt; opening.peers.len(), 2);
    let mut first = Vec::new(alloc);
    first.push(send(alloc, &[0x61])?)?;
    let mut second = Vec::new(alloc);
    second.push(limit(1, 4096, 16))?;
    let mut lists = Vec::new(alloc);
    lists.push(Commands::from_vec(first))?;
    lists.push(Commands::from_vec(second))?;
    let Some(record) = played(alloc, opening, lists, &[1])? else {
        panic!(rt; "the script is not played to its end")
    };
    assert!(rt; is_done(call(&record, 1, 0)));
    assert!(rt; is_over(call(&record, 0, 0), 0, 1));
    Ok(())
}

// A limit below what is charged leaves what is queued, and refuses more.
#[test]
fn a_limit_keeps_the_queue(rt: HostRuntime) -> Result<(), Fail> {
    let alloc = rt.alloc();
    let opening = two_wired(alloc)?;
    assert_eq!(rt; opening.peers.len(), 2);
    let mut first = Vec::new(alloc);
    first.push(send(alloc, &[0x61])?)?;
    first.push(send(alloc, &[0x62])?)?;
    let mut second = Vec::new(alloc);
    second.push(limit(0, 0, 0))?;
    second.push(Command::Recv)?;
    let mut lists = Vec::new(alloc);
    lists.push(Commands::from_vec(first))?;
    lists.push(Commands::from_vec(second))?;
    let Some(record) = played(alloc, opening, lists, &[0, 0, 0, 0, 0, 1])? else {
        panic!(rt; "the script is not played to its end")
    };
    assert!(rt; is_sent(call(&record, 0, 0), 2));
    assert!(rt; is_over(call(&record, 0, 1), 1, 0));
    assert!(rt; is_done(call(&record, 1, 0)));
    assert!(rt; is_message(call(&record, 1, 1), &[0x61]));
    Ok(())
}

// The last of as many peers as a bus has gets a message in the drain.
#[test]
fn as_many_peers_as_a_bus_has(rt: HostRuntime) -> Result<(), Fail> {
    let alloc = rt.alloc();
    let opening = most_peers(alloc)?;
    let mut first = Vec::new(alloc);
    first.push(send(alloc, &[])?)?;
    let mut lists = Vec::new(alloc);
    lists.push(Commands::from_vec(first))?;
    for _ in 1..opening.peers.len() {
        lists.push(Commands::new(alloc))?;
    }
    let Some(record) = played(alloc, opening, lists, &[])? else {
        panic!(rt; "the script is not played to its end")
    };
    assert_eq!(rt; record.peers.len(), 1024);
    assert!(rt; is_sent(call(&record, 0, 0), 2));
    assert!(rt; is_message(call(&record, 1023, 0), &[]));
    Ok(())
}
