use crate::openings::two_peers;
use b1_model::{
    Answer, Bytes, Command, CommandLists, Commands, Nums, PeerCalls, Record, SendCmd, valid_opening,
};
use b1_play::{Played, play};
use b1_script::{Script, Turns};
use std::alloc::{AllocError, Global};
use std::test::Fail;

// A SEND of three bytes to the held node, with a node that it makes.
fn send(alloc: Global) -> Result<Command, AllocError> {
    Ok(Command::Send(SendCmd {
        go_on: false,
        to: Nums::from_slice(alloc, &[2])?,
        with: Nums::from_slice(alloc, &[4])?,
        payload: Bytes::from_slice(alloc, b"abc")?,
    }))
}

// Whether the first call of a peer is a SEND that was accepted.
fn is_sent(peer: &PeerCalls) -> bool {
    match peer.calls.get(0) {
        Some(call) => matches!(&call.answer, Answer::Sent(_)),
        None => false,
    }
}

// Whether so of the first peer of a record.
fn has_sent(outcome: &Record) -> bool {
    match outcome.peers.get(0) {
        Some(peer) => is_sent(peer),
        None => false,
    }
}

// With memory a bus is wired, and a message with a handle is staged, committed and received.
#[test]
fn a_send_is_played(rt: HostRuntime) -> Result<(), Fail> {
    let alloc = rt.alloc();
    let opening = two_peers(alloc)?;
    let mut commands = Vec::new(alloc);
    commands.push(send(alloc)?)?;
    let mut lists = Vec::new(alloc);
    lists.push(Commands::from_vec(commands))?;
    lists.push(Commands::new(alloc))?;
    assert!(rt; valid_opening(alloc, &opening)?);
    assert_eq!(rt; opening.peers.len(), lists.len());
    let script = Script {
        opening,
        commands: CommandLists::from_vec(lists),
        turns: Turns::new(alloc),
        cookies: None,
    };
    let Played::Done(outcome) = play(alloc, &script)? else {
        panic!(rt; "the script is not played to its end")
    };
    assert!(rt; has_sent(&outcome));
    Ok(())
}
