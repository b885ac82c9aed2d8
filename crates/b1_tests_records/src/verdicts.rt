ghost use Rattle.std.specs.Prelude.{◌≡◌, length, IfOk};

use b1_errs::NotRead;
use b1_judge::{Clause, Verdict, judge, word};
use b1_model::{
    Answer, Bytes, Call, Calls, Command, Front, Key, Nums, PeerCalls, PeerLists, Places, Reason,
    Receipt, Record, Refused, SendCmd, Sent,
};
use b1_script::read_whole;
use std::alloc::{AllocError, Global};
use std::test::Fail;

/// Two peers, a wire from peer 1 to peer 0, a SEND of `a` and one of `b` by peer 0, and three RECVs by peer 1.
const TWO_MESSAGES: [u8; 224] = [
    0x42, 0x55, 0x53, 0x31, 0x53, 0x43, 0x52, 0x31, 1, 0, 0, 0, 2, 0, 0, 0, 0, 0, 0, 0, 0, 0, 0, 0,
    1, 0, 0, 0, 0, 0, 0, 0, 0xe0, 0, 0, 0, 0, 0, 0, 0, 0, 0, 0, 0, 0, 0x10, 0, 0, 0x10, 0, 0, 0, 0,
    0x10, 0, 0, 0x10, 0, 0, 0, 0, 0, 0, 0, 1, 0, 0, 0, 0, 0x10, 0, 0, 0x10, 0, 0, 0, 0, 0x10, 0, 0,
    0x10, 0, 0, 0, 0, 0, 0, 0, 1, 0, 0, 0, 0, 0, 0, 0, 4, 0, 0, 0, 0, 0, 0, 0, 2, 0, 0, 0, 0, 0, 0,
    0, 7, 0, 0, 0, 0, 0, 0, 0, 1, 0, 0, 0, 0, 0, 0, 0, 1, 0, 0, 0, 0, 0, 0, 0, 2, 0, 0, 0, 0, 0, 0,
    0, 0x61, 0, 0, 0, 0, 0, 0, 0, 7, 0, 0, 0, 0, 0, 0, 0, 1, 0, 0, 0, 0, 0, 0, 0, 1, 0, 0, 0, 0, 0,
    0, 0, 2, 0, 0, 0, 0, 0, 0, 0, 0x62, 0, 0, 0, 0, 0, 0, 0, 3, 0, 0, 0, 0, 0, 0, 0, 8, 0, 0, 0, 0,
    0, 0, 0, 8, 0, 0, 0, 0, 0, 0, 0, 8, 0, 0, 0, 0, 0, 0, 0,
];

/// What the peers answered, and the verdict on it.
struct Case {
    /// The stamps of the two sends.
    stamps: [u64; 2],
    /// The stamp and the byte of each message that peer 1 received.
    received: &'static [(u64, u8)],
    /// How often peer 1 found nothing, after these.
    absent: usize,
    verdict: Verdict,
}

const CASES: [Case; 9] = [
    // Two in their order, and then none is left.
    Case {
        stamps: [2, 4],
        received: &[(2, 97), (4, 98)],
        absent: 1,
        verdict: Verdict::Legal,
    },
    // The two receipts exchanged.
    Case {
        stamps: [2, 4],
        received: &[(4, 98), (2, 97)],
        absent: 1,
        verdict: Verdict::Broken {
            clause: Clause::Prefix,
            peer: 1,
            call: 0,
        },
    },
    // The second receipt is missing, and with it a call for the third command.
    Case {
        stamps: [2, 4],
        received: &[(2, 97)],
        absent: 1,
        verdict: Verdict::Broken {
            clause: Clause::Script,
            peer: 1,
            call: 2,
        },
    },
    // An odd stamp.
    Case {
        stamps: [2, 3],
        received: &[(2, 97), (3, 98)],
        absent: 1,
        verdict: Verdict::Broken {
            clause: Clause::Keys,
            peer: 0,
            call: 1,
        },
    },
    // One stamp for both.
    Case {
        stamps: [2, 2],
        received: &[(2, 97), (2, 98)],
        absent: 1,
        verdict: Verdict::Broken {
            clause: Clause::Keys,
            peer: 0,
            call: 1,
        },
    },
    // A stamp that is below the one before.
    Case {
        stamps: [4, 2],
        received: &[(2, 98), (4, 97)],
        absent: 1,
        verdict: Verdict::Broken {
            clause: Clause::Order,
            peer: 0,
            call: 1,
        },
    },
    // A message that nobody sent.
    Case {
        stamps: [2, 4],
        received: &[(2, 97), (6, 98)],
        absent: 1,
        verdict: Verdict::Broken {
            clause: Clause::Prefix,
            peer: 1,
            call: 1,
        },
    },
    // Another byte than was sent.
    Case {
        stamps: [2, 4],
        received: &[(2, 97), (4, 97)],
        absent: 1,
        verdict: Verdict::Broken {
            clause: Clause::Contents,
            peer: 1,
            call: 1,
        },
    },
    // The second message is left behind two answers that nothing was there.
    Case {
        stamps: [2, 4],
        received: &[(2, 97)],
        absent: 2,
        verdict: Verdict::Broken {
            clause: Clause::Whole,
            peer: 1,
            call: 3,
        },
    },
];

/// A SEND of one byte to the node of the wire.
fn sent(alloc: Global, byte: u8, stamp: u64) -> Result<Call, AllocError> {
    Ok(Call {
        command: Command::Send(SendCmd {
            go_on: false,
            to: Nums::from_slice(alloc, &[2])?,
            with: Nums::new(alloc),
            payload: Bytes::from_slice(alloc, &[byte])?,
        }),
        answer: Answer::Sent(Sent {
            stamp,
            places: Places::from_slice(alloc, &[None])?,
        }),
    })
}

/// A RECV of a message of one byte.
fn received(alloc: Global, stamp: u64, byte: u8) -> Result<Call, AllocError> {
    Ok(Call {
        command: Command::Recv,
        answer: Answer::Got(Receipt::Message {
            key: Key {
                stamp,
                origin: 0,
                index: 0,
            },
            number: 4,
            offset: 0,
            handles: Nums::new(alloc),
            payload: Bytes::from_slice(alloc, &[byte])?,
        }),
    })
}

/// A RECV that finds nothing.
fn absent() -> Call {
    Call {
        command: Command::Recv,
        answer: Answer::Refused(Refused {
            reason: Reason::Again(Front::Absent),
            place: None,
        }),
    }
}

/// What peer 1 received.
fn receipts(alloc: Global, case: &Case) -> Result<Calls, AllocError> {
    let mut calls = Vec::new(alloc);
    for (stamp, byte) in case.received {
        calls.push(received(alloc, *stamp, *byte)?)?;
    }
    for _ in 0..case.absent {
        calls.push(absent())?;
    }
    Ok(Calls::from_vec(calls))
}

/// What both peers did.
fn record(alloc: Global, case: &Case) -> Result<Record, AllocError>
    ensures { IfOk result (λ r. length r.peers ≡ 2) }
{
    let mut sends = Vec::new(alloc);
    sends.push(sent(alloc, 97, case.stamps[0])?)?;
    sends.push(sent(alloc, 98, case.stamps[1])?)?;
    let mut peers = Vec::new(alloc);
    peers.push(PeerCalls {
        epoch: 0,
        clock: 4,
        calls: Calls::from_vec(sends),
    })?;
    peers.push(PeerCalls {
        epoch: 0,
        clock: 4,
        calls: receipts(alloc, case)?,
    })?;
    Ok(Record {
        peers: PeerLists::from_vec(peers),
    })
}

/// The verdict on a record of two peers.
fn verdict(alloc: Global, rec: &Record) -> Result<Verdict, NotRead>
    requires { length rec.now.peers ≡ 2 }
{
    let script = read_whole(alloc, &TWO_MESSAGES)?;
    if script.opening.peers.len() != 2 {
        return Err(NotRead::Memory);
    }
    Ok(judge(alloc, &script, rec)?)
}

#[test]
fn verdicts(rt: HostRuntime) -> Result<(), Fail> {
    let alloc = rt.alloc();
    for case in &CASES {
        let rec = record(alloc, case)?;
        assert_eq!(rt; verdict(alloc, &rec)?, case.verdict);
    }
    Ok(())
}

#[test]
fn words(rt: HostRuntime) -> Result<(), Fail> {
    assert_eq!(rt; word(Clause::Script), "script");
    assert_eq!(rt; word(Clause::Prefix), "prefix");
    assert_eq!(rt; word(Clause::Whole), "whole");
    Ok(())
}
