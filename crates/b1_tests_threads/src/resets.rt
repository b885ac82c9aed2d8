ghost use Rattle.std.specs.Prelude.{◌<◌, length};

use crate::calls::{receive, reset, send, take};
use crate::openings::{AMPLE, many_to_one};
use b1_bus::{Bus, Closed, Driver};
use b1_crew::{Crew, Part, Times, has_room};
use b1_edge::{Gate, HoldGate, Point};
use b1_model::{Answer, Call, Reason, Receipt, valid_opening};
use std::alloc::Global;
use std::sync::Wait;
use std::test::Fail;

// For how many turns a gate holds a driver at most.
const TURNS: u64 = 1_000_000_000;

// How many drivers send.
const SENDERS: usize = 30;

// How many messages each of them sends.
const MESSAGES: usize = 20;

// How often the recipient receives before it resets.
const RECEIVED: usize = 5;

// For how many calls a driver has room: more than all messages.
const ROOM: usize = 1024;

// A driver sends one byte to the node that it holds.
#[derive(Clone, Copy)]
struct SendOne;

impl Part for SendOne {
    fn play<R: Wait, G: Gate>(
        &self,
        rt: &R,
        alloc: Global,
        bus: &Bus,
        gate: &G,
        _peer: usize,
        driver: &mut Driver,
    ) {
        send(rt, alloc, bus, gate, driver, &[2]);
    }
}

// A driver receives once.
#[derive(Clone, Copy)]
struct ReceiveOne;

impl Part for ReceiveOne {
    fn play<R: Wait, G: Gate>(
        &self,
        rt: &R,
        _alloc: Global,
        bus: &Bus,
        gate: &G,
        _peer: usize,
        driver: &mut Driver,
    ) {
        receive(rt, bus, gate, driver);
    }
}

// A driver tries to receive once.
#[derive(Clone, Copy)]
struct TakeOne;

impl Part for TakeOne {
    fn play<R: Wait, G: Gate>(
        &self,
        rt: &R,
        _alloc: Global,
        bus: &Bus,
        gate: &G,
        _peer: usize,
        driver: &mut Driver,
    ) {
        take(rt, bus, gate, driver);
    }
}

// Each driver makes room for its calls.
struct MakeRoom;

impl Part for MakeRoom {
    fn play<R: Wait, G: Gate>(
        &self,
        _rt: &R,
        _alloc: Global,
        _bus: &Bus,
        _gate: &G,
        _peer: usize,
        driver: &mut Driver,
    ) {
        if driver.calls().is_empty() {
            let _ = has_room(driver, ROOM);
        }
    }
}

// All drivers but the last send to it. The last receives some times, and then resets.
struct SendWhileReset;

impl Part for SendWhileReset {
    fn play<R: Wait, G: Gate>(
        &self,
        rt: &R,
        alloc: Global,
        bus: &Bus,
        gate: &G,
        peer: usize,
        driver: &mut Driver,
    ) {
        if peer < SENDERS {
            let sends = Times {
                part: SendOne,
                times: MESSAGES,
            };
            sends.play(rt, alloc, bus, gate, peer, driver);
        } else {
            let receives = Times {
                part: ReceiveOne,
                times: RECEIVED,
            };
            receives.play(rt, alloc, bus, gate, peer, driver);
            reset(rt, bus, gate, driver, AMPLE);
        }
    }
}

// Whether a call is a SEND that was accepted.
fn is_sent(call: &Call) -> bool {
    matches!(&call.answer, Answer::Sent(_))
}

// Whether a call was refused since the node is destroyed.
fn is_gone(call: &Call) -> bool {
    match &call.answer {
        Answer::Refused(refused) => match refused.reason {
            Reason::Gone { owner, .. } => owner as usize == SENDERS,
            _ => false,
        },
        _ => false,
    }
}

// Whether a call took a notice of a destruction.
fn is_notice(call: &Call) -> bool {
    match &call.answer {
        Answer::Got(receipt) => matches!(receipt, Receipt::Destroyed { .. }),
        _ => false,
    }
}

// Whether a call is a reset that destroyed something.
fn is_reset(call: &Call) -> bool {
    matches!(&call.answer, Answer::Reset { stamp: Some(_) })
}

// Whether a call is a receipt of a message, or was refused since there was none.
fn is_received(call: &Call) -> bool {
    match &call.answer {
        Answer::Got(receipt) => matches!(receipt, Receipt::Message { .. }),
        Answer::Refused(refused) => matches!(refused.reason, Reason::Again { .. }),
        _ => false,
    }
}

// Whether so of the calls of a sender: messages that were accepted, then refusals since the node is destroyed, and at the
// end its notice.
fn has_sent_until_reset(calls: &[Call]) -> bool {
    if calls.len() != MESSAGES + 1 || !is_notice(&calls[MESSAGES]) {
        return false;
    }
    let accepted = calls.iter().take_while(|call| is_sent(call)).count();
    let refused = calls.iter().filter(|call| is_gone(call)).count();
    accepted.checked_add(refused) == Some(MESSAGES)
}

// Whether so of the calls of the recipient: it received some times, then reset, and received nothing more.
fn has_received_until_reset(calls: &[Call]) -> bool {
    calls.len() == RECEIVED + 1
        && calls[..RECEIVED].iter().all(|call| is_received(call))
        && is_reset(&calls[RECEIVED])
}

// Whether so of a peer of a closed bus, and its queue has no entry left.
fn has_ended(closed: &Closed, p: u32) -> bool
    requires { p < length closed.now.peers }
{
    closed.facts();
    let calls = closed.calls(p);
    let as_told = if (p as usize) < SENDERS {
        has_sent_until_reset(calls)
    } else {
        has_received_until_reset(calls)
    };
    as_told && closed.is_empty(p)
}

// Whether so of all peers.
fn have_ended(closed: &Closed) -> bool {
    for p in 0..closed.count() {
        if !has_ended(closed, p) {
            return false;
        }
    }
    true
}

// Thirty drivers send to one peer while it resets: each send is accepted or refused since the node is destroyed, and what the
// queue had before the reset isn't received after it.
#[test]
fn thirty_send_while_one_resets(rt: HostRuntime) -> Result<(), Fail> {
    let alloc = rt.alloc();
    let opening = many_to_one(alloc, SENDERS as u32)?;
    assert!(rt; valid_opening(alloc, &opening)?);
    let mut crew = Crew::open(alloc, &opening)?;
    let one = Point::Answered { driver: 0, call: 4 };
    let other = Point::Answered {
        driver: SENDERS as u32,
        call: RECEIVED as u64,
    };
    let gate = HoldGate::make(one, other, TURNS);
    let drains = Times {
        part: TakeOne,
        times: MESSAGES,
    };
    crew.play(&rt, alloc, &gate, &MakeRoom);
    crew.play(&rt, alloc, &gate, &SendWhileReset);
    crew.play(&rt, alloc, &gate, &drains);
    assert!(rt; gate.met());
    assert!(rt; !gate.ran_out());
    let closed = crew.close(alloc)?;
    assert_eq!(rt; closed.count() as usize, SENDERS + 1);
    assert!(rt; have_ended(&closed));
    Ok(())
}
