use crate::calls::send;
use crate::openings::{four_peers, wire};
use b1_bus::{Bus, Closed, Driver};
use b1_crew::{Crew, Part, has_room};
use b1_edge::{Gate, HoldGate, Point};
use b1_model::{Answer, Call, valid_opening};
use std::alloc::Global;
use std::sync::Wait;
use std::test::Fail;

// For how many turns a gate holds a driver at most.
const TURNS: u64 = 1_000_000_000;

// Drivers 0 and 1 each send one message to the same two peers.
struct Crossing;

impl Part for Crossing {
    fn play<R: Wait, G: Gate>(
        &self,
        rt: &R,
        alloc: Global,
        bus: &Bus,
        gate: &G,
        peer: usize,
        driver: &mut Driver,
    ) {
        let to: &[u64] = match peer {
            0 => &[2, 6],
            1 => &[6, 2],
            _ => return,
        };
        send(rt, alloc, bus, gate, driver, to);
    }
}

// Drivers 0 and 1 each send one message, to different peers.
struct Apart;

impl Part for Apart {
    fn play<R: Wait, G: Gate>(
        &self,
        rt: &R,
        alloc: Global,
        bus: &Bus,
        gate: &G,
        peer: usize,
        driver: &mut Driver,
    ) {
        if peer < 2 {
            send(rt, alloc, bus, gate, driver, &[2]);
        }
    }
}

// Each driver makes room for some calls.
struct MakesRoom;

impl Part for MakesRoom {
    fn play<R: Wait, G: Gate>(
        &self,
        _rt: &R,
        _alloc: Global,
        _bus: &Bus,
        _gate: &G,
        _peer: usize,
        driver: &mut Driver,
    ) {
        if driver.calls().is_empty() {
            let _ = has_room(driver, 64);
        }
    }
}

// Whether the calls are one SEND that was accepted at so many places.
fn is_one_sent(calls: &[Call], places: usize) -> bool {
    match calls {
        [call] => match &call.answer {
            Answer::Sent(sent) => {
                sent.places.len() == places && sent.places.as_slice().iter().all(|p| p.is_none())
            }
            _ => false,
        },
        _ => false,
    }
}

// Whether drivers 0 and 1 of a closed bus each have sent one message, to so many places.
fn have_both_sent(closed: &Closed, places: usize) -> bool {
    closed.facts();
    if closed.count() != 4 {
        return false;
    }
    is_one_sent(closed.calls(0), places) && is_one_sent(closed.calls(1), places)
}

// Two drivers stand between two events of a SEND each at the same time.
#[test]
fn drivers_stand_between_events_at_once(rt: HostRuntime) -> Result<(), Fail> {
    let alloc = rt.alloc();
    let wires = [wire(2, 0), wire(3, 0), wire(2, 1), wire(3, 1)];
    let opening = four_peers(alloc, &wires)?;
    assert!(rt; valid_opening(alloc, &opening)?);
    let mut crew = Crew::open(alloc, &opening)?;
    let one = Point::Between {
        driver: 0,
        event: 2,
    };
    let other = Point::Between {
        driver: 1,
        event: 2,
    };
    let gate = HoldGate::make(one, other, TURNS);
    crew.play(&rt, alloc, &gate, &MakesRoom);
    crew.play(&rt, alloc, &gate, &Crossing);
    assert!(rt; gate.met());
    assert!(rt; !gate.ran_out());
    assert!(rt; have_both_sent(&crew.close(alloc)?, 2));
    Ok(())
}

// Two drivers hold the locks of two peers at the same time.
#[test]
fn drivers_hold_two_locks_at_once(rt: HostRuntime) -> Result<(), Fail> {
    let alloc = rt.alloc();
    let opening = four_peers(alloc, &[wire(2, 0), wire(3, 1)])?;
    assert!(rt; valid_opening(alloc, &opening)?);
    let mut crew = Crew::open(alloc, &opening)?;
    let one = Point::Under { driver: 0, peer: 2 };
    let other = Point::Under { driver: 1, peer: 3 };
    let gate = HoldGate::make(one, other, TURNS);
    crew.play(&rt, alloc, &gate, &MakesRoom);
    crew.play(&rt, alloc, &gate, &Apart);
    assert!(rt; gate.met());
    assert!(rt; !gate.ran_out());
    assert!(rt; have_both_sent(&crew.close(alloc)?, 1));
    Ok(())
}
