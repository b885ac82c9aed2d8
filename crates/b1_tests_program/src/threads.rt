use b1_edge::{HoldGate, Point};
use b1_io::{MemSink, MemSource};
use b1_shell::{quiet, top};
use std::alloc::{AllocError, Global};
use std::sync::Wait;
use std::test::Fail;
use std::thread::Threads;

// How many turns a gate holds a thread at most. They last a few seconds.
const TURNS: u64 = 1_000_000_000;

// Two multicasts to two peers, in opposite orders.
const MULTICASTS: &str =
    "bus1 script 1\nclock 0\npeer 0 4096 16 4096 16\npeer 1 4096 16 4096 16\npeer 2 4096 16 4096 16\npeer 3 4096 16 4096 16\nwire 2 4 0\nwire 3 4 0\nwire 2 4 1\nwire 3 4 1\ncommands 0\nsend 0 to 2,6 with - data 61\ncommands 1\nsend 0 to 6,2 with - data 62\ncommands 2\ncommands 3\nturns -\n";

// Two messages, each to another peer.
const APART: &str =
    "bus1 script 1\nclock 0\npeer 0 4096 16 4096 16\npeer 1 4096 16 4096 16\npeer 2 4096 16 4096 16\npeer 3 4096 16 4096 16\nwire 2 4 0\nwire 3 4 1\ncommands 0\nsend 0 to 2 with - data 61\ncommands 1\nsend 0 to 2 with - data 62\ncommands 2\ncommands 3\nturns -\n";

// A list of these words.
fn words_of(alloc: Global, words: &[&str]) -> Result<Vec<String>, AllocError> {
    let mut list = Vec::new(alloc);
    for word in words {
        list.push(String::from_str(alloc, word)?)?;
    }
    Ok(list)
}

// The script of a text.
fn script_of(alloc: Global, text: &str) -> Result<Vec<u8>, AllocError> {
    let words = words_of(alloc, &["asm"])?;
    let mut source = MemSource::make(text.as_bytes().to_vec(alloc)?, 4096, Vec::new(alloc));
    let mut sink = MemSink::make(alloc, 4096, 4096, Vec::new(alloc))?;
    let _ = quiet(alloc, &words, &mut source, &mut sink);
    sink.taken().to_vec(alloc)
}

// The status of these words on threads, with this input and at this gate.
fn status_at<R: Threads + Wait + Sync>(
    rt: &R,
    alloc: Global,
    words: &[&str],
    input: Vec<u8>,
    gate: &HoldGate,
) -> Result<u8, AllocError> {
    let words = words_of(alloc, words)?;
    let mut source = MemSource::make(input, 4096, Vec::new(alloc));
    let mut sink = MemSink::make(alloc, 4096, 4096, Vec::new(alloc))?;
    Ok(top(rt, alloc, &words, &mut source, &mut sink, gate))
}

fn between(driver: u32, event: u32) -> Point {
    Point::Between { driver, event }
}

fn under(driver: u32, peer: u32) -> Point {
    Point::Under { driver, peer }
}

#[test]
fn drivers_are_between_events_at_once(rt: HostRuntime) -> Result<(), Fail> {
    let alloc = rt.alloc();
    let gate = HoldGate::make(between(0, 2), between(1, 2), TURNS);
    let status = status_at(&rt, alloc, &["run"], script_of(alloc, MULTICASTS)?, &gate)?;
    assert_eq!(rt; status, 0);
    assert!(rt; gate.met());
    assert!(rt; !gate.ran_out());
    Ok(())
}

#[test]
fn drivers_are_under_two_locks_at_once(rt: HostRuntime) -> Result<(), Fail> {
    let alloc = rt.alloc();
    let gate = HoldGate::make(under(0, 2), under(1, 3), TURNS);
    let status = status_at(&rt, alloc, &["run"], script_of(alloc, APART)?, &gate)?;
    assert_eq!(rt; status, 0);
    assert!(rt; gate.met());
    assert!(rt; !gate.ran_out());
    Ok(())
}

#[test]
fn a_soak_runs_its_drivers_beside_each_other(rt: HostRuntime) -> Result<(), Fail> {
    let alloc = rt.alloc();
    let gate = HoldGate::make(between(0, 1), between(1, 1), TURNS);
    let status = status_at(&rt, alloc, &["soak", "7"], Vec::new(alloc), &gate)?;
    assert_eq!(rt; status, 0);
    assert!(rt; gate.met());
    assert!(rt; !gate.ran_out());
    Ok(())
}
