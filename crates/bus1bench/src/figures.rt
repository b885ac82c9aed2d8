use crate::flow::{Flow, MakeRoom, Shape};
use crate::openings::{pairs, star};
use b1_crew::Crew;
use b1_edge::OpenGate;
use b1_model::{Opening, valid_opening};
use std::alloc::Global;
use std::io;
use std::rt::Runtime;
use std::sync::Wait;
use std::thread::Threads;
use std::time::{Duration, Instant};

// How many messages a run without words sends.
const FEW: u32 = 300;

/// One pair, and some hundred messages.
pub fn small_run<R: Runtime + Threads + Wait + Sync>(rt: &R, alloc: Global) -> io::Result<()> {
    time_of(rt, alloc, &pairs(alloc, 2, 1)?, Shape::Pairs(1), FEW)?;
    Ok(())
}

// How long a run takes, without its opening. An error is want of memory, or the clock's.
fn time_of<R: Runtime + Threads + Wait + Sync>(
    rt: &R,
    alloc: Global,
    opening: &Opening,
    shape: Shape,
    messages: u32,
) -> io::Result<Duration> {
    if !valid_opening(alloc, opening)? {
        return Err(io::Error::from(io::ErrorKind::InvalidInput));
    }
    let mut crew = Crew::open(alloc, opening)?;
    let room = MakeRoom {
        calls: messages.saturating_mul(2) as usize,
    };
    crew.play(rt, alloc, &OpenGate, &room);
    let flow = Flow::new(alloc, shape, messages, opening.peers.len() as u32)?;
    let start = Instant::now(rt)?;
    crew.play(rt, alloc, &OpenGate, &flow);
    let time = start.elapsed(rt)?;
    if flow.has_failed() {
        return Err(io::Error::from(io::ErrorKind::OutOfMemory));
    }
    Ok(time)
}

// How many a second.
fn rate(count: u64, time: Duration) -> u128 {
    (count as u128).saturating_mul(1_000_000) / time.as_micros().max(1)
}

// Prints one figure, and gives it.
fn print_rate<R: Runtime>(rt: &R, name: &str, count: u64, time: Duration) -> io::Result<u128> {
    let rate = rate(count, time);
    println!(rt; "{name}: {rate} messages a second")?;
    Ok(rate)
}

// Prints how many messages a second so many pairs carry, of so many peers, and gives it.
fn print_pairs<R: Runtime + Threads + Wait + Sync>(
    rt: &R,
    alloc: Global,
    name: &str,
    peers: u32,
    count: u8,
    messages: u32,
) -> io::Result<u128> {
    let opening = pairs(alloc, peers, count)?;
    let time = time_of(rt, alloc, &opening, Shape::Pairs(count), messages)?;
    print_rate(rt, name, messages as u64 * count as u64, time)
}

// Prints how a rate compares with that of one pair, in hundredths.
fn print_ratio<R: Runtime>(rt: &R, name: &str, rate: u128, one: u128) -> io::Result<()> {
    let ratio = rate.saturating_mul(100) / one.max(1);
    println!(rt; "{name}: {ratio} hundredths of one pair")?;
    Ok(())
}

/// Prints the figures of runs with so many messages a sender.
pub fn print_figures<R: Runtime + Threads + Wait + Sync>(
    rt: &R,
    alloc: Global,
    messages: u32,
) -> io::Result<()> {
    let one = print_pairs(rt, alloc, "one pair", 2, 1, messages)?;
    let four = print_pairs(rt, alloc, "four pairs", 8, 4, messages)?;
    print_ratio(rt, "four pairs", four, one)?;
    let eight = print_pairs(rt, alloc, "eight pairs", 16, 8, messages)?;
    print_ratio(rt, "eight pairs", eight, one)?;
    let beside = print_pairs(rt, alloc, "four pairs of 64 peers", 64, 4, messages)?;
    print_ratio(rt, "four pairs of 64 peers", beside, one)?;
    let opening = star(alloc, 8)?;
    let time = time_of(rt, alloc, &opening, Shape::Multicast, messages)?;
    print_rate(rt, "one multicast to eight", messages as u64, time)?;
    Ok(())
}
