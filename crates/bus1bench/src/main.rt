//! How many messages a second the bus on threads carries.
//!
//! Without words it sends some hundred messages, and prints nothing. With a number, it prints figures of runs with so many
//! messages a sender.
#![tactic(auto)]

mod figures;
mod flow;
mod openings;

use figures::{print_figures, small_run};
use std::alloc::Global;
use std::process::ExitCode;
use std::rt::Runtime;
use std::sync::Wait;
use std::thread::Threads;
use std::{env, io};

// The status where memory, the clock or the output is wanting, or a word is no number.
const FAILED: u8 = 1;

// The most messages a sender.
const MOST_MESSAGES: u32 = 400_000;

fn main(rt: HostRuntime) -> ExitCode {
    match run(&rt) {
        Ok(()) => ExitCode::SUCCESS,
        Err(_) => ExitCode::from(FAILED),
    }
}

// Does what the words ask for.
fn run<R: Runtime<A = Global> + Threads + Wait + Sync>(rt: &R) -> io::Result<()> {
    let alloc = rt.alloc();
    let words = env::args(rt)?.skip(1).collect::<Vec<String>>(alloc)?;
    match words.as_slice() {
        [] => small_run(rt, alloc),
        [word] => match word.as_str().parse::<u32>() {
            Ok(messages) if messages > 0 && messages <= MOST_MESSAGES => {
                print_figures(rt, alloc, messages)
            }
            _ => Err(io::Error::from(io::ErrorKind::InvalidInput)),
        },
        _ => Err(io::Error::from(io::ErrorKind::InvalidInput)),
    }
}
