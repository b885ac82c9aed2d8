ghost use Rattle.std.specs.Prelude.{◌≡◌, IfOk};
ghost use Rattle.b1_gen.specs.Generated.{generated};
ghost use Rattle.b1_run.specs.Runs.{IsDone};
ghost use Rattle.b1_soak.specs.Soaks.{IsSoak};

use b1_edge::Gate;
use b1_gen::{count_all, generate, summary};
use b1_model::Record;
use b1_run::{Ran, run};
use b1_script::Script;
use b1_shortage::has_shortage;
use std::alloc::{AllocError, Global};
use std::sync::Wait;
use std::thread::Threads;

/// Runs the script of a number on threads, and tells in a line what was sent and received, which depends on the number
/// alone. An error is want of memory, also where a SEND was refused for memory. It returns only if the drivers' waits for
/// locks end.
pub fn soak<R: Threads + Wait + Sync, G: Gate + Sync>(
    rt: &R,
    alloc: Global,
    gate: &G,
    number: u32,
) -> Result<Vec<u8>, AllocError>
    ensures { IfOk result (λ line. IsSoak number line.items) }
{
    let script = generate(alloc, number)?;
    match run(rt, alloc, gate, &script)? {
        Ran::Done(run) => told(alloc, number, &script, &run),
        Ran::Stalled { .. } => unreachable!(),
    }
}

/// The line of a run that ended, if its record shows no SEND that was refused for memory; else want of memory.
fn told(alloc: Global, number: u32, script: &Script, run: &Record) -> Result<Vec<u8>, AllocError>
    requires script { script.now ≡ generated number }
    requires done { IsDone (generated number) run.now }
    ensures { IfOk result (λ line. IsSoak number line.items) }
{
    if has_shortage(run) {
        return Err(AllocError);
    }
    match count_all(run) {
        Some(counts) => summary(alloc, number, script.opening.peers.len() as u32, counts),
        None => unreachable!(),
    }
}
