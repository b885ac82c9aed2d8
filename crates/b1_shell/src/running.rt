// What is said of a script that is run on threads.
ghost use Rattle.std.specs.Prelude.{IfOk, IfErr, ◌≡◌, ◌≢◌, ◌≤◌, length};
ghost use Rattle.b1_io.specs.Streams.{Rose};
ghost use Rattle.b1_model.specs.declared.limits.TheConstants.{MOST_SCRIPT};
ghost use Rattle.b1_script.specs.Spelling.{HasSpelling};
ghost use Rattle.b1_shell.specs.declared.Said.TheVariants.{Bad, Broken};
ghost use Rattle.b1_shell.specs.declared.forms.Form.TheVariants.{Play};
ghost use Rattle.b1_shell.specs.Answers.{IsAsked};
ghost use Rattle.b1_shell.specs.Reads.{IsRead};
ghost use Rattle.b1_input.specs.Held.{held_bytes};
ghost use Rattle.b1_shell.specs.declared.Unsaid.TheVariants.{Fault};
ghost use Rattle.b1_shell.specs.Runs.{RunSays, RunSaysOf};

use crate::lines::bad_line;
use crate::reading::read_to_end;
use crate::stalls::stall_report;
use crate::{Said, Unsaid};
use b1_edge::Gate;
use b1_errs::{Cause, NotRead};
use b1_input::Input;
use b1_io::Source;
use b1_model::MOST_SCRIPT;
use b1_play_report::what_is_played_is_spelled;
use b1_report::print;
use b1_run::{Ran, run};
use b1_script::Script;
use std::alloc::{AllocError, Global};
use std::sync::Wait;
use std::thread::Threads;

/// Reads the source to its end, runs the script that it held on threads, and makes the whole text.
pub fn read_and_run<R: Threads + Wait + Sync, S: Source, G: Gate + Sync>(
    rt: &R,
    alloc: Global,
    source: &mut S,
    gate: &G,
) -> Result<(Said, Vec<u8>), Unsaid>
    ensures read { IfOk result (λ r.
        IsRead RunSays Play (S.left source.old) (S.left source.new) r.0 r.1.items) }
    ensures unbroken { IfOk result (λ r. r.0 ≢ Broken) }
    ensures fault { IfErr result (λ e. e ≡ Fault
        → Rose (S.faults source.old) (S.faults source.new)) }
{
    match read_to_end(source, Input::make(alloc), MOST_SCRIPT)? {
        Some(input) => Ok(answer_run(rt, alloc, input, gate)?),
        None => Ok((Said::Bad, bad_line(alloc, MOST_SCRIPT, Cause::Long)?)),
    }
}

/// What is said of an input that is to be run. An error is want of memory.
fn answer_run<R: Threads + Wait + Sync, G: Gate + Sync>(
    rt: &R,
    alloc: Global,
    input: Input,
    gate: &G,
) -> Result<(Said, Vec<u8>), AllocError>
    requires { length (held_bytes input) ≤ MOST_SCRIPT }
    ensures says { IfOk result (λ r. RunSays (held_bytes input) r.0 r.1.items) }
    ensures accepted { IfOk result (λ r. IsAsked Play (held_bytes input) → r.0 ≢ Bad) }
    ensures unbroken { IfOk result (λ r. r.0 ≢ Broken) }
{
    match input.whole() {
        Ok(script) => run_script(rt, alloc, &script, gate),
        Err(NotRead::Bad { at, cause }) => Ok((Said::Bad, bad_line(alloc, at, cause)?)),
        Err(NotRead::Memory) => Err(AllocError),
    }
}

/// What is said of a script that is run. An error is want of memory.
fn run_script<R: Threads + Wait + Sync, G: Gate + Sync>(
    rt: &R,
    alloc: Global,
    script: &Script,
    gate: &G,
) -> Result<(Said, Vec<u8>), AllocError>
    requires { HasSpelling script.now }
    ensures says { IfOk result (λ r. RunSaysOf script.now r.0 r.1.items) }
    ensures accepted { IfOk result (λ r. r.0 ≢ Bad) }
    ensures unbroken { IfOk result (λ r. r.0 ≢ Broken) }
{
    what_is_played_is_spelled();
    let cookies = script.cookies.as_ref();
    match run(rt, alloc, gate, script)? {
        Ran::Done(outcome) => Ok((Said::Done, print(alloc, &outcome, cookies)?)),
        Ran::Stalled { waiting, reached } => {
            Ok((
                Said::Stalled,
                stall_report(alloc, &waiting, &reached, cookies)?,
            ))
        }
    }
}
