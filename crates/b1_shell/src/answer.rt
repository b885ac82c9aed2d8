// What is said of an input, before anything is written.
ghost use Rattle.std.specs.Prelude.{◌≢◌, ◌≤◌, length, IfOk};
ghost use Rattle.b1_script.specs.Spelling.{HasSpelling};
ghost use Rattle.b1_shell.specs.Answers.{IsAsked, SaysOf, Says};
ghost use Rattle.b1_shell.specs.declared.Said.TheVariants.{Bad};
ghost use Rattle.b1_shell.specs.declared.forms.Form.TheVariants.{Play};
ghost use Rattle.b1_input.specs.Held.{held_bytes};
ghost use Rattle.b1_model.specs.declared.limits.TheConstants.{MOST_SCRIPT};

use crate::Said;
use crate::lines::bad_line;
use crate::stalls::stall_report;
use b1_errs::NotRead;
use b1_input::Input;
use b1_law::every_reached_state_is_sound;
use b1_play::{Played, play};
use b1_play_commands::what_is_played_is_scripted;
use b1_play_end::{a_finished_play_is_drained, a_stalled_play_is_stuck};
use b1_play_report::what_is_played_is_spelled;
use b1_report::print;
use b1_script::Script;
use std::alloc::{AllocError, Global};

/// What is said of a script: the report of what it comes to, or where it stalls.
fn answer_script(alloc: Global, script: &Script) -> Result<(Said, Vec<u8>), AllocError>
    requires { HasSpelling script.now }
    ensures says { IfOk result (λ r. SaysOf script.now r.0 r.1.items) }
    ensures accepted { IfOk result (λ r. r.0 ≢ Bad) }
{
    every_reached_state_is_sound();
    what_is_played_is_scripted();
    a_finished_play_is_drained();
    a_stalled_play_is_stuck();
    what_is_played_is_spelled();
    let cookies = script.cookies.as_ref();
    match play(alloc, script)? {
        Played::Done(outcome) => Ok((Said::Done, print(alloc, &outcome, cookies)?)),
        Played::Stalled { waiting, reached } => {
            Ok((
                Said::Stalled,
                stall_report(alloc, &waiting, &reached, cookies)?,
            ))
        }
    }
}

/// What is said of an input that is to be played. An error is want of memory.
pub fn answer_play(alloc: Global, input: Input) -> Result<(Said, Vec<u8>), AllocError>
    requires { length (held_bytes input) ≤ MOST_SCRIPT }
    ensures says { IfOk result (λ r. Says Play (held_bytes input) r.0 r.1.items) }
    ensures accepted { IfOk result (λ r. IsAsked Play (held_bytes input) → r.0 ≢ Bad) }
{
    match input.whole() {
        Ok(script) => answer_script(alloc, &script),
        Err(NotRead::Bad { at, cause }) => Ok((Said::Bad, bad_line(alloc, at, cause)?)),
        Err(NotRead::Memory) => Err(AllocError),
    }
}
