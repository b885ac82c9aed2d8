// What is said of a script with its report.
ghost use Rattle.std.specs.Prelude.{◌≢◌, ◌≤◌, ℕ, List, length, IfOk};
ghost use Rattle.b1_input.specs.Held.{held_bytes, IsFront};
ghost use Rattle.b1_model.specs.declared.limits.TheConstants.{MOST_CHECKED as most};
ghost use Rattle.b1_model.specs.declared.records.Record.{Record as Records};
ghost use Rattle.b1_report.specs.Parsing as report;
ghost use Rattle.b1_shell.specs.declared.Said.TheVariants.{Bad};
ghost use Rattle.b1_shell.specs.declared.forms.Form.TheVariants.{Check};
ghost use Rattle.b1_shell.specs.Answers.{IsAsked, Says};
ghost use Rattle.b1_shell.specs.Reads.{IsChecked};

use crate::Said;
use crate::lines::{bad_line, broken_line, legal_line};
use b1_errs::NotRead;
use b1_input::{Front, Input};
use b1_judge::{Verdict, judge};
use b1_model::Record;
use b1_report::parse;
use std::alloc::{AllocError, Global};

/// What is said of a script with its report. An error is want of memory.
pub fn answer_check(alloc: Global, input: Input) -> Result<(Said, Vec<u8>), AllocError>
    requires { length (held_bytes input) ≤ most }
    ensures says { IfOk result (λ r. Says Check (held_bytes input) r.0 r.1.items) }
    ensures accepted { IfOk result (λ r. IsAsked Check (held_bytes input) → r.0 ≢ Bad) }
{
    match input.front() {
        Ok(front) => answer_report(alloc, &front),
        Err(NotRead::Bad { at, cause }) => Ok((Said::Bad, bad_line(alloc, at, cause)?)),
        Err(NotRead::Memory) => Err(AllocError),
    }
}

/// What is said of an input with a script at its front.
fn answer_report(alloc: Global, front: &Front) -> Result<(Said, Vec<u8>), AllocError>
    requires { IsChecked front.now }
    ensures says { IfOk result (λ r. (input : List ℕ) → length input ≤ most
        → IsFront input front.now.script front.now.end front.now.behind.items
        → Says Check input r.0 r.1.items) }
    ensures accepted { IfOk result (λ r. (outcome : Records)
        → report.IsReport front.now.script.cookies (length front.now.script.opening.peers)
        front.now.behind.items outcome
        → r.0 ≢ Bad) }
{
    let peers = front.script.opening.peers.len() as u32;
    match parse(alloc, &front.behind, peers, front.script.cookies.as_ref()) {
        Ok(outcome) => answer_record(alloc, front, &outcome),
        Err(NotRead::Bad { at, cause }) => Ok((Said::Bad, bad_line(alloc, front.end + at, cause)?)),
        Err(NotRead::Memory) => Err(AllocError),
    }
}

/// What is said of a record, whose report stands behind its script.
fn answer_record(
    alloc: Global,
    front: &Front,
    outcome: &Record,
) -> Result<(Said, Vec<u8>), AllocError>
    requires front { IsChecked front.now }
    requires report { report.IsReport front.now.script.cookies
        (length front.now.script.opening.peers) front.now.behind.items outcome.now }
    ensures says { IfOk result (λ r. (input : List ℕ) → length input ≤ most
        → IsFront input front.now.script front.now.end front.now.behind.items
        → Says Check input r.0 r.1.items) }
    ensures accepted { IfOk result (λ r. r.0 ≢ Bad) }
{
    match judge(alloc, &front.script, outcome)? {
        Verdict::Legal => Ok((Said::Done, legal_line(alloc)?)),
        Verdict::Broken { clause, peer, call } => {
            Ok((Said::Broken, broken_line(alloc, clause, peer, call)?))
        }
    }
}
