//! What the commands of a port of no bus do to its list of calls.

ghost use Rattle.std.specs.Prelude.{◌≡◌, ◌+◌, ◌-◌, ◌⊎◌, ◌<◌, ◌≤◌, ◌*◌, ◌^◌, ◌%◌, ◌++◌, ◌∷◌, [], All, drop, length, replicate, None, Some, Ok, Err, Option, List, IfErr, IfOk};
ghost use Rattle.b1_model.specs.declared.answers.Receipt.{Receipt as OneReceipt};
ghost use Rattle.b1_model.specs.declared.answers.Reason.TheVariants as reasons;
ghost use Rattle.b1_model.specs.declared.commands.Command.TheVariants as commands;
ghost use Rattle.b1_model.specs.declared.records.Call.{Call as OneCall};
ghost use Rattle.b1_edge.specs.Ports.{received_answer, refused_with, with_call};
ghost use Rattle.b1_port_memory.specs.Memory.{HasEvenStamp, accepted, IsTold, next_answer, refusal};

use crate::book::Book;
use crate::forms::{form_refusal, has_number};
use b1_model::{Answer, Call, Command, Front, Places, Reason, Receipt, Refused, SendCmd, Sent};
use std::alloc::{AllocError, Global};
use std::collections::VecDeque;

/// The answer of a SEND, twice: for the caller, and for the list.
pub(crate) fn answer_send(
    book: &Book,
    fails: &[u64],
    alloc: Global,
    cmd: &SendCmd,
) -> Result<(Sent, Sent), Refused>
    ensures told { IfOk result (λ r. IsTold book.now.calls fails.now cmd.now (Ok r.0)) }
    ensures kept { IfOk result (λ r. r.1 ≡ r.0) }
    ensures err { IfErr result (λ e. IsTold book.now.calls fails.now cmd.now (Err e)) }
    ensures even { IfOk result (λ r. r.0.stamp % 2 ≡ 0) }
    ensures low { IfOk result (λ r. r.0.stamp ≤ 2 ^ 62 + 2 * (length book.now.calls + 1)) }
{
    if let Some(reason) = form_refusal(cmd) {
        return Err(refusing(reason));
    }
    if has_number(fails, book.sends()) {
        return Err(refusing(Reason::Memory));
    }
    accepted_twice(book, alloc, cmd)
}

/// The answer of a SEND that is accepted at each place, twice; a refusal is want of memory.
fn accepted_twice(book: &Book, alloc: Global, cmd: &SendCmd) -> Result<(Sent, Sent), Refused>
    ensures told { IfOk result (λ r. r.0 ≡ accepted book.now.calls cmd.now) }
    ensures kept { IfOk result (λ r. r.1 ≡ r.0) }
    ensures err { IfErr result (λ e. e ≡ refusal reasons.Memory) }
    ensures even { IfOk result (λ r. r.0.stamp % 2 ≡ 0) }
    ensures low { IfOk result (λ r. r.0.stamp ≤ 2 ^ 62 + 2 * (length book.now.calls + 1)) }
{
    let stamp = book.next_stamp();
    match places_twice(alloc, cmd.to.len()) {
        Ok((told, kept)) => Ok((sent(stamp, told), sent(stamp, kept))),
        Err(_) => Err(refusing(Reason::Memory)),
    }
}

/// An accepted SEND.
fn sent(stamp: u64, places: Places) -> Sent
    ensures { result ≡ record { stamp = stamp; places = places } }
{
    Sent { stamp, places }
}

/// So many accepted places, twice. An error is want of memory.
fn places_twice(alloc: Global, n: usize) -> Result<(Places, Places), AllocError>
    ensures { IfOk result (λ p. (p.0 ≡ replicate n None) × (p.1 ≡ replicate n None)) }
{
    let told = Vec::from_elem(alloc, None, n)?;
    let kept = Vec::from_elem(alloc, None, n)?;
    Ok((Places::from_vec(told), Places::from_vec(kept)))
}

/// A refusal that is no destination's.
fn refusing(reason: Reason) -> Refused
    ensures { result ≡ refusal reason }
{
    Refused {
        reason,
        place: None,
    }
}

/// A command is refused.
pub(crate) fn refuse(book: &mut Book, command: Command, reason: Reason)
    requires spare { 0 < book.old.spare }
    ensures { book.new ≡ record {
      calls = with_call command (refused_with reason) book.old.calls;
      spare = book.old.spare - 1;
    } }
{
    book.add(command, Answer::Refused(refusing(reason)));
}

/// Takes the next receipt, or is refused where none is left.
pub(crate) fn take(book: &mut Book, gives: &mut VecDeque<Receipt>)
    requires spare { 0 < book.old.spare }
    requires stamps { All HasEvenStamp gives.old.items }
    ensures book { book.new ≡ record {
      calls = with_call commands.Recv (next_answer gives.old.items) book.old.calls;
      spare = book.old.spare - 1;
    } }
    ensures gives { gives.new.items ≡ drop 1 gives.old.items }
    ensures stamps { All HasEvenStamp gives.new.items }
{
    match gives.pop_front() {
        Some(receipt) => book.add(Command::Recv, Answer::Got(receipt)),
        None => refuse(book, Command::Recv, Reason::Again(Front::Absent)),
    }
}

/// What the last of some calls, a RECV, came to.
pub(crate) fn last_received(calls: &[Call]) -> Result<&Receipt, Reason>
    requires { (before : List OneCall) × (gives : List OneReceipt)
        × (calls.now ≡ with_call commands.Recv (next_answer gives) before) }
    ensures { (before : List OneCall) × (calls.now
        ≡ with_call commands.Recv (received_answer result) before) }
{
    match calls.last() {
        Some(call) => received(&call.answer),
        None => unreachable!(),
    }
}

/// What a RECV came to.
fn received(answer: &Answer) -> Result<&Receipt, Reason>
    requires { (gives : List OneReceipt) × (answer.now ≡ next_answer gives) }
    ensures { received_answer result ≡ answer.now }
{
    match answer {
        Answer::Got(receipt) => Ok(receipt),
        Answer::Refused(refused) => Err(refused.reason),
        _ => unreachable!(),
    }
}
