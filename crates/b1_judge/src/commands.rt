//! Commands with their references resolved, and answers of their kind.

ghost use Rattle.std.specs.Prelude.{◌≡◌, ◌↔◌, map, is_none, IsTrue};
ghost use Rattle.std.specs.List.{list_any, list_all};
ghost use Rattle.b1_model.specs.Script.{resolved, resolved_handle, fits, FitsPlaces, HasPlaces};
ghost use Rattle.b1_judge.specs.Behind.{behind};

use crate::receipts::Receipts;
use b1_model::{Answer, Command, Reason, SendCmd, Sent};

/// Whether a command is another one that begins after some calls, with the references among its operands resolved.
pub(crate) fn is_resolved(command: &Command, before: &Receipts<'_>, made: &Command) -> bool
    ensures { IsTrue result ↔ (made.now ≡ resolved command.now (behind before.now)) }
{
    match (command, made) {
        (Command::Disconnect, Command::Disconnect) => true,
        (Command::Query, Command::Query) => true,
        (Command::Reset { limits }, Command::Reset { limits: found }) => limits == found,
        (Command::Limit { limits }, Command::Limit { limits: found }) => limits == found,
        (Command::Release { number }, Command::Release { number: found }) => {
            *found == before.handle(*number)
        }
        (Command::Destroy { numbers }, Command::Destroy { numbers: found }) => {
            are_resolved(numbers.as_slice(), before, found.as_slice())
        }
        (Command::SliceRelease { offset }, Command::SliceRelease { offset: found }) => {
            *found == before.offset(*offset)
        }
        (Command::Send(send), Command::Send(found)) => is_resolved_send(send, before, found),
        (Command::Recv, Command::Recv) => true,
        (Command::Await, Command::Await) => true,
        _ => false,
    }
}

/// Whether a send is another one that begins after some calls, with its references resolved.
fn is_resolved_send(send: &SendCmd, before: &Receipts<'_>, made: &SendCmd) -> bool
    ensures { IsTrue result ↔ (made.now
        ≡ record send.now {
          to = map (resolved_handle (behind before.now)) send.now.to;
          with = map (resolved_handle (behind before.now)) send.now.with;
        }) }
{
    send.go_on == made.go_on
        && are_resolved(send.to.as_slice(), before, made.to.as_slice())
        && are_resolved(send.with.as_slice(), before, made.with.as_slice())
        && send.payload.as_slice() == made.payload.as_slice()
}

/// Whether numbers are those of handles after some calls, with the references among them resolved.
fn are_resolved(numbers: &[u64], before: &Receipts<'_>, made: &[u64]) -> bool
    ensures { IsTrue result ↔ (made.now ≡ map (resolved_handle (behind before.now)) numbers.now) }
{
    if numbers.len() != made.len() {
        return false;
    }
    for (index, number) in numbers.iter().enumerate() {
        if made[index] != before.handle(*number) {
            return false;
        }
    }
    true
}

/// Whether an answer is of a command's kind.
pub(crate) fn is_of_kind(command: &Command, answer: &Answer) -> bool
    ensures { result ≡ fits command.now answer.now }
{
    match (command, answer) {
        (_, Answer::Refused(_)) => true,
        (Command::Send(_), Answer::Sent(_)) => true,
        (Command::Recv, Answer::Got(_)) => true,
        (Command::Destroy { .. }, Answer::Destroyed { .. }) => true,
        (Command::Reset { .. }, Answer::Reset { .. }) => true,
        (Command::Disconnect, Answer::Reset { .. }) => true,
        (Command::Query, Answer::Info { .. }) => true,
        (Command::Release { .. }, Answer::Done) => true,
        (Command::SliceRelease { .. }, Answer::Done) => true,
        (Command::Limit { .. }, Answer::Done) => true,
        _ => false,
    }
}

/// Whether the places of an accepted send fit it.
pub(crate) fn has_places(command: &Command, answer: &Answer) -> bool
    ensures { IsTrue result ↔ HasPlaces command.now answer.now }
{
    match (command, answer) {
        (Command::Send(send), Answer::Sent(sent)) => fits_places(send, sent),
        _ => true,
    }
}

/// Whether there is a place for each destination, one of them accepted, and with CONTINUE alone one refused.
fn fits_places(send: &SendCmd, sent: &Sent) -> bool
    ensures { IsTrue result ↔ FitsPlaces send.now sent.now }
{
    let places = sent.places.as_slice();
    places.len() == send.to.len() && has_accepted(places) && (send.go_on || are_accepted(places))
}

/// Whether a place is accepted.
fn has_accepted(places: &[Option<Reason>]) -> bool
    ensures { result ≡ list_any is_none places.now }
{
    places.iter().any(|place| place.is_none())
}

/// Whether each place is accepted.
fn are_accepted(places: &[Option<Reason>]) -> bool
    ensures { result ≡ list_all is_none places.now }
{
    places.iter().all(|place| place.is_none())
}
