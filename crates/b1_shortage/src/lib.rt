//! Whether a record shows want of memory.
#![tactic(auto)]

ghost use Rattle.std.specs.Prelude.{◌≡◌, ℕ, false};
ghost use Rattle.std.specs.Prelude.{Option as Maybe};
ghost use Rattle.std.specs.List.{list_any};
ghost use Rattle.b1_model.specs.MachineDriver.{is_memory as is_for_memory};
ghost use Rattle.b1_schedule.specs.Shortage.{shortage_of};
ghost use Rattle.b1_shortage.specs.Shown.{shows_shortage, some_short, some_shortage};

use b1_model::{Answer, Call, Reason, Record};

/// Whether a record shows a SEND that was refused for memory, also at one place of it.
pub fn has_shortage(rec: &Record) -> bool
    ensures exact { result ≡ some_shortage rec.now }
    ensures nowhere { result ≡ false → (p k : ℕ) (place : Maybe ℕ)
        → shortage_of rec.now p k place ≡ false }
{
    record_is_short(rec)
}

/// Whether some call of a record was refused for memory.
fn record_is_short(rec: &Record) -> bool
    ensures { result ≡ some_shortage rec.now }
{
    rec.peers
        .as_slice()
        .iter()
        .any(|peer| calls_are_short(peer.calls.as_slice()))
}

/// Whether some call was refused for memory.
fn calls_are_short(calls: &[Call]) -> bool
    ensures { result ≡ list_any some_short calls.now }
{
    calls.iter().any(|call| is_short(&call.answer))
}

/// Whether an answer is a refusal for memory, also at one place.
fn is_short(answer: &Answer) -> bool
    ensures { result ≡ shows_shortage answer.now }
{
    match answer {
        Answer::Sent(sent) => places_are_short(sent.places.as_slice()),
        Answer::Refused(refused) => is_memory(&Some(refused.reason)),
        _ => false,
    }
}

/// Whether some place was refused for memory.
fn places_are_short(places: &[Option<Reason>]) -> bool
    ensures { result ≡ list_any is_for_memory places.now }
{
    places.iter().any(|place| is_memory(place))
}

/// Whether a place was refused for memory.
fn is_memory(place: &Option<Reason>) -> bool
    ensures { result ≡ is_for_memory place.now }
{
    match place {
        Some(Reason::Memory) => true,
        _ => false,
    }
}
