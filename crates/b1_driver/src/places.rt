ghost use Rattle.std.specs.Prelude.{◌≡◌, ◌<◌, ◌^◌, length};
ghost use Rattle.b1_model.specs.MachineDriver.{accepted_from, is_memory, memory_place, is_place, refused_at, all_refused};

use b1_model::{Answer, Reason, Refused};

/// The first accepted place from one on, or the number of places.
pub fn accepted_from(from: usize, places: &[Option<Reason>]) -> u32
    requires { length places.now < 2 ^ 32 }
    ensures { result ≡ accepted_from from places.now }
{
    for (here, place) in places.iter().enumerate() {
        if place.is_none() && from <= here {
            return here as u32;
        }
    }
    places.len() as u32
}

/// Whether a place is one of the list.
pub fn is_place(place: u32, places: &[Option<Reason>]) -> bool
    ensures { result ≡ is_place place places.now }
{
    (place as usize) < places.len()
}

/// A refusal with its place, if it has one.
pub fn refused_at(reason: Reason, place: Option<u32>) -> Answer
    ensures { result ≡ refused_at reason place }
{
    Answer::Refused(Refused { reason, place })
}

// Whether a place was refused for want of memory.
fn is_memory(place: &Option<Reason>) -> bool
    ensures { result ≡ is_memory place.now }
{
    matches!(place, Some(Reason::Memory))
}

// The first place refused for want of memory.
fn memory_place(places: &[Option<Reason>]) -> Option<u32>
    requires { length places.now < 2 ^ 32 }
    ensures { result ≡ memory_place 0 places.now }
{
    for (here, place) in places.iter().enumerate() {
        if is_memory(place) {
            return Some(here as u32);
        }
    }
    None
}

/// The answer of a SEND that no destination accepted.
pub fn all_refused(places: &[Option<Reason>]) -> Answer
    requires { length places.now < 2 ^ 32 }
    ensures { result ≡ all_refused places.now }
{
    if let Some(place) = memory_place(places) {
        return refused_at(Reason::Memory, Some(place));
    }
    match places.first() {
        Some(Some(reason)) => refused_at(*reason, Some(0)),
        _ => refused_at(Reason::Invalid, None),
    }
}
