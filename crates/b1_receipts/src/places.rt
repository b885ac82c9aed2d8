//! The places of the data receipts.

ghost use Rattle.std.specs.Prelude.{◌≡◌, ◌<◌, ◌++◌, vec_len, vec_capacity, IfOk};
ghost use Rattle.b1_receipts.specs.Places.{is_data, place_of, data_places};

use b1_model::{Answer, Call, Receipt};
use std::alloc::{AllocError, Global};

/// Whether an answer is a data receipt.
fn is_data(answer: &Answer) -> bool
    ensures { result ≡ is_data answer.now }
{
    matches!(answer, Answer::Got(Receipt::Message { .. }))
}

/// Puts the place of an answer behind the places, if it is a data receipt. Takes no memory.
pub fn note(places: &mut Vec<usize>, place: usize, answer: &Answer)
    requires { vec_len places.old < vec_capacity places.old }
    ensures items { places.new.items ≡ places.old.items ++ place_of place answer.now }
    ensures capacity { vec_capacity places.new ≡ vec_capacity places.old }
{
    if is_data(answer) {
        places.push_reserved(place);
    }
}

/// The places of the data receipts among calls. An error is want of memory.
pub fn data_places(alloc: Global, calls: &[Call]) -> Result<Vec<usize>, AllocError>
    ensures { IfOk result (λ places. places.items ≡ data_places calls.now) }
{
    let mut places = Vec::new(alloc);
    for (place, call) in calls.iter().enumerate() {
        if is_data(&call.answer) {
            places.push(place)?;
        }
    }
    Ok(places)
}
