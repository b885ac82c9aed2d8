//! What the form of a command refuses, and the stamp that an answer shows.

ghost use Rattle.std.specs.Prelude.{◌≡◌, ◌==◌, not};
ghost use Rattle.std.specs.List.{list_any};
ghost use Rattle.b1_model.specs.MachineParts.{is_odd as has_bit_0};
ghost use Rattle.b1_model.specs.MachineSend.{is_bad_send};
ghost use Rattle.b1_model.specs.MachineDestroy.{has_repeat as repeats, is_bad_destroy};
ghost use Rattle.b1_model.specs.Names.{is_own};
ghost use Rattle.b1_port_memory.specs.Memory.{any_stamp, form_refusal as refusal_of};

use b1_model::{
    Answer, MOST_DESTINATIONS, MOST_HANDLES, MOST_PAYLOAD, Reason, Receipt, SendCmd, answer_stamp,
};

/// Why a SEND is refused by its form alone; `None` where it isn't.
pub fn form_refusal(cmd: &SendCmd) -> Option<Reason>
    ensures { result ≡ refusal_of cmd.now }
{
    if is_bad(cmd) {
        return Some(Reason::Invalid);
    }
    let len = cmd.payload.len() as u64;
    if len > MOST_PAYLOAD as u64 {
        return Some(Reason::Size { len });
    }
    None
}

/// Whether a SEND has no destination or too many, too many handles, or a number with bit 0 set.
fn is_bad(cmd: &SendCmd) -> bool
    ensures { result ≡ is_bad_send cmd.now }
{
    let to = cmd.to.as_slice();
    let with = cmd.with.as_slice();
    to.is_empty()
        || to.len() > MOST_DESTINATIONS
        || with.len() > MOST_HANDLES
        || has_odd(to)
        || has_odd(with)
}

/// Whether a number has bit 0 set.
fn has_odd(numbers: &[u64]) -> bool
    ensures { result ≡ list_any has_bit_0 numbers.now }
{
    numbers.iter().any(|n| *n % 2 == 1)
}

/// Whether the list of a NODES_DESTROY is empty or too long, has a number that isn't an own one, or one that stands
/// twice.
pub fn is_bad_list(numbers: &[u64]) -> bool
    ensures { result ≡ is_bad_destroy numbers.now }
{
    numbers.is_empty()
        || numbers.len() > MOST_DESTINATIONS
        || has_other(numbers)
        || has_repeat(numbers)
}

/// Whether one of the numbers isn't an own number.
fn has_other(numbers: &[u64]) -> bool
    ensures { result ≡ list_any (λ n. not (is_own n)) numbers.now }
{
    numbers.iter().any(|n| *n % 4 != 0)
}

/// Whether a number stands twice.
fn has_repeat(numbers: &[u64]) -> bool
    ensures { result ≡ repeats numbers.now }
{
    let mut left = numbers;
    while let [number, rest @ ..] = left {
        if has_number(rest, *number) {
            return true;
        }
        left = rest;
    }
    false
}

/// Whether a number is among others.
pub fn has_number(numbers: &[u64], number: u64) -> bool
    ensures { result ≡ list_any (λ m. m == number) numbers.now }
{
    numbers.iter().any(|m| *m == number)
}

/// The stamp that an answer shows; `None` where it shows none.
pub fn shown_stamp(answer: &Answer) -> Option<u64>
    ensures { result ≡ any_stamp answer.now }
{
    match answer {
        Answer::Got(Receipt::Message { key, .. }) => Some(key.stamp),
        Answer::Got(Receipt::Destroyed { key, .. }) => Some(key.stamp),
        Answer::Got(Receipt::Released { stamp, .. }) => Some(*stamp),
        _ => answer_stamp(answer),
    }
}
