//! The numbers of a destruction: what refuses them, and which nodes they name.

ghost use Rattle.std.specs.Prelude.{◌≡◌, ◌==◌, find, not};
ghost use Rattle.std.specs.List.{list_any};
ghost use Rattle.b1_model.specs.MachineDestroy.{has_repeat as repeats, is_bad_destroy};
ghost use Rattle.b1_model.specs.Names.{is_own};
ghost use Rattle.b1_nodes.specs.Doom.{is_not_live_in, live_in, overflow_at, refusal_in};

use crate::table::NodeTable;
use b1_model::{CLOCK_LIMIT, MOST_DESTINATIONS, NodeState, Reason};

/// The first refusal of a destruction of the nodes with these own numbers; `None` where nothing refuses it.
pub fn refusal(nodes: &NodeTable, clock: u64, numbers: &[u64]) -> Option<Reason>
    ensures { result ≡ refusal_in nodes.now.nodes clock numbers.now }
{
    if is_bad(numbers) {
        return Some(Reason::Invalid);
    }
    if let Some(reason) = overflow(clock) {
        return Some(reason);
    }
    match first_not_live(nodes, numbers) {
        Some(number) => Some(Reason::Unknown { number }),
        None => None,
    }
}

/// The refusal of a stamp at a clock of `CLOCK_LIMIT` or more; `None` below it.
pub fn overflow(clock: u64) -> Option<Reason>
    ensures { result ≡ overflow_at clock }
{
    if clock >= CLOCK_LIMIT {
        Some(Reason::Overflow { clock })
    } else {
        None
    }
}

/// Whether there are no numbers or more than `MOST_DESTINATIONS`, one that isn't an own number, or one that stands twice.
fn is_bad(numbers: &[u64]) -> bool
    ensures { result ≡ is_bad_destroy numbers.now }
{
    numbers.is_empty()
        || numbers.len() > MOST_DESTINATIONS
        || has_given(numbers)
        || has_repeat(numbers)
}

/// Whether one of the numbers isn't an own number.
fn has_given(numbers: &[u64]) -> bool
    ensures { result ≡ list_any (λ n. not (is_own n)) numbers.now }
{
    numbers.iter().any(|n| *n % 4 != 0)
}

/// Whether a number stands twice.
fn has_repeat(numbers: &[u64]) -> bool
    ensures { result ≡ repeats numbers.now }
{
    let mut left = numbers;
    while let [number, rest @ ..] = left {
        if has_number(rest, *number) {
            return true;
        }
        left = rest;
    }
    false
}

/// Whether a number is among others.
fn has_number(numbers: &[u64], number: u64) -> bool
    ensures { result ≡ list_any (λ m. m == number) numbers.now }
{
    numbers.iter().any(|m| *m == number)
}

/// The first number that names no live node.
fn first_not_live(nodes: &NodeTable, numbers: &[u64]) -> Option<u64>
    ensures { result ≡ find (is_not_live_in nodes.now.nodes) numbers.now }
{
    let mut left = numbers;
    while let [number, rest @ ..] = left {
        if live_node(nodes, *number).is_none() {
            return Some(*number);
        }
        left = rest;
    }
    None
}

/// The serial of the live node with an own number; `None` where there is none.
pub fn live_node(nodes: &NodeTable, number: u64) -> Option<u32>
    ensures { result ≡ live_in nodes.now.nodes number }
{
    let serial = nodes.find(number)?;
    match nodes.state(serial) {
        NodeState::Live => Some(serial),
        _ => None,
    }
}
