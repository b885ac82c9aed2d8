ghost use Rattle.std.specs.Prelude.{◌≡◌, ◌<◌, true, length, IfOk, IfSome};
ghost use Rattle.std.specs.Option.{option_copied};
ghost use Rattle.b1_rule.specs.Rule.{state_of};
ghost use Rattle.b1_model.specs.MachineOrder.{Stuck};
ghost use Rattle.b1_schedule.specs.Schedule.{waiting_peers};
ghost use Rattle.b1_run.specs.Standing.{EmptyAt, IsEmptied, NextIs, QuietAt, StandsAt};

use b1_bus::Closed;
use b1_model::{Command, CommandLists};
use std::alloc::{AllocError, Global};

/// Where a peer of a closed bus stands in its commands.
#[derive(Clone, Copy, Debug)]
enum Standing {
    /// They are at their end.
    Ended,
    /// At an AWAIT, with an empty queue, and it hasn't disconnected.
    Waiting,
    /// Elsewhere.
    Ready,
}

/// The command that peer p stands at; `None` where its commands are at their end.
fn next_of<'a>(lists: &'a CommandLists, closed: &Closed, p: u32) -> Option<&'a Command>
    requires { p < length closed.now.peers }
    ensures { NextIs lists.now (state_of closed.now.peers closed.now.drivers) p (option_copied result) }
{
    closed.facts();
    let list = lists.get(p as usize)?;
    list.get(closed.calls(p).len())
}

/// Whether peer p has disconnected, or its queue is empty.
fn is_quiet(closed: &Closed, p: u32) -> bool
    requires { p < length closed.now.peers }
    ensures { result ≡ true → QuietAt (state_of closed.now.peers closed.now.drivers) p }
{
    closed.facts();
    closed.is_shut(p) || closed.is_empty(p)
}

/// Whether peer p hasn't disconnected, and its queue is empty.
fn is_open_and_empty(closed: &Closed, p: u32) -> bool
    requires { p < length closed.now.peers }
    ensures { result ≡ true → EmptyAt (state_of closed.now.peers closed.now.drivers) p }
{
    closed.facts();
    !closed.is_shut(p) && closed.is_empty(p)
}

/// Where peer p stands.
fn standing_of(lists: &CommandLists, closed: &Closed, p: u32) -> Standing
    requires { p < length closed.now.peers }
    ensures { StandsAt lists.now (state_of closed.now.peers closed.now.drivers) p result }
{
    match next_of(lists, closed, p) {
        None => Standing::Ended,
        Some(Command::Await) if is_open_and_empty(closed, p) => Standing::Waiting,
        Some(_) => Standing::Ready,
    }
}

/// The peers whose commands aren't at their end, where they all wait and there is one; else none. An error is want of
/// memory.
pub fn stuck_peers(
    alloc: Global,
    lists: &CommandLists,
    closed: &Closed,
) -> Result<Option<Vec<u32>>, AllocError>
    ensures stuck { IfOk result (λ found. IfSome found (λ _. Stuck lists.now (state_of closed.now.peers closed.now.drivers))) }
    ensures waiting { IfOk result (λ found. IfSome found (λ waiting. waiting.items
        ≡ waiting_peers lists.now (state_of closed.now.peers closed.now.drivers))) }
{
    closed.facts();
    let mut waiting = Vec::new(alloc);
    for p in 0..closed.count() {
        match standing_of(lists, closed, p) {
            Standing::Ended => {}
            Standing::Waiting => waiting.push(p)?,
            Standing::Ready => return Ok(None),
        }
    }
    if waiting.is_empty() {
        return Ok(None);
    }
    Ok(Some(waiting))
}

/// Whether the queue of every peer that hasn't disconnected is empty.
pub fn is_drained(closed: &Closed) -> bool
    ensures { result ≡ true → IsEmptied (state_of closed.now.peers closed.now.drivers) }
{
    closed.facts();
    for p in 0..closed.count() {
        if !is_quiet(closed, p) {
            return false;
        }
    }
    true
}
