ghost use Rattle.std.specs.Prelude.{◌≡◌, ◌+◌, ◌-◌, ◌/◌, ◌++◌, ◌∷◌, ◌<◌, ◌≤◌, slice_set, ◌^◌, [], false, true, length, nat_lt, if◌then◌else◌, is_none, IfOk, OnOk, OnErr, IfSome, IfNone, None, Some, MatchResult};
ghost use Rattle.b1_model.specs.MachineParts.{record_of, record_or_none};
ghost use Rattle.b1_model.specs.MachineTables.{changed, changed_or_made, more_flight, less_flight, less_held, noticed, made_dead, held_node};
ghost use Rattle.b1_model.specs.MachineDestroy.{held_items};
ghost use Rattle.b1_handles.specs.Handles.{flushed_item, gained, needs_notice, number_for, wired, without_node};
ghost use Rattle.b1_handles.specs.Numbers.{node_under};

use crate::handle::Held;
use crate::numbers::Numbers;
use crate::records::Records;
use b1_model::NodeRef;
use std::alloc::{AllocError, Global};
use std::marker::Model;

/// No node is held under the number.
#[derive(Clone, Copy, Debug, PartialEq, Eq)]
pub struct NoHandle;

/// A peer's records of other peers' nodes, in the order of the nodes, and how many numbers were given to them.
///
/// A node has a record while it is held, while a queued entry carries it, and while its destroy notice is queued. A number
/// is given when a node that isn't held becomes held, and ends when it is given up for the last time: the first is 2, each
/// later one is 4 more than the one before, and none is given twice.
///
/// Each call takes a time of log n, for n records, but a flush, which also goes once over the numbers given since the
/// oldest that hasn't ended. A queued slot that carries a node has a place reserved for a number.
#[derive(Debug, Drop)]
pub struct HandleTable {
    records: Records,
    numbers: Numbers,
    flights: usize,
}

impl Model for HandleTable {
    ghost use Rattle.std.specs.Prelude.{length};
    ghost use Rattle.b1_handles.specs.Handles.{Handles};
    ghost use Rattle.b1_handles.specs.Kept.{IsKept};

    ghost Value = { Handles };

    ghost view = { λ t. record { records = t.records; given = length t.numbers.names } };

    ghost invariant = { λ t. IsKept t.records t.numbers.names t.flights t.numbers.spare };
}

impl HandleTable {
    /// A table with no record, which has given no number. It takes no memory.
    pub fn make(alloc: Global) -> HandleTable
        ensures { result ≡ record { records = []; given = 0 } }
    {
        HandleTable {
            records: Records::make(alloc),
            numbers: Numbers::make(alloc),
            flights: 0,
        }
    }

    /// How many records there are.
    pub fn len(&self) -> usize
        ensures { result ≡ length self.now.records }
    {
        self.records.len()
    }

    /// One more queued slot carries a node. The answer is whether its record was made. An error is want of memory, also
    /// where 2^64 - 1 slots carry the node, and leaves all as it was.
    pub fn expect(&mut self, node: NodeRef) -> Result<bool, AllocError>
        ensures made { IfOk result (λ made. made ≡ is_none (record_of node self.old.records)) }
        ensures expected { OnOk result (self.new
            ≡ record self.old { records = changed_or_made node more_flight self.old.records }) }
        ensures unchanged { OnErr result (self.new ≡ self.old) }
    {
        let flights = reserve_one(&mut self.numbers, self.flights)?;
        let made = self.records.expect(node)?;
        self.flights = flights;
        Ok(made)
    }

    /// One fewer queued slot carries a node. At least one must carry it. A record that isn't needed any more goes.
    pub fn unexpect(&mut self, node: NodeRef)
        requires { 0 < (record_or_none node self.old.records).flight }
        ensures { self.new
            ≡ record self.old { records = changed node less_flight self.old.records } }
    {
        self.records.unexpect(node);
        self.flights -= 1;
    }

    /// A carried node arrives: one slot fewer carries it, and it is held once more, under the next number where it wasn't
    /// held. The answer is its number. A slot must carry the node, it must not be dead, and it must be held less than 2^63
    /// times; fewer than 2^60 numbers may have been given.
    pub fn gain(&mut self, node: NodeRef) -> u64
        requires carried { 0 < (record_or_none node self.old.records).flight }
        requires not_dead { (record_or_none node self.old.records).dead ≡ false }
        requires fits { (record_or_none node self.old.records).held < 2 ^ 63 }
        requires few { self.old.given < 2 ^ 60 }
        ensures number { result ≡ number_for node self.old }
        ensures gained { self.new ≡ gained node self.old }
    {
        let held = self.records.gain(node, 2 + 4 * self.numbers.len());
        self.flights -= 1;
        count(&mut self.numbers, node, held)
    }

    /// A node is held once more without having been carried, under the next number where it wasn't held. The answer is its
    /// number. The node must not be dead, and must be held less than 2^63 times; fewer than 2^60 numbers may have been
    /// given. An error is want of memory, and leaves all as it was.
    pub fn wire(&mut self, node: NodeRef) -> Result<u64, AllocError>
        requires not_dead { (record_or_none node self.old.records).dead ≡ false }
        requires fits { (record_or_none node self.old.records).held < 2 ^ 63 }
        requires few { self.old.given < 2 ^ 60 }
        ensures number { IfOk result (λ number. number ≡ number_for node self.old) }
        ensures wired { OnOk result (self.new ≡ wired node self.old) }
        ensures unchanged { OnErr result (self.new ≡ self.old) }
    {
        reserve_one(&mut self.numbers, self.flights)?;
        let held = self.records.wire(node, 2 + 4 * self.numbers.len())?;
        Ok(count(&mut self.numbers, node, held))
    }

    /// A node is held once less; its number ends with the last, and a record that isn't needed any more goes. The answer is
    /// the node. An error is that no node is held under the number, and leaves all as it was.
    pub fn give_up(&mut self, number: u64) -> Result<NodeRef, NoHandle>
        ensures answer { MatchResult result (λ node. held_node number self.old.records
            ≡ Some node) (λ _. held_node number self.old.records ≡ None) }
        ensures given_up { IfOk result (λ node. self.new
            ≡ record self.old { records = changed node less_held self.old.records }) }
        ensures unchanged { OnErr result (self.new ≡ self.old) }
    {
        let Some(node) = node_in(&self.numbers, number) else {
            return Err(NoHandle);
        };
        let ended = self.records.release(node);
        end_if(&mut self.numbers, number, ended);
        Ok(node)
    }

    /// Counts a node's destroy notice as queued, where the node has a record and no notice of it is queued. The answer is
    /// whether that is so.
    pub fn notify(&mut self, node: NodeRef) -> bool
        ensures needed { result ≡ needs_notice node self.old.records }
        ensures notified { self.new ≡ record self.old {
          records = if result
              then changed node noticed self.old.records else self.old.records;
        } }
    {
        self.records.notify(node)
    }

    /// A node's queued destroy notice has left the queue: its record is dead, and goes where it isn't needed any more. A
    /// notice of it must be queued.
    pub fn mark_dead(&mut self, node: NodeRef)
        requires { (record_or_none node self.old.records).notice ≡ true }
        ensures { self.new ≡ record self.old { records = changed node made_dead self.old.records } }
    {
        self.records.mark_dead(node);
    }

    /// Whether a node has a record that is dead: its destroy notice has left the queue.
    pub fn is_dead(&self, node: NodeRef) -> bool
        ensures { result ≡ (record_or_none node self.now.records).dead }
    {
        match self.records.get(node) {
            Some(handle) => handle.is_dead(),
            None => false,
        }
    }

    /// Whether a node is held.
    pub fn is_held(&self, node: NodeRef) -> bool
        ensures { result ≡ nat_lt 0 (record_or_none node self.now.records).held }
    {
        match self.records.get(node) {
            Some(handle) => handle.held() > 0,
            None => false,
        }
    }

    /// The node that is held under a number; `None` where none is.
    pub fn node_of(&self, number: u64) -> Option<NodeRef>
        ensures { result ≡ held_node number self.now.records }
    {
        node_in(&self.numbers, number)
    }

    /// The number under which a node is held; `None` where it isn't.
    pub fn number_of(&self, node: NodeRef) -> Option<u64>
        ensures { result ≡ (record_or_none node self.now.records).number }
    {
        match self.records.get(node) {
            Some(handle) => handle.number(),
            None => None,
        }
    }

    /// Removes the record of the node that is held under the least number. The answer is the node, and how often it was
    /// held. Where no node is held it is `None`, and no record is left. The numbers that were given stay counted.
    pub fn flush_next(&mut self) -> Option<(NodeRef, u64)>
        ensures next { held_items self.old.given self.old.records ≡ flushed_item result
            ++ held_items self.new.given self.new.records }
        ensures removed { IfSome result (λ r. self.new
            ≡ record self.old { records = without_node r.0 self.old.records }) }
        ensures emptied { IfNone result (self.new ≡ record self.old { records = [] }) }
    {
        let Some(first) = self.numbers.end_first() else {
            self.records.clear();
            self.flights = 0;
            return None;
        };
        let Some(handle) = self.records.remove(first.node) else {
            unreachable!()
        };
        self.flights -= handle.flight() as usize;
        Some((first.node, handle.held()))
    }
}

/// Makes room for a number beside those of the queued slots that carry nodes, and answers for how many there is room then.
/// An error is want of memory, and leaves every number.
fn reserve_one(numbers: &mut Numbers, flights: usize) -> Result<usize, AllocError>
    ensures places { IfOk result (λ places. places ≡ flights + 1) }
    ensures room { OnOk result (flights + 1 ≤ numbers.new.spare) }
    ensures names { numbers.new.names ≡ numbers.old.names }
    ensures more { numbers.old.spare ≤ numbers.new.spare }
{
    if flights == usize::MAX {
        return Err(AllocError);
    }
    numbers.reserve(flights + 1)?;
    Ok(flights + 1)
}

/// Gives a number that is new to its node, and answers it.
fn count(numbers: &mut Numbers, node: NodeRef, held: Held) -> u64
    requires room { held.is_new ≡ true → 0 < numbers.old.spare }
    requires few { length numbers.old.names < 2 ^ 60 }
    ensures number { result ≡ held.number }
    ensures names { numbers.new.names ≡ (if held.is_new
        then numbers.old.names ++ Some node ∷ [] else numbers.old.names) }
    ensures spare { numbers.new.spare
        ≡ (if held.is_new then numbers.old.spare - 1 else numbers.old.spare) }
{
    if held.is_new {
        numbers.give(node);
    }
    held.number
}

/// Ends a number that was given up for the last time.
fn end_if(numbers: &mut Numbers, number: u64, ended: bool)
    ensures names { numbers.new.names ≡ (if ended
        then slice_set numbers.old.names (number / 4) None else numbers.old.names) }
    ensures spare { numbers.old.spare ≤ numbers.new.spare }
{
    if ended {
        numbers.end(number / 4);
    }
}

/// The node that is held under a number; `None` where none is.
fn node_in(numbers: &Numbers, number: u64) -> Option<NodeRef>
    ensures { result ≡ node_under number numbers.now.names }
{
    if number % 4 != 2 {
        return None;
    }
    numbers.get(number / 4)
}
