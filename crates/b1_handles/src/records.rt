//! The records, by their nodes.

ghost use Rattle.std.specs.Prelude.{◌≡◌, ◌==◌, ◌<◌, ◌^◌, [], AllPairs, if◌then◌else◌, is_none, is_some, unwrap_or, IfOk, OnOk, OnErr, true, length};
ghost use Rattle.std.specs.Option.{option_copied};
ghost use Rattle.b1_model.specs.MachineParts.{record_of, record_or_none, ref_before};
ghost use Rattle.b1_model.specs.MachineTables.{changed, changed_or_made, more_flight, less_flight, more_held, less_held, noticed, made_dead};
ghost use Rattle.b1_handles.specs.Handles.{needs_notice, without_node};

use crate::changes::{
    drop_in, expect_in, gain_in, mark_dead_in, notify_in, record_in, release_in, unexpect_in,
    wire_in,
};
use crate::handle::{Handle, Held};
use b1_model::NodeRef;
use std::alloc::{AllocError, Global};
use std::collections::BTreeMap;
use std::marker::Model;

/// The records in the order of their nodes. Each call takes a time of log n, for n records.
#[derive(Debug, Drop)]
pub struct Records {
    handles: BTreeMap<(u32, u32), Handle>,
}

impl Model for Records {
    ghost use Rattle.std.specs.Prelude.{List};
    ghost use Rattle.std.specs.Map.{values_of};
    ghost use Rattle.b1_model.specs.MachineParts.{HandleRecord};
    ghost use Rattle.b1_handles.specs.Records.{IsKeyed};

    ghost Value = { List HandleRecord };

    ghost view = { λ r. values_of r.handles.entries };

    ghost invariant = { λ r. IsKeyed r.handles.entries };
}

impl Records {
    /// No record. It takes no memory.
    pub fn make(alloc: Global) -> Records
        ensures { result ≡ [] }
    {
        Records {
            handles: BTreeMap::new(alloc),
        }
    }

    /// How many there are.
    pub fn len(&self) -> usize
        ensures { result ≡ length self.now }
    {
        self.handles.len()
    }

    /// A node's record.
    pub fn get(&self, node: NodeRef) -> Option<&Handle>
        ensures { option_copied result ≡ record_of node self.now }
    {
        record_in(&self.handles, node)
    }

    /// One more queued slot carries a node. Whether its record was made.
    pub fn expect(&mut self, node: NodeRef) -> Result<bool, AllocError>
        requires { AllPairs (λ a b. ref_before a.node b.node ≡ true) self.old }
        ensures made { IfOk result (λ made. made ≡ is_none (record_of node self.old)) }
        ensures records { OnOk result (self.new ≡ changed_or_made node more_flight self.old) }
        ensures unchanged { OnErr result (self.new ≡ self.old) }
    {
        expect_in(&mut self.handles, node)
    }

    /// One fewer queued slot carries a node.
    pub fn unexpect(&mut self, node: NodeRef)
        requires { 0 < (record_or_none node self.old).flight }
        ensures { self.new ≡ changed node less_flight self.old }
    {
        unexpect_in(&mut self.handles, node);
    }

    /// A carried node arrives: it is held once more, under `next` where it wasn't held.
    pub fn gain(&mut self, node: NodeRef, next: u64) -> Held
        requires carried { 0 < (record_or_none node self.old).flight }
        requires fits { (record_or_none node self.old).held < 2 ^ 63 }
        ensures number { result.number ≡ unwrap_or (record_or_none node self.old).number next }
        ensures is_new { result.is_new ≡ ((record_or_none node self.old).held == 0) }
        ensures records { self.new
            ≡ changed node (λ h. more_held next (less_flight h)) self.old }
    {
        gain_in(&mut self.handles, node, next)
    }

    /// A node is held once more, under `next` where it wasn't held.
    pub fn wire(&mut self, node: NodeRef, next: u64) -> Result<Held, AllocError>
        requires ordered { AllPairs (λ a b. ref_before a.node b.node ≡ true) self.old }
        requires fits { (record_or_none node self.old).held < 2 ^ 63 }
        ensures number { IfOk result (λ held. held.number
            ≡ unwrap_or (record_or_none node self.old).number next) }
        ensures is_new { IfOk result (λ held. held.is_new
            ≡ ((record_or_none node self.old).held == 0)) }
        ensures records { OnOk result (self.new
            ≡ changed_or_made node (more_held next) self.old) }
        ensures unchanged { OnErr result (self.new ≡ self.old) }
    {
        wire_in(&mut self.handles, node, next)
    }

    /// A held node is held once less. Whether its number has ended.
    pub fn release(&mut self, node: NodeRef) -> bool
        requires { is_some (record_or_none node self.old).number ≡ true }
        ensures ended { result ≡ ((record_or_none node self.old).held == 1) }
        ensures records { self.new ≡ changed node less_held self.old }
    {
        release_in(&mut self.handles, node)
    }

    /// Counts a node's destroy notice as queued. Whether the node has a record and had no notice queued.
    pub fn notify(&mut self, node: NodeRef) -> bool
        ensures needed { result ≡ needs_notice node self.old }
        ensures records { self.new ≡ (if result then changed node noticed self.old else self.old) }
    {
        notify_in(&mut self.handles, node)
    }

    /// A node's queued destroy notice has left the queue.
    pub fn mark_dead(&mut self, node: NodeRef)
        ensures { self.new ≡ changed node made_dead self.old }
    {
        mark_dead_in(&mut self.handles, node);
    }

    /// Removes a node's record.
    pub fn remove(&mut self, node: NodeRef) -> Option<Handle>
        requires { AllPairs (λ a b. ref_before a.node b.node ≡ true) self.old }
        ensures record { result ≡ record_of node self.old }
        ensures records { self.new ≡ without_node node self.old }
    {
        drop_in(&mut self.handles, node)
    }

    /// Removes all records.
    pub fn clear(&mut self)
        ensures { self.new ≡ [] }
    {
        self.handles.clear();
    }
}
