//! Changes of one record in the map of them, by its node.

ghost use Rattle.std.specs.Prelude.{◌≡◌, ◌==◌, ◌<◌, ◌^◌, true, AllPairs, if◌then◌else◌, is_none, is_some, unwrap_or, IfOk, OnOk, OnErr};
ghost use Rattle.std.specs.Option.{option_copied};
ghost use Rattle.std.specs.BTreeMap.{values};
ghost use Rattle.b1_model.specs.MachineParts.{record_of, record_or_none, ref_before};
ghost use Rattle.b1_model.specs.MachineTables.{changed, changed_or_made, more_flight, less_flight, more_held, less_held, noticed, made_dead};
ghost use Rattle.b1_handles.specs.Handles.{needs_notice, without_node};
ghost use Rattle.b1_handles.specs.Records.{key_of as node_key, settled, IsKeyed};

use crate::handle::{Handle, Held};
use b1_model::NodeRef;
use std::alloc::AllocError;
use std::collections::BTreeMap;

/// A node's owner and serial.
fn key_of(node: NodeRef) -> (u32, u32)
    ensures { result ≡ node_key node }
{
    (node.owner, node.serial)
}

/// A node's record.
pub fn record_in(records: &BTreeMap<(u32, u32), Handle>, node: NodeRef) -> Option<&Handle>
    requires { IsKeyed records.now.entries }
    ensures { option_copied result ≡ record_of node (values records.now) }
{
    records.get(&key_of(node))
}

/// One more queued slot carries a node. Whether its record was made.
pub fn expect_in(
    records: &mut BTreeMap<(u32, u32), Handle>,
    node: NodeRef,
) -> Result<bool, AllocError>
    requires keyed { IsKeyed records.old.entries }
    requires ordered { AllPairs (λ a b. ref_before a.node b.node ≡ true) (values records.old) }
    ensures keyed { IsKeyed records.new.entries }
    ensures made { IfOk result (λ made. made ≡ is_none (record_of node (values records.old))) }
    ensures records { OnOk result (values records.new
        ≡ changed_or_made node more_flight (values records.old)) }
    ensures unchanged { OnErr result (values records.new ≡ values records.old) }
{
    if let Some(handle) = records.get_mut(&key_of(node)) {
        if handle.flight() == u64::MAX {
            return Err(AllocError);
        }
        handle.more_flight();
        return Ok(false);
    }
    let mut handle = Handle::new(node);
    handle.more_flight();
    records.insert(key_of(node), handle)?;
    Ok(true)
}

/// One fewer queued slot carries a node.
pub fn unexpect_in(records: &mut BTreeMap<(u32, u32), Handle>, node: NodeRef)
    requires keyed { IsKeyed records.old.entries }
    requires carried { 0 < (record_or_none node (values records.old)).flight }
    ensures keyed { IsKeyed records.new.entries }
    ensures records { values records.new ≡ changed node less_flight (values records.old) }
{
    if let Some(handle) = records.get_mut(&key_of(node)) {
        handle.less_flight();
        settle(records, node);
    }
}

/// A carried node arrives: it is held once more, under `next` where it wasn't held.
pub fn gain_in(records: &mut BTreeMap<(u32, u32), Handle>, node: NodeRef, next: u64) -> Held
    requires keyed { IsKeyed records.old.entries }
    requires carried { 0 < (record_or_none node (values records.old)).flight }
    requires fits { (record_or_none node (values records.old)).held < 2 ^ 63 }
    ensures number { result.number
        ≡ unwrap_or (record_or_none node (values records.old)).number next }
    ensures is_new { result.is_new ≡ ((record_or_none node (values records.old)).held == 0) }
    ensures keyed { IsKeyed records.new.entries }
    ensures records { values records.new
        ≡ changed node (λ h. more_held next (less_flight h)) (values records.old) }
{
    let Some(handle) = records.get_mut(&key_of(node)) else {
        unreachable!()
    };
    handle.gain(next)
}

/// A node is held once more, under `next` where it wasn't held.
pub fn wire_in(
    records: &mut BTreeMap<(u32, u32), Handle>,
    node: NodeRef,
    next: u64,
) -> Result<Held, AllocError>
    requires keyed { IsKeyed records.old.entries }
    requires ordered { AllPairs (λ a b. ref_before a.node b.node ≡ true) (values records.old) }
    requires fits { (record_or_none node (values records.old)).held < 2 ^ 63 }
    ensures keyed { IsKeyed records.new.entries }
    ensures number { IfOk result (λ held. held.number
        ≡ unwrap_or (record_or_none node (values records.old)).number next) }
    ensures is_new { IfOk result (λ held. held.is_new
        ≡ ((record_or_none node (values records.old)).held == 0)) }
    ensures records { OnOk result (values records.new
        ≡ changed_or_made node (more_held next) (values records.old)) }
    ensures unchanged { OnErr result (values records.new ≡ values records.old) }
{
    if let Some(handle) = records.get_mut(&key_of(node)) {
        return Ok(handle.hold(next));
    }
    let mut handle = Handle::new(node);
    let held = handle.hold(next);
    records.insert(key_of(node), handle)?;
    Ok(held)
}

/// A held node is held once less. Whether its number has ended.
pub fn release_in(records: &mut BTreeMap<(u32, u32), Handle>, node: NodeRef) -> bool
    requires keyed { IsKeyed records.old.entries }
    requires held { is_some (record_or_none node (values records.old)).number ≡ true }
    ensures ended { result ≡ ((record_or_none node (values records.old)).held == 1) }
    ensures keyed { IsKeyed records.new.entries }
    ensures records { values records.new ≡ changed node less_held (values records.old) }
{
    let Some(handle) = records.get_mut(&key_of(node)) else {
        unreachable!()
    };
    let ended = handle.held() == 1;
    handle.release();
    settle(records, node);
    ended
}

/// Counts a node's destroy notice as queued. Whether the node has a record and had no notice queued.
pub fn notify_in(records: &mut BTreeMap<(u32, u32), Handle>, node: NodeRef) -> bool
    requires keyed { IsKeyed records.old.entries }
    ensures needed { result ≡ needs_notice node (values records.old) }
    ensures keyed { IsKeyed records.new.entries }
    ensures records { values records.new ≡ (if result
        then changed node noticed (values records.old) else values records.old) }
{
    let Some(handle) = records.get_mut(&key_of(node)) else {
        return false;
    };
    if handle.has_notice() {
        return false;
    }
    handle.notify();
    true
}

/// A node's queued destroy notice has left the queue.
pub fn mark_dead_in(records: &mut BTreeMap<(u32, u32), Handle>, node: NodeRef)
    requires keyed { IsKeyed records.old.entries }
    ensures keyed { IsKeyed records.new.entries }
    ensures records { values records.new ≡ changed node made_dead (values records.old) }
{
    if let Some(handle) = records.get_mut(&key_of(node)) {
        handle.kill();
        settle(records, node);
    }
}

/// Removes a node's record, where it isn't needed any more.
fn settle(records: &mut BTreeMap<(u32, u32), Handle>, node: NodeRef)
    ensures { records.new.entries ≡ settled node records.old.entries }
{
    let is_needed = match records.get(&key_of(node)) {
        Some(handle) => handle.is_needed(),
        None => true,
    };
    if !is_needed {
        records.remove(&key_of(node));
    }
}

/// Removes a node's record.
pub fn drop_in(records: &mut BTreeMap<(u32, u32), Handle>, node: NodeRef) -> Option<Handle>
    requires keyed { IsKeyed records.old.entries }
    requires ordered { AllPairs (λ a b. ref_before a.node b.node ≡ true) (values records.old) }
    ensures keyed { IsKeyed records.new.entries }
    ensures record { result ≡ record_of node (values records.old) }
    ensures records { values records.new ≡ without_node node (values records.old) }
{
    records.remove(&key_of(node))
}
