//! The first of the sends and destructions that goes to, or destroys, a node of each peer's epoch.

ghost use Rattle.std.specs.Prelude.{◌≡◌, ◌∷◌, [], length, IfOk, OnOk};
ghost use Rattle.b1_judge_facts.specs.Kept.{kept_at, kept_nodes};
ghost use Rattle.b1_judge_facts.specs.Epochs.{AreFirst, Notes, goes_to, is_kept_about};

use crate::message::Message;
use crate::node::NodeId;
use b1_model::{Items, Stamp};
use std::alloc::{AllocError, Global};
use std::collections::BTreeMap;

/// The place in the bus order of the first stamped call that goes to a node of a peer's epoch or destroys one, by peer
/// and epoch. An error is want of memory.
pub(crate) fn first_places(
    alloc: Global,
    stamps: &[Stamp],
    messages: &BTreeMap<(u64, u32), Message<'_>>,
    destroyed: &BTreeMap<(u64, u32), Items<Option<NodeId>>>,
) -> Result<BTreeMap<(u32, u64), usize>, AllocError>
    ensures { IfOk result (AreFirst (is_kept_about messages.now destroyed.now) stamps.now
        (length stamps.now)) }
{
    let mut places = BTreeMap::new(alloc);
    for place in 0..stamps.len() {
        let stamp = &stamps[place];
        note_all(&mut places, place, nodes_to(messages, stamp))?;
        note_all(
            &mut places,
            place,
            nodes_at(destroyed, stamp.stamp, stamp.origin),
        )?;
    }
    Ok(places)
}

/// The nodes to which the message of a stamped call goes; none where none is kept.
fn nodes_to<'m>(
    messages: &'m BTreeMap<(u64, u32), Message<'_>>,
    stamp: &Stamp,
) -> &'m [Option<NodeId>]
    ensures { result.now ≡ goes_to (kept_at messages.now stamp.now.stamp stamp.now.origin) }
{
    match messages.get(&(stamp.stamp, stamp.origin)) {
        Some(message) => message.to(),
        None => &[],
    }
}

/// The nodes of the destruction with a stamp of an origin; none where none is kept.
pub(crate) fn nodes_at(
    destroyed: &BTreeMap<(u64, u32), Items<Option<NodeId>>>,
    stamp: u64,
    origin: u32,
) -> &[Option<NodeId>]
    ensures { result.now ≡ kept_nodes (kept_at destroyed.now stamp origin) }
{
    match destroyed.get(&(stamp, origin)) {
        Some(nodes) => nodes.as_slice(),
        None => &[],
    }
}

/// Notes a place for those epochs of nodes that have none. An error is want of memory.
fn note_all(
    places: &mut BTreeMap<(u32, u64), usize>,
    place: usize,
    nodes: &[Option<NodeId>],
) -> Result<(), AllocError>
    ensures { OnOk result (Notes place nodes.now places.old places.new) }
{
    for node in nodes {
        note(places, place, *node)?;
    }
    Ok(())
}

/// Notes a place for the epoch of a node, if that has none.
fn note(
    places: &mut BTreeMap<(u32, u64), usize>,
    place: usize,
    node: Option<NodeId>,
) -> Result<(), AllocError>
    ensures { OnOk result (Notes place (node ∷ []) places.old places.new) }
{
    let Some(node) = node else {
        return Ok(());
    };
    let epoch = (node.owner, node.epoch);
    if places.contains_key(&epoch) {
        return Ok(());
    }
    places.insert(epoch, place)?;
    Ok(())
}
