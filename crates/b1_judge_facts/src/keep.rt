//! Keeps messages and destructions under their stamp and origin, and the nodes that are destroyed.

ghost use Rattle.std.specs.Prelude.{◌≡◌, [], ◌∷◌, OnOk};
ghost use Rattle.std.specs.Option.{option_copied};
ghost use Rattle.b1_judge_facts.specs.Kept.{Keeps, Marks, Adds, kept_nodes, comes_before};

use crate::gone::Gone;
use crate::message::Message;
use crate::node::NodeId;
use b1_model::{Items, Key};
use std::alloc::AllocError;
use std::collections::BTreeMap;

/// Keeps a message, if there is one. An error is want of memory.
pub(crate) fn keep_message<'a>(
    messages: &mut BTreeMap<(u64, u32), Message<'a>>,
    stamp: u64,
    origin: u32,
    message: Option<Message<'a>>,
) -> Result<(), AllocError>
    ensures { OnOk result (Keeps stamp origin message.entry messages.old messages.new) }
{
    if let Some(message) = message {
        messages.insert((stamp, origin), message)?;
    }
    Ok(())
}

/// Keeps the nodes of a destruction, if there is one. An error is want of memory.
pub(crate) fn keep_nodes(
    destroyed: &mut BTreeMap<(u64, u32), Items<Option<NodeId>>>,
    stamp: u64,
    origin: u32,
    nodes: Option<Items<Option<NodeId>>>,
) -> Result<(), AllocError>
    ensures { OnOk result (Keeps stamp origin nodes destroyed.old destroyed.new) }
{
    if let Some(nodes) = nodes {
        destroyed.insert((stamp, origin), nodes)?;
    }
    Ok(())
}

/// The nodes of a destruction; none where there is none.
pub(crate) fn nodes_of(nodes: &Option<Items<Option<NodeId>>>) -> &[Option<NodeId>]
    ensures { result.now ≡ kept_nodes nodes.now }
{
    match nodes {
        Some(nodes) => nodes.as_slice(),
        None => &[],
    }
}

/// Keeps a destruction as the first of those of its nodes that had none. An error is want of memory.
pub(crate) fn mark_first(
    first: &mut BTreeMap<(u32, u64), (u64, u32)>,
    stamp: u64,
    origin: u32,
    nodes: &[Option<NodeId>],
) -> Result<(), AllocError>
    ensures { OnOk result (Marks stamp origin nodes.now first.old first.new) }
{
    for node in nodes {
        mark_one(first, stamp, origin, *node)?;
    }
    Ok(())
}

/// Keeps a destruction as the first of one of its nodes, if that had none.
fn mark_one(
    first: &mut BTreeMap<(u32, u64), (u64, u32)>,
    stamp: u64,
    origin: u32,
    node: Option<NodeId>,
) -> Result<(), AllocError>
    ensures { OnOk result (Marks stamp origin (node ∷ []) first.old first.new) }
{
    let Some(node) = node else {
        return Ok(());
    };
    let place = (node.owner, node.serial);
    if first.contains_key(&place) {
        return Ok(());
    }
    first.insert(place, (stamp, origin))?;
    Ok(())
}

/// Adds nodes to those that are gone. An error is want of memory.
pub(crate) fn mark_gone(gone: &mut Gone, nodes: &[Option<NodeId>]) -> Result<(), AllocError>
    ensures { OnOk result (Adds nodes.now gone.old gone.new) }
{
    for node in nodes {
        add_one(gone, *node)?;
    }
    Ok(())
}

/// Adds a node to those that are gone.
fn add_one(gone: &mut Gone, node: Option<NodeId>) -> Result<(), AllocError>
    ensures { OnOk result (Adds (node ∷ []) gone.old gone.new) }
{
    match node {
        Some(node) => gone.add(node),
        None => Ok(()),
    }
}

/// Whether a destruction, if there is one, is before the call of a key.
pub(crate) fn comes_before(destruction: Option<&(u64, u32)>, key: &Key) -> bool
    ensures { result ≡ comes_before (option_copied destruction.entry) key.now }
{
    match destruction {
        Some((stamp, origin)) => {
            *stamp < key.stamp || *stamp == key.stamp && *origin < key.origin
        }
        None => false,
    }
}
