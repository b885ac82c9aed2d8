//! The nodes that a begun SEND makes, and the room that it takes before.

ghost use Rattle.std.specs.Prelude.{◌≡◌, ◌+◌, ◌≤◌, ◌<◌, ◌^◌, find, length, OnOk};
ghost use Rattle.std.specs.List.{list_any};
ghost use Rattle.b1_model.specs.MachineParts.{is_odd};
ghost use Rattle.b1_peer.specs.Begin.{MoreNodes, EnoughNodes, one_made, all_made, own_reason, held_reason};
ghost use Rattle.b1_step.specs.Ordered.{Rising};
ghost use Rattle.b1_model.specs.MachineTables.{is_number, serial_of};

use b1_handles::HandleTable;
use b1_model::{NodeState, Reason};
use b1_nodes::NodeTable;
use b1_peer_queue::Mailbox;
use b1_queue::QueueKind;
use std::alloc::AllocError;

/// Whether one of the numbers has bit 0 set.
pub fn has_odd(numbers: &[u64]) -> bool
    ensures { result ≡ list_any is_odd numbers.now }
{
    numbers.iter().any(|n| *n % 2 == 1)
}

/// The refusal of a carried own number, whose node is destroyed.
pub fn own_dead(nodes: &NodeTable, me: u32, number: u64) -> Option<Reason>
    ensures { result ≡ own_reason me (serial_of number nodes.now.nodes) nodes.now.nodes }
{
    let serial = nodes.find(number)?;
    match nodes.state(serial) {
        NodeState::Destroyed { .. } => Some(Reason::Gone { owner: me, serial }),
        _ => None,
    }
}

/// The refusal of a carried given number, whose node's destroy notice was taken.
pub fn held_dead(handles: &HandleTable, number: u64) -> Option<Reason>
    requires { Rising handles.now.records }
    ensures { result ≡ held_reason (find (is_number number) handles.now.records) }
{
    let node = handles.node_of(number)?;
    if handles.is_dead(node) {
        Some(Reason::Gone {
            owner: node.owner,
            serial: node.serial,
        })
    } else {
        None
    }
}

/// Makes room for `n` more nodes, and for their notices. An error is want of memory; only room may have been gained then.
pub fn room_for_nodes<Q: QueueKind>(
    mail: &mut Mailbox<Q>,
    nodes: &mut NodeTable,
    handles: &HandleTable,
    n: usize,
) -> Result<(), AllocError>
    ensures more { MoreNodes mail.old mail.new nodes.old nodes.new }
    ensures enough { OnOk result (EnoughNodes n (length handles.now.records) mail.new nodes.new) }
{
    let made = nodes.len() as usize;
    let most = made.checked_add(n).ok_or(AllocError)?;
    let notices = most.checked_add(handles.len()).ok_or(AllocError)?;
    mail.reserve(notices)?;
    nodes.reserve(n)
}

/// Makes a node for each own number that names none yet, in their order.
pub fn make_all(nodes: &mut NodeTable, numbers: &[u64])
    requires spare { length numbers.now ≤ nodes.old.spare }
    requires few { length nodes.old.nodes + length numbers.now < 2 ^ 32 }
    ensures { nodes.new ≡ record nodes.old {
      nodes = all_made nodes.old.peers numbers.now nodes.old.nodes;
      spare = nodes.new.spare;
    } }
{
    let mut left = numbers;
    while let [number, rest @ ..] = left {
        make_one(nodes, *number);
        left = rest;
    }
}

/// Makes a node for a number, where it is an own one that names none yet.
fn make_one(nodes: &mut NodeTable, number: u64)
    requires spare { 1 ≤ nodes.old.spare }
    requires few { length nodes.old.nodes + 1 < 2 ^ 32 }
    ensures made { nodes.new
        ≡ record nodes.old {
          nodes = one_made nodes.old.peers number nodes.old.nodes;
          spare = nodes.new.spare;
        } }
    ensures spare { nodes.old.spare ≤ nodes.new.spare + 1 }
    ensures len { length nodes.new.nodes ≤ length nodes.old.nodes + 1 }
{
    if number % 4 == 0 && nodes.find(number).is_none() {
        nodes.create(number);
    }
}
