ghost use Rattle.std.specs.Prelude.{◌≡◌, map, All, IfOk, OnOk};
ghost use Rattle.b1_model.specs.Opening.{IsOpening};
ghost use Rattle.b1_model.specs.MachineStep.{idle_drivers, opening_state, peers_before as parts_before, wire_counted, wire_held as with_wire_held, wired, with_part};
ghost use Rattle.b1_event.specs.Events.{HasUsers};
ghost use Rattle.b1_core.specs.Bus.{AreNew};
ghost use Rattle.b1_core.specs.Wiring.{CanGive, CanPass};

use b1_driver::DriverState;
use b1_law::every_reached_state_is_sound;
use b1_model::{NodeRef, Opening, Peers, Wire, Wires};
use b1_peer::PeerState;
use b1_pool::PoolKind;
use b1_queue::QueueKind;
use std::alloc::{AllocError, Global};

/// A copy of an opening. An error is want of memory.
pub fn copy_opening(alloc: Global, opening: &Opening) -> Result<Opening, AllocError>
    ensures { IfOk result (λ o. o ≡ opening.now) }
{
    Ok(Opening {
        first_clock: opening.first_clock,
        peers: Peers::from_slice(alloc, opening.peers.as_slice())?,
        wires: Wires::from_slice(alloc, opening.wires.as_slice())?,
    })
}

/// The peers of an opening, with what its wires give. An error is want of memory.
pub fn make_peers<Q: QueueKind, P: PoolKind>(
    alloc: Global,
    opening: &Opening,
) -> Result<Vec<PeerState<Q, P>>, AllocError>
    requires { IsOpening opening.now }
    ensures parts { IfOk result (λ v. map (λ x. x.part) v.items
        ≡ (opening_state opening.now).peers) }
    ensures users { IfOk result (λ v. All (HasUsers opening.now) (map (λ x. x.users) v.items)) }
{
    every_reached_state_is_sound();
    let mut peers = peers_before(alloc, opening)?;
    for wire in opening.wires.as_slice() {
        give(&mut peers, wire)?;
    }
    Ok(peers)
}

// The peers of an opening before any wire. An error is want of memory.
fn peers_before<Q: QueueKind, P: PoolKind>(
    alloc: Global,
    opening: &Opening,
) -> Result<Vec<PeerState<Q, P>>, AllocError>
    requires { IsOpening opening.now }
    ensures parts { IfOk result (λ v. map (λ x. x.part) v.items
        ≡ parts_before opening.now 0 opening.now.peers) }
    ensures users { IfOk result (λ v. All (HasUsers opening.now) (map (λ x. x.users) v.items)) }
{
    let count = opening.peers.len();
    let mut peers = Vec::with_capacity(alloc, count)?;
    for me in 0..count as u32 {
        peers.push(PeerState::make(alloc, me, opening)?)?;
    }
    Ok(peers)
}

// One wire gives what its number names at its giver. An error is want of memory.
fn give<Q: QueueKind, P: PoolKind>(
    peers: &mut Vec<PeerState<Q, P>>,
    wire: &Wire,
) -> Result<(), AllocError>
    requires { CanGive (map (λ x. x.part) peers.old.items) wire.now }
    ensures parts { OnOk result (map (λ x. x.part) peers.new.items
        ≡ wired (map (λ x. x.part) peers.old.items) wire.now) }
    ensures users { OnOk result (map (λ x. x.users) peers.new.items
        ≡ map (λ x. x.users) peers.old.items) }
{
    match peers[wire.from as usize].wire_name(wire.number)? {
        Some(node) => pass(peers, node, wire.to),
        None => Ok(()),
    }
}

// The owner of a node counts one more reference of another peer, which holds it once more. An error is want of memory.
fn pass<Q: QueueKind, P: PoolKind>(
    peers: &mut Vec<PeerState<Q, P>>,
    node: NodeRef,
    to: u32,
) -> Result<(), AllocError>
    requires { CanPass (map (λ x. x.part) peers.old.items) node to }
    ensures parts { OnOk result (map (λ x. x.part) peers.new.items
        ≡ with_part to (with_wire_held node) (with_part node.owner (wire_counted node to) (map (λ x.
        x.part) peers.old.items))) }
    ensures users { OnOk result (map (λ x. x.users) peers.new.items
        ≡ map (λ x. x.users) peers.old.items) }
{
    peers[node.owner as usize].wire_count(node.serial, to);
    peers[to as usize].wire_held(node)
}

/// The drivers of an opening, without calls, each with room for as many doomed nodes as its peer has. An error is want of
/// memory.
pub fn make_drivers(alloc: Global, opening: &Opening) -> Result<Vec<DriverState>, AllocError>
    requires { IsOpening opening.now }
    ensures parts { IfOk result (λ v. map (λ d. d.part) v.items
        ≡ idle_drivers 0 opening.now.peers) }
    ensures stock { IfOk result (λ v. AreNew (opening_state opening.now).peers v.items) }
{
    every_reached_state_is_sound();
    let count = opening.peers.len();
    let wires = opening.wires.len() as u32;
    let mut drivers = Vec::with_capacity(alloc, count)?;
    for me in 0..count as u32 {
        drivers.push(DriverState::make(alloc, me, wires)?)?;
    }
    Ok(drivers)
}
