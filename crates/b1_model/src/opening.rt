//! The test of an opening.

ghost use Rattle.std.specs.Prelude.{◌≡◌, ◌↔◌, ◌≤◌, [], length, IsTrue, IfOk};
ghost use Rattle.std.specs.List.{AllByRecursion};
ghost use Rattle.b1_model.specs.Opening.{CanWire, AreWired, HasPool, IsPool, IsOpening, pool_bytes};

use crate::held::Held;
use crate::limits::{CLOCK_LIMIT, MOST_PEERS, MOST_POOL, MOST_POOLS, WIRE_LIMIT};
use crate::naming::{Opening, PeerSpec, Wire};
use std::alloc::{AllocError, Global};

/// A size that a pool can have.
fn is_pool(size: u32) -> bool
    ensures { IsTrue result ↔ IsPool size }
{
    size % 8 == 0 && 8 <= size && size <= MOST_POOL
}

/// Whether each peer's pool has a size that it can have.
fn have_pools(peers: &[PeerSpec]) -> bool
    ensures { IsTrue result ↔ AllByRecursion HasPool peers.now }
{
    for peer in peers {
        if !is_pool(peer.pool) {
            return false;
        }
    }
    true
}

/// The bytes of all pools.
fn pool_sum(peers: &[PeerSpec]) -> u64
    requires few { length peers.now ≤ MOST_PEERS }
    ensures { result ≡ pool_bytes peers.now }
{
    peers.iter().map(|peer| u64::from(peer.pool)).sum()
}

/// Whether a wire can be made where so much is held.
fn can_wire(held: &Held, peers: usize, wire: &Wire) -> bool
    ensures { IsTrue result ↔ CanWire peers held.now wire.now }
{
    let apart = wire.to != wire.from;
    let among = (wire.from as usize) < peers && (wire.to as usize) < peers;
    match held.from_owner(wire) {
        Some(given) => among && apart && given.from != wire.to,
        None => false,
    }
}

/// Whether each wire can be made after those before it.
fn are_wired(alloc: Global, peers: usize, wires: &[Wire]) -> Result<bool, AllocError>
    ensures { IfOk result (λ can. IsTrue can ↔ AreWired peers [] wires.now) }
{
    let mut held = Held::new(alloc);
    for wire in wires {
        if !can_wire(&held, peers, wire) {
            return Ok(false);
        }
        held.add(wire)?;
    }
    Ok(true)
}

/// Whether a bus can begin so: 1 to `MOST_PEERS` peers, an even first clock of at most `CLOCK_LIMIT`, pools of a multiple
/// of 8 from 8 to `MOST_POOL` bytes, at most `MOST_POOLS` together, and fewer than `WIRE_LIMIT` wires, each of which leads
/// to another peer and gives it a node that it doesn't own. An error is want of memory. `docs/FORMATS.md` tells the rule
/// of the wiring.
pub fn valid_opening(alloc: Global, opening: &Opening) -> Result<bool, AllocError>
    ensures { IfOk result (λ valid. IsTrue valid ↔ IsOpening opening.now) }
{
    let count = opening.peers.len();
    let counted = 1 <= count && count <= MOST_PEERS && opening.wires.len() < WIRE_LIMIT;
    let clock = opening.first_clock % 2 == 0 && opening.first_clock <= CLOCK_LIMIT;
    if !counted || !clock || !have_pools(opening.peers.as_slice()) {
        return Ok(false);
    }
    if pool_sum(opening.peers.as_slice()) > MOST_POOLS {
        return Ok(false);
    }
    are_wired(alloc, count, opening.wires.as_slice())
}
