ghost use Rattle.std.specs.Prelude.{◌≡◌, ◌++◌, ◌<◌, map, IfOk, OnOk};
ghost use Rattle.b1_gen.specs.Generated.{below, peer_spec, opening_of, wires_of};

use crate::numbers::{MOST_BYTES, MOST_ENTRIES, MOST_HANDLES, NODE, POOL};
use b1_model::{Limits, Opening, PeerSpec, Peers, Wire, Wires};
use std::alloc::{AllocError, Global};

fn peer(user: u32) -> PeerSpec
    ensures { result ≡ peer_spec user }
{
    PeerSpec {
        user,
        pool: POOL,
        limits: Limits {
            entries: MOST_ENTRIES,
            bytes: MOST_BYTES,
            handles: MOST_HANDLES,
        },
    }
}

#[tactic(auto, using(crate::proofs::Rising::rising))]
fn peers(alloc: Global, count: u32) -> Result<Peers, AllocError>
    ensures { IfOk result (λ peers. peers ≡ map peer_spec (below count)) }
{
    let mut peers = Vec::new(alloc);
    for user in 0..count {
        peers.push(peer(user))?;
    }
    Ok(Peers::from_vec(peers))
}

/// Gives each other peer a handle of this peer's node.
#[tactic(auto, using(crate::proofs::Rising::rising))]
fn wire_from(wires: &mut Vec<Wire>, from: u32, count: u32) -> Result<(), AllocError>
    ensures { OnOk result (wires.new.items ≡ wires.old.items ++ wires_of count from) }
{
    for to in 0..count {
        if to != from {
            wires.push(Wire {
                from,
                to,
                number: NODE,
            })?;
        }
    }
    Ok(())
}

#[tactic(auto, using(crate::proofs::Rising::rising))]
fn wires(alloc: Global, count: u32) -> Result<Wires, AllocError>
    ensures { IfOk result (λ wires. wires ≡ (opening_of count).wires) }
{
    let mut wires = Vec::new(alloc);
    for from in 0..count {
        wire_from(&mut wires, from, count)?;
    }
    Ok(Wires::from_vec(wires))
}

/// So many peers, each of which holds the nodes of all others. An error is want of memory.
pub fn opening(alloc: Global, count: u32) -> Result<Opening, AllocError>
    ensures { IfOk result (λ opening. opening ≡ opening_of count) }
{
    Ok(Opening {
        first_clock: 0,
        peers: peers(alloc, count)?,
        wires: wires(alloc, count)?,
    })
}
