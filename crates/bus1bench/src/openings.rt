use b1_model::{Limits, Opening, PeerSpec, Peers, Wire, Wires};
use std::alloc::{AllocError, Global};

// A peer with more room than a sender is ahead of it.
fn ample(user: u32) -> PeerSpec {
    PeerSpec {
        user,
        pool: 65_536,
        limits: Limits {
            entries: 4_000_000_000,
            bytes: 4_000_000_000,
            handles: 16,
        },
    }
}

// So many peers, each of a user of its own.
fn peers(alloc: Global, count: u32) -> Result<Peers, AllocError> {
    let mut peers = Vec::new(alloc);
    for user in 0..count {
        peers.push(ample(user))?;
    }
    Ok(Peers::from_vec(peers))
}

// The node 4 of a peer goes to another.
fn wire(from: u32, to: u32) -> Wire {
    Wire {
        from,
        to,
        number: 4,
    }
}

/// So many peers, of which the first ones are pairs: in each pair the first holds the second's node, as 2.
pub fn pairs(alloc: Global, count: u32, pairs: u8) -> Result<Opening, AllocError> {
    let mut wires = Vec::new(alloc);
    for pair in 0..pairs {
        wires.push(wire(2 * pair as u32 + 1, 2 * pair as u32))?;
    }
    Ok(Opening {
        first_clock: 0,
        peers: peers(alloc, count)?,
        wires: Wires::from_vec(wires),
    })
}

/// One peer, which holds a node of each of so many others, as 2, 6, 10 and so on.
pub fn star(alloc: Global, others: u8) -> Result<Opening, AllocError> {
    let mut wires = Vec::new(alloc);
    for other in 0..others {
        wires.push(wire(other as u32 + 1, 0))?;
    }
    Ok(Opening {
        first_clock: 0,
        peers: peers(alloc, others as u32 + 1)?,
        wires: Wires::from_vec(wires),
    })
}
