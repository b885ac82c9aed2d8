use b1_model::{Limits, Opening, PeerSpec, Peers, Wire, Wires};
use std::alloc::{AllocError, Global};

// Limits that no test comes to.
pub const AMPLE: Limits = Limits {
    entries: 100_000,
    bytes: 4_000_000,
    handles: 1000,
};

// A peer of a user with ample limits.
pub fn ample(user: u32) -> PeerSpec {
    PeerSpec {
        user,
        pool: 65_536,
        limits: AMPLE,
    }
}

// A wire that gives node 4 of peer `from` to peer `to`.
pub fn wire(from: u32, to: u32) -> Wire {
    Wire {
        from,
        to,
        number: 4,
    }
}

// Four peers with these wires.
pub fn four_peers(alloc: Global, wires: &[Wire]) -> Result<Opening, AllocError> {
    Ok(Opening {
        first_clock: 0,
        peers: Peers::from_slice(alloc, &[ample(0), ample(1), ample(2), ample(3)])?,
        wires: Wires::from_slice(alloc, wires)?,
    })
}

// So many peers, and one more, whose node 4 they all hold as 2.
pub fn many_to_one(alloc: Global, senders: u32) -> Result<Opening, AllocError> {
    let mut peers = Vec::new(alloc);
    let mut wires = Vec::new(alloc);
    for p in 0..senders {
        peers.push(ample(p))?;
        wires.push(wire(senders, p))?;
    }
    peers.push(ample(senders))?;
    Ok(Opening {
        first_clock: 0,
        peers: Peers::from_vec(peers),
        wires: Wires::from_vec(wires),
    })
}
