use b1_model::{Limits, MOST_PEERS, Opening, PeerSpec, Peers, Wire, Wires};
use std::alloc::{AllocError, Global};

const PEER: PeerSpec = PeerSpec {
    user: 0,
    pool: 64,
    limits: Limits {
        entries: 4,
        bytes: 256,
        handles: 4,
    },
};

// One peer, without wires.
pub fn one_peer(alloc: Global) -> Result<Opening, AllocError> {
    Ok(Opening {
        first_clock: 0,
        peers: Peers::from_slice(alloc, &[PEER])?,
        wires: Wires::new(alloc),
    })
}

// Two peers, of which the first holds a node of the second.
pub fn two_peers(alloc: Global) -> Result<Opening, AllocError> {
    let wire = Wire {
        from: 1,
        to: 0,
        number: 4,
    };
    Ok(Opening {
        first_clock: 0,
        peers: Peers::from_slice(alloc, &[PEER, PEER])?,
        wires: Wires::from_slice(alloc, &[wire])?,
    })
}

// Two peers of different users with ample limits, of which the first holds a node of the second.
pub fn two_wired(alloc: Global) -> Result<Opening, AllocError> {
    Ok(Opening {
        first_clock: 0,
        peers: Peers::from_slice(alloc, &[ample(0), ample(1)])?,
        wires: Wires::from_slice(alloc, &[wire_from(1)])?,
    })
}

// A peer with ample limits.
fn ample(user: u32) -> PeerSpec {
    PeerSpec {
        user,
        pool: 4096,
        limits: Limits {
            entries: 1000,
            bytes: 100_000,
            handles: 1000,
        },
    }
}

// As many peers as a bus has, of eight users; the first peer holds a node of the last.
pub fn most_peers(alloc: Global) -> Result<Opening, AllocError> {
    let count = MOST_PEERS as u32;
    let mut peers = Vec::new(alloc);
    for peer in 0..count {
        peers.push(PeerSpec {
            user: peer % 8,
            pool: 8,
            limits: Limits {
                entries: 2,
                bytes: 16,
                handles: 0,
            },
        })?;
    }
    Ok(Opening {
        first_clock: 0,
        peers: Peers::from_vec(peers),
        wires: Wires::from_slice(alloc, &[wire_from(count - 1)])?,
    })
}

// The node 4 of a peer is held by peer 0.
fn wire_from(from: u32) -> Wire {
    Wire {
        from,
        to: 0,
        number: 4,
    }
}
