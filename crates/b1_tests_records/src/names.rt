use b1_model::{
    Answer, Call, Calls, Command, Limits, Nums, Opening, PeerCalls, PeerLists, PeerSet, PeerSpec,
    Peers, Reason, Record, Wire, Wires, errno, order_of, valid_opening,
};
use std::alloc::{AllocError, Global};
use std::test::Fail;

#[test]
fn error_numbers(rt: HostRuntime) -> Result<(), Fail> {
    assert_eq!(rt; errno(&Reason::Memory), 12);
    assert_eq!(rt; errno(&Reason::Shutdown), 108);
    Ok(())
}

/// Whether three peers with such a pool can begin at such a clock with these two wires.
fn is_valid(
    alloc: Global,
    first_clock: u64,
    pool: u32,
    wires: [Wire; 2],
) -> Result<bool, AllocError> {
    let limits = Limits {
        entries: 16,
        bytes: 4096,
        handles: 16,
    };
    let peer = PeerSpec {
        user: 0,
        pool,
        limits,
    };
    let opening = Opening {
        first_clock,
        peers: Peers::from_slice(alloc, &[peer; 3])?,
        wires: Wires::from_slice(alloc, &wires)?,
    };
    valid_opening(alloc, &opening)
}

/// A wire.
fn wire(from: u32, to: u32, number: u64) -> Wire {
    Wire { from, to, number }
}

#[test]
fn openings(rt: HostRuntime) -> Result<(), Fail> {
    let cases = [
        (0, 8, wire(1, 0, 4), wire(0, 2, 2), true),
        (1 << 62, 4_194_304, wire(1, 0, 4), wire(1, 0, 4), true),
        (1, 8, wire(1, 0, 4), wire(0, 2, 2), false),
        ((1 << 62) + 2, 8, wire(1, 0, 4), wire(0, 2, 2), false),
        (0, 12, wire(1, 0, 4), wire(0, 2, 2), false),
        (0, 4_194_312, wire(1, 0, 4), wire(0, 2, 2), false),
        (0, 8, wire(1, 1, 4), wire(0, 2, 4), false),
        (0, 8, wire(1, 3, 4), wire(0, 2, 4), false),
        (0, 8, wire(1, 0, 4), wire(0, 1, 2), false),
        (0, 8, wire(1, 0, 4), wire(0, 2, 6), false),
        (0, 8, wire(1, 0, 5), wire(0, 2, 2), false),
    ];
    for (clock, pool, first, second, valid) in cases {
        assert_eq!(rt; is_valid(rt.alloc(), clock, pool, [first, second])?, valid);
    }
    Ok(())
}

// A bus of as many peers as a bus can have, or of one more, each with such a pool.
fn is_crowd_valid(alloc: Global, peers: usize, pool: u32) -> Result<bool, AllocError> {
    let limits = Limits {
        entries: 2,
        bytes: 16,
        handles: 0,
    };
    let mut specs = Vec::new(alloc);
    for _ in 0..peers {
        specs.push(PeerSpec {
            user: 0,
            pool,
            limits,
        })?;
    }
    let opening = Opening {
        first_clock: 0,
        peers: Peers::from_vec(specs),
        wires: Wires::new(alloc),
    };
    valid_opening(alloc, &opening)
}

#[test]
fn crowds(rt: HostRuntime) -> Result<(), Fail> {
    let cases = [
        (0, 8, false),
        (64, 4_194_304, true),
        (65, 4_194_304, false),
        (1024, 262_144, true),
        (1024, 262_152, false),
        (1025, 8, false),
    ];
    for (peers, pool, valid) in cases {
        assert_eq!(rt; is_crowd_valid(rt.alloc(), peers, pool)?, valid);
    }
    Ok(())
}

// A peer that is there stays, and the least comes out first.
#[test]
fn peers_in_rising_order(rt: HostRuntime) -> Result<(), Fail> {
    let mut peers = PeerSet::new();
    peers.insert(5);
    peers.insert(1023);
    peers.insert(63);
    peers.insert(0);
    peers.insert(5);
    assert_eq!(rt; peers.len(), 4);
    for (index, peer) in [0, 5, 63, 1023].iter().enumerate() {
        assert_eq!(rt; peers.get(index), Some(*peer));
    }
    assert_eq!(rt; peers.get(4), None);
    assert_eq!(rt; peers.take_first(), Some(0));
    assert_eq!(rt; peers.first(), Some(5));
    assert!(rt; peers.contains(63));
    assert!(rt; !peers.contains(0));
    Ok(())
}

fn destroyer(alloc: Global, stamp: u64) -> Result<PeerCalls, AllocError> {
    let call = Call {
        command: Command::Destroy {
            numbers: Nums::new(alloc),
        },
        answer: Answer::Destroyed { stamp },
    };
    Ok(PeerCalls {
        epoch: 0,
        clock: 0,
        calls: Calls::from_vec(vec![in alloc; call]?),
    })
}

#[test]
fn the_lower_stamp_comes_first(rt: HostRuntime) -> Result<(), Fail> {
    let alloc = rt.alloc();
    let peers = vec![in alloc; destroyer(alloc, 4)?, destroyer(alloc, 2)?]?;
    let record = Record {
        peers: PeerLists::from_vec(peers),
    };
    let order = order_of(alloc, &record)?;
    assert_eq!(rt; order.get(0).map(|s| s.origin), Some(1));
    assert_eq!(rt; order.get(1).map(|s| s.stamp), Some(4));
    assert_eq!(rt; order.len(), 2);
    Ok(())
}
