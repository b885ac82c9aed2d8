use crate::calls::{attempt_at, recv_at, reserve_at, send_at};
use b1_bus::{close, make};
use b1_model::{
    Answer, Bytes, Front, Limits, Nums, Opening, PeerSpec, Peers, Receipt, Record, SendCmd, Tried,
    Wire, Wires, valid_opening,
};
use std::alloc::{AllocError, Global};
use std::test::Fail;

// A plain peer.
fn plain(user: u32) -> PeerSpec {
    PeerSpec {
        user,
        pool: 4096,
        limits: Limits {
            entries: 16,
            bytes: 4096,
            handles: 16,
        },
    }
}

// Two plain peers, of which the first holds a node of the second, as 2.
pub(crate) fn two_plain(alloc: Global) -> Result<Opening, AllocError> {
    let wire = Wire {
        from: 1,
        to: 0,
        number: 4,
    };
    Ok(Opening {
        first_clock: 0,
        peers: Peers::from_slice(alloc, &[plain(0), plain(1)])?,
        wires: Wires::from_slice(alloc, &[wire])?,
    })
}

// A SEND of two bytes to 2.
pub(crate) fn hi(alloc: Global) -> Result<SendCmd, AllocError> {
    Ok(SendCmd {
        go_on: false,
        to: Nums::from_slice(alloc, &[2])?,
        with: Nums::new(alloc),
        payload: Bytes::from_slice(alloc, &[0x68, 0x69])?,
    })
}

// Peer 0 sent with stamp 2, and its place accepted; peer 1 received that message at offset 0; both clocks are 2.
fn is_one_message(record: &Record) -> bool {
    let peers = record.peers.as_slice();
    if peers.len() != 2 || peers[0].calls.len() != 1 || peers[1].calls.len() != 1 {
        return false;
    }
    let clocks = peers[0].clock == 2 && peers[1].clock == 2;
    let epochs = peers[0].epoch == 0 && peers[1].epoch == 0;
    clocks
        && epochs
        && is_sent(&peers[0].calls.as_slice()[0].answer)
        && is_got(&peers[1].calls.as_slice()[0].answer)
}

fn is_sent(answer: &Answer) -> bool {
    match answer {
        Answer::Sent(sent) => {
            let places = sent.places.as_slice();
            sent.stamp == 2 && places.len() == 1 && places[0].is_none()
        }
        _ => false,
    }
}

fn is_got(answer: &Answer) -> bool {
    match answer {
        Answer::Got(
            Receipt::Message {
                key,
                number,
                offset,
                handles,
                payload,
            },
        ) => {
            let bytes = payload.as_slice();
            key.stamp == 2
                && key.origin == 0
                && key.index == 0
                && *number == 4
                && *offset == 0
                && handles.len() == 0
                && bytes.len() == 2
                && bytes[0] == 0x68
                && bytes[1] == 0x69
        }
        _ => false,
    }
}

#[test]
fn bus_by_calls(rt: HostRuntime) -> Result<(), Fail> {
    let alloc = rt.alloc();
    let opening = two_plain(alloc)?;
    assert!(rt; valid_opening(alloc, &opening)?);
    let (bus, mut drivers) = make(alloc, &opening)?;
    assert!(rt; reserve_at(&bus, &mut drivers, 0, 4).is_some());
    assert!(rt; reserve_at(&bus, &mut drivers, 1, 4).is_some());
    match send_at(&rt, alloc, &bus, &mut drivers, 0, hi(alloc)?) {
        Some(Ok(sent)) => assert_eq!(rt; sent.stamp, 2),
        _ => assert!(rt; false),
    }
    assert_eq!(rt; recv_at(&rt, &bus, &mut drivers, 1), Some(true));
    let record = close(alloc, bus, drivers)?.finish();
    assert!(rt; is_one_message(&record));
    Ok(())
}

#[test]
fn attempt_before_a_send(rt: HostRuntime) -> Result<(), Fail> {
    let alloc = rt.alloc();
    let opening = two_plain(alloc)?;
    assert!(rt; valid_opening(alloc, &opening)?);
    let (bus, mut drivers) = make(alloc, &opening)?;
    assert!(rt; reserve_at(&bus, &mut drivers, 1, 4).is_some());
    let waits = Tried::Waiting {
        front: Front::Absent,
        removed: 0,
    };
    assert_eq!(rt; attempt_at(&rt, &bus, &mut drivers, 1), Some(waits));
    assert_eq!(rt; drivers.len(), 2);
    assert_eq!(rt; drivers[1].calls().len(), 0);
    assert_eq!(rt; drivers[1].spare(), 4);
    Ok(())
}

#[test]
fn close_and_reopen(rt: HostRuntime) -> Result<(), Fail> {
    let alloc = rt.alloc();
    let opening = two_plain(alloc)?;
    assert!(rt; valid_opening(alloc, &opening)?);
    let (bus, mut drivers) = make(alloc, &opening)?;
    assert!(rt; reserve_at(&bus, &mut drivers, 0, 4).is_some());
    assert!(rt; reserve_at(&bus, &mut drivers, 1, 4).is_some());
    assert!(rt; send_at(&rt, alloc, &bus, &mut drivers, 0, hi(alloc)?).is_some());
    let closed = close(alloc, bus, drivers)?;
    assert_eq!(rt; closed.count(), 2);
    assert!(rt; closed.is_empty(0));
    assert!(rt; !closed.is_empty(1));
    let (bus, mut drivers) = closed.reopen(alloc)?;
    assert_eq!(rt; recv_at(&rt, &bus, &mut drivers, 1), Some(true));
    let record = close(alloc, bus, drivers)?.finish();
    assert!(rt; is_one_message(&record));
    Ok(())
}
