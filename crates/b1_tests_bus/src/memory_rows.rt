ghost use Rattle.std.specs.Prelude.{All, IfOk, OnOk};
ghost use Rattle.b1_port_memory.specs.Memory.{HasEvenStamp};

use crate::port_calls::{
    port_attempt, port_destroy, port_recv, port_release, port_reserve, port_send,
    port_slice_release,
};
use b1_edge::Port;
use b1_model::{Bytes, Front, Key, Nums, Reason, Receipt, SendCmd, Tried};
use b1_port_memory::MemPort;
use std::alloc::{AllocError, Global};
use std::test::Fail;

// A SEND of one byte to these numbers.
fn one_byte(alloc: Global, to: &[u64]) -> Result<SendCmd, AllocError> {
    Ok(SendCmd {
        go_on: false,
        to: Nums::from_slice(alloc, to)?,
        with: Nums::new(alloc),
        payload: Bytes::from_slice(alloc, &[0x61])?,
    })
}

// A message with stamp 6 of peer 1, to node 4.
fn message_six(alloc: Global) -> Result<Receipt, AllocError>
    ensures { IfOk result HasEvenStamp }
{
    Ok(Receipt::Message {
        key: Key {
            stamp: 6,
            origin: 1,
            index: 0,
        },
        number: 4,
        offset: 0,
        handles: Nums::new(alloc),
        payload: Bytes::from_slice(alloc, &[0x62])?,
    })
}

// A release notice with stamp 8.
fn released_eight() -> Receipt
    ensures { HasEvenStamp result }
{
    Receipt::Released {
        stamp: 8,
        number: 4,
    }
}

// Puts a receipt behind the others.
fn give(gives: &mut Vec<Receipt>, receipt: Receipt) -> Result<(), AllocError>
    requires all { All HasEvenStamp gives.old.items }
    requires this { HasEvenStamp receipt }
    ensures { OnOk result (All HasEvenStamp gives.new.items) }
{
    gives.push(receipt)?;
    Ok(())
}

// A port that gives a message with stamp 6 and a release notice with stamp 8, and refuses its second send.
fn six_and_eight(alloc: Global) -> Result<MemPort, AllocError> {
    let mut gives = Vec::new(alloc);
    give(&mut gives, message_six(alloc)?)?;
    give(&mut gives, released_eight())?;
    let fails = Vec::from_slice(alloc, &[1])?;
    Ok(MemPort::make(alloc, gives, fails))
}

#[test]
fn stamps_are_above_all_that_stands(rt: HostRuntime) -> Result<(), Fail> {
    let alloc = rt.alloc();
    let mut port = six_and_eight(alloc)?;
    assert!(rt; port_reserve(&mut port, 8).is_some());
    match port_send(&mut port, one_byte(alloc, &[2])?) {
        Some(Ok(sent)) => {
            assert_eq!(rt; sent.stamp, 2);
            assert_eq!(rt; sent.places.len(), 1);
        }
        _ => assert!(rt; false),
    }
    assert_eq!(rt; port_attempt(&mut port), Some(Tried::Got));
    match port_send(&mut port, one_byte(alloc, &[2])?) {
        Some(Err(refused)) => {
            assert!(rt; matches!(&refused.reason, Reason::Memory));
            assert!(rt; refused.place.is_none());
        }
        _ => assert!(rt; false),
    }
    match port_send(&mut port, one_byte(alloc, &[2])?) {
        Some(Ok(sent)) => assert_eq!(rt; sent.stamp, 8),
        _ => assert!(rt; false),
    }
    assert!(rt; matches!(port_recv(&mut port), Some(Ok(8))));
    let node = Nums::from_slice(alloc, &[4])?;
    assert!(rt; matches!(port_destroy(&mut port, node), Some(Ok(10))));
    assert_eq!(rt; port.calls().len(), 6);
    Ok(())
}

#[test]
fn nothing_is_left_to_give(rt: HostRuntime) -> Result<(), Fail> {
    let alloc = rt.alloc();
    let mut port = MemPort::make(alloc, Vec::new(alloc), Vec::new(alloc));
    assert!(rt; port_attempt(&mut port).is_none());
    assert!(rt; port_reserve(&mut port, 8).is_some());
    let waits = Tried::Waiting {
        front: Front::Absent,
        removed: 0,
    };
    assert_eq!(rt; port_attempt(&mut port), Some(waits));
    assert_eq!(rt; port.calls().len(), 0);
    let again = port_recv(&mut port);
    assert!(rt; matches!(again, Some(Err(Reason::Again(Front::Absent)))));
    assert!(rt; matches!(port_release(&mut port, 3), Some(Err(Reason::Invalid))));
    assert!(rt; matches!(port_release(&mut port, 2), Some(Ok(()))));
    assert!(rt; matches!(port_slice_release(&mut port, 8), Some(Ok(()))));
    match port_send(&mut port, one_byte(alloc, &[])?) {
        Some(Err(refused)) => assert!(rt; matches!(&refused.reason, Reason::Invalid)),
        _ => assert!(rt; false),
    }
    assert_eq!(rt; port.calls().len(), 5);
    assert_eq!(rt; port.spare(), 3);
    Ok(())
}
