use crate::calls::{reserve_at, send_at};
use crate::port_calls::{serve_at, try_port_at};
use crate::rows::{hi, two_plain};
use b1_bus::make;
use b1_model::{Front, Reason, Tried, valid_opening};
use std::test::Fail;

#[test]
fn a_port_receives(rt: HostRuntime) -> Result<(), Fail> {
    let alloc = rt.alloc();
    let opening = two_plain(alloc)?;
    assert!(rt; valid_opening(alloc, &opening)?);
    let (bus, mut drivers) = make(alloc, &opening)?;
    assert!(rt; reserve_at(&bus, &mut drivers, 0, 4).is_some());
    assert!(rt; send_at(&rt, alloc, &bus, &mut drivers, 0, hi(alloc)?).is_some());
    let tried = try_port_at(&rt, alloc, &bus, &mut drivers, 1);
    assert_eq!(rt; tried, Some((Tried::Got, 1, 0)));
    Ok(())
}

#[test]
fn a_port_that_waits_adds_no_call(rt: HostRuntime) -> Result<(), Fail> {
    let alloc = rt.alloc();
    let opening = two_plain(alloc)?;
    assert!(rt; valid_opening(alloc, &opening)?);
    let (bus, mut drivers) = make(alloc, &opening)?;
    let waits = Tried::Waiting {
        front: Front::Absent,
        removed: 0,
    };
    let tried = try_port_at(&rt, alloc, &bus, &mut drivers, 1);
    assert_eq!(rt; tried, Some((waits, 0, 0)));
    Ok(())
}

#[test]
fn a_port_serves(rt: HostRuntime) -> Result<(), Fail> {
    let alloc = rt.alloc();
    let opening = two_plain(alloc)?;
    assert!(rt; valid_opening(alloc, &opening)?);
    let (bus, mut drivers) = make(alloc, &opening)?;
    match serve_at(&rt, alloc, &bus, &mut drivers, 0, hi(alloc)?) {
        Some((calls, reason)) => {
            assert_eq!(rt; calls, 5);
            assert!(rt; matches!(&reason, Reason::Again(Front::Absent)));
        }
        None => assert!(rt; false),
    }
    Ok(())
}
