use b1_model::{Drops, NodeRef, Slot};
use b1_peer_dead::{Buffers, DeadList};
use std::test::Fail;

fn node(serial: u32) -> NodeRef {
    NodeRef { owner: 1, serial }
}

// Whether an item has these references.
fn holds(item: Option<Drops>, expected: &[(NodeRef, u64)]) -> bool {
    match item {
        Some(drops) => drops.as_slice() == expected,
        None => false,
    }
}

#[test]
fn buffers_are_handed_out(rt: HostRuntime) -> Result<(), Fail> {
    let mut dead = DeadList::make(rt.alloc())?;
    dead.reserve(1)?;
    dead.reserve_set(3)?;
    dead.put_set(3, Buffers::make(rt.alloc(), 3)?);
    let Buffers { refs, numbers } = dead.take_set(3);
    assert!(rt; refs.is_empty() && refs.capacity() >= 3);
    assert!(rt; numbers.is_empty() && numbers.capacity() >= 3);
    Ok(())
}

// Only attached slots are references, and a message without any makes no item.
#[test]
fn references_are_reaped_in_order(rt: HostRuntime) -> Result<(), Fail> {
    let mut dead = DeadList::make(rt.alloc())?;
    dead.reserve(2)?;
    dead.reserve_set(2)?;
    dead.put_set(2, Buffers::make(rt.alloc(), 2)?);
    dead.add_references(&[node(7), node(8)], &[Slot::Own, Slot::Unattached]);
    assert!(rt; dead.is_empty());
    dead.reserve(2)?;
    dead.reserve_set(3)?;
    dead.put_set(3, Buffers::make(rt.alloc(), 3)?);
    dead.add_references(
        &[node(4), node(5), node(4)],
        &[Slot::Attached, Slot::Void, Slot::Attached],
    );
    dead.reserve(1)?;
    dead.reserve_singles(1)?;
    dead.add_held(node(9), 3);
    assert!(rt; !dead.is_empty());
    assert!(rt; holds(dead.reap(), &[(node(4), 1), (node(4), 1)]));
    assert!(rt; holds(dead.reap(), &[(node(9), 3)]));
    assert!(rt; dead.reap().is_none());
    Ok(())
}
