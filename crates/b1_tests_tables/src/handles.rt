ghost use Rattle.std.specs.Prelude.{◌≡◌};

use b1_handles::{HandleTable, NoHandle};
use b1_model::NodeRef;
use std::test::Fail;

fn node(owner: u32, serial: u32) -> NodeRef
    ensures { result ≡ record { owner = owner; serial = serial } }
{
    NodeRef { owner, serial }
}

#[test]
fn no_number_is_given_twice(rt: HostRuntime) -> Result<(), Fail> {
    let mut handles = HandleTable::make(rt.alloc());
    assert_eq!(rt; handles.wire(node(1, 0))?, 2);
    assert_eq!(rt; handles.wire(node(0, 7))?, 6);
    assert_eq!(rt; handles.give_up(2), Ok(node(1, 0)));
    assert_eq!(rt; handles.give_up(2), Err(NoHandle));
    assert_eq!(rt; handles.wire(node(1, 0))?, 10);
    assert_eq!(rt; handles.node_of(6), Some(node(0, 7)));
    assert_eq!(rt; handles.number_of(node(1, 0)), Some(10));
    Ok(())
}

#[test]
fn carried_node_arrives(rt: HostRuntime) -> Result<(), Fail> {
    let mut handles = HandleTable::make(rt.alloc());
    assert_eq!(rt; handles.expect(node(0, 3))?, true);
    assert_eq!(rt; handles.expect(node(0, 3))?, false);
    assert_eq!(rt; handles.gain(node(0, 3)), 2);
    assert_eq!(rt; handles.is_held(node(0, 3)), true);
    handles.unexpect(node(0, 3));
    assert_eq!(rt; handles.give_up(2), Ok(node(0, 3)));
    assert_eq!(rt; handles.is_held(node(0, 3)), false);
    Ok(())
}
