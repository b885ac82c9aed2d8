ghost use Rattle.std.specs.Prelude.{◌≡◌};

use b1_handles::HandleTable;
use b1_model::NodeRef;
use b1_peer_carried::expect_all;
use std::test::Fail;

fn node(owner: u32, serial: u32) -> NodeRef
    ensures { result ≡ record { owner = owner; serial = serial } }
{
    NodeRef { owner, serial }
}

// Only other peers' nodes get a record.
#[test]
fn own_nodes_are_not_expected(rt: HostRuntime) -> Result<(), Fail> {
    let mut handles = HandleTable::make(rt.alloc());
    expect_all(&mut handles, 0, &[node(1, 0), node(0, 4), node(1, 0)])?;
    assert_eq!(rt; handles.expect(node(1, 0))?, false);
    assert_eq!(rt; handles.expect(node(0, 4))?, true);
    Ok(())
}
