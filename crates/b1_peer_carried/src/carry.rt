//! Queued messages that carry nodes come in and leave.

ghost use Rattle.std.specs.Prelude.{◌≡◌, ◌==◌, OnOk, OnErr};
ghost use Rattle.b1_model.specs.MachineTables.{expected, unexpected, foreign};
ghost use Rattle.b1_peer_carried.specs.Carry.{AreCarried, AreNeeded};

use b1_handles::HandleTable;
use b1_model::NodeRef;
use std::alloc::AllocError;

/// Counts one more queued slot for each node of a list that another peer than `me` owns. Each record must be needed. An
/// error is want of memory, and leaves all as it was.
pub fn expect_all(handles: &mut HandleTable, me: u32, nodes: &[NodeRef]) -> Result<(), AllocError>
    requires { AreNeeded handles.old.records }
    ensures expected { OnOk result (handles.new
        ≡ record handles.old { records = expected (foreign me nodes.now) handles.old.records }) }
    ensures unchanged { OnErr result (handles.new ≡ handles.old) }
    ensures needed { AreNeeded handles.new.records }
{
    let [node, rest @ ..] = nodes else {
        return Ok(());
    };
    if node.owner == me {
        return expect_all(handles, me, rest);
    }
    handles.expect(*node)?;
    if expect_all(handles, me, rest).is_err() {
        handles.unexpect(*node);
        return Err(AllocError);
    }
    Ok(())
}

/// Counts one fewer queued slot for each node of a list that another peer than `me` owns. At least as many slots must carry
/// each of them as it stands in the list. Records that aren't needed any more go.
pub fn unexpect_all(handles: &mut HandleTable, me: u32, nodes: &[NodeRef])
    requires { AreCarried (foreign me nodes.now) handles.old.records }
    ensures { handles.new ≡ record handles.old {
      records = unexpected
          (foreign me nodes.now) handles.old.records;
    } }
{
    let mut left = nodes;
    while let [node, rest @ ..] = left {
        if node.owner != me {
            handles.unexpect(*node);
        }
        left = rest;
    }
}
