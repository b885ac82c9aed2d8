//! Every record is given up.

ghost use Rattle.std.specs.Prelude.{◌≡◌, ◌+◌, ◌++◌, [], ◌≤◌, length};
ghost use Rattle.b1_model.specs.MachineDestroy.{held_items};

use b1_handles::HandleTable;
use b1_peer_dead::DeadList;

/// Gives up every record. The held nodes come on the dead list, each as an item with how often it was held, by rising
/// numbers. There must be room for as many items as there are records, and as many buffers for one reference. The numbers
/// that were given stay counted.
pub fn give_up_all(handles: &mut HandleTable, dead: &mut DeadList)
    requires room { length handles.old.records ≤ dead.old.room }
    requires singles { length handles.old.records ≤ dead.old.singles }
    ensures handles { handles.new ≡ record handles.old { records = [] } }
    ensures items { dead.new.items ≡ dead.old.items
        ++ held_items handles.old.given handles.old.records }
    ensures room { dead.new.room + length dead.new.items ≡ dead.old.room + length dead.old.items }
    ensures lent { dead.new.lent ≡ dead.old.lent }
{
    while let Some((node, amount)) = handles.flush_next() {
        dead.add_held(node, amount);
    }
}
