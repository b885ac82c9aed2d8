ghost use Rattle.std.specs.Prelude.{◌≡◌, ◌≤◌, [], vec_capacity};
ghost use Rattle.std.specs.Slots.{slots_items, slots_len, IsFull};

use atomic_table::Closed;
use std::alloc::Global;

/// The values of a closed table's slots, in their order, in a list that has room for them.
pub fn take_all<S>(mut closed: Closed<S, Global>, mut room: Vec<S>) -> Vec<S>
    requires full { IsFull closed.slots }
    requires empty { room.items ≡ [] }
    requires room { slots_len closed.slots ≤ vec_capacity room }
    ensures { result.items ≡ slots_items closed.slots }
{
    for slot in 0..closed.slot_count() {
        room.push_reserved(closed.take(slot));
    }
    closed.free();
    room
}
