ghost use Rattle.std.specs.Prelude.{◌≡◌, ℕ, ◌+◌, ◌<◌, ◌≤◌, List, [], drop, is_some, if◌then◌else◌, IsSome, OnOk, OnErr, slice_get};
ghost use Rattle.b1_model.specs.declared.naming.Key.{Key as QueueKey};
ghost use Rattle.b1_queue.specs.Queue.{IsQueue, IsNewItem, IsNewKey, key_of, restamped, with_entry, without};

use b1_model::Key;
use std::alloc::{AllocError, Global};

/// A queue of items, each under a key. An item is a number that the caller picks, as the place of an entry in a table.
///
/// Contracts see the list of keys and items in the order of the keys, and two numbers. `spare` is how many more entries
/// fit with no memory, and every item is below `room`.
pub trait QueueKind: Drop {
    ghost listed: { Self → List (QueueKey × ℕ) };

    ghost spare: { Self → ℕ };

    ghost room: { Self → ℕ };

    /// An empty queue with no spare and no room. It takes no memory.
    fn make(alloc: Global) -> Self
        ensures listed { listed result ≡ [] }
        ensures spare { spare result ≡ 0 }
        ensures room { room result ≡ 0 };

    /// Makes room for `n` more entries, of items below `items`. An error is want of memory, and leaves all as it was.
    fn reserve(&mut self, n: usize, items: usize) -> Result<(), AllocError>
        ensures listed { listed self.new ≡ listed self.old }
        ensures enough_spare { OnOk result (n ≤ spare self.new) }
        ensures enough_room { OnOk result (items ≤ room self.new) }
        ensures spare_kept { spare self.old ≤ spare self.new }
        ensures room_kept { room self.old ≤ room self.new }
        ensures err_spare { OnErr result (spare self.new ≡ spare self.old) }
        ensures err_room { OnErr result (room self.new ≡ room self.old) };

    /// Puts an item under a key.
    fn put(&mut self, key: Key, item: usize)
        requires spare { 0 < spare self.old }
        requires in_room { item < room self.old }
        requires new_key { IsNewKey key (listed self.old) }
        requires new_item { IsNewItem item (listed self.old) }
        ensures listed { listed self.new ≡ with_entry key item (listed self.old) }
        ensures spare { spare self.new + 1 ≡ spare self.old }
        ensures room { room self.new ≡ room self.old };

    /// Gives an item another key.
    fn restamp(&mut self, item: usize, new: Key)
        requires there { IsSome (key_of item (listed self.old)) }
        requires new_key { IsNewKey new (listed self.old) }
        ensures listed { listed self.new ≡ restamped item new (listed self.old) }
        ensures spare { spare self.new ≡ spare self.old }
        ensures room { room self.new ≡ room self.old };

    /// Removes an item, and answers its key; `None` where the item is not there.
    fn remove(&mut self, item: usize) -> Option<Key>
        ensures key { result ≡ key_of item (listed self.old) }
        ensures listed { listed self.new ≡ without item (listed self.old) }
        ensures spare { spare self.new ≡ spare self.old + (if is_some result then 1 else 0) }
        ensures room { room self.new ≡ room self.old };

    /// The key of an item; `None` where the item is not there.
    fn key(&self, item: usize) -> Option<Key>
        ensures { result ≡ key_of item (listed self.now) };

    /// The entry with the least key; `None` where the queue is empty.
    fn front(&self) -> Option<(Key, usize)>
        ensures { result ≡ slice_get (listed self.now) 0 };

    /// Removes the entry with the least key, and answers it; `None` where the queue is empty.
    fn take(&mut self) -> Option<(Key, usize)>
        ensures front { result ≡ slice_get (listed self.old) 0 }
        ensures listed { listed self.new ≡ drop 1 (listed self.old) }
        ensures spare { spare self.new ≡ spare self.old + (if is_some result then 1 else 0) }
        ensures room { room self.new ≡ room self.old };

    ghost in_order: { (q : Self) → IsQueue (room q) (listed q) };
}
