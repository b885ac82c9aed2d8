ghost use Rattle.std.specs.Prelude.{◌≡◌, [], ℕ, ◌+◌, ◌*◌, ◌-◌, ◌<◌, ◌≤◌, drop, length, is_some, if◌then◌else◌, slice_get, vec_len, vec_capacity};
ghost use Rattle.std.proofs.Props.{props};
ghost use Rattle.b1_queue.specs.Queue.{IsNewItem, IsNewKey, IsQueue, with_entry};
ghost use Rattle.b1_heap.specs.Depth.{IsDepth};
ghost use Rattle.b1_heap.specs.Heap.{IsIndexedHeap, in_key_order};

use crate::cells::{add_cell, find_cell, remove_cell, restamp_cell, take_root};
use b1_cost::Steps;
use b1_model::Key;
use b1_queue::QueueKind;
use std::alloc::{AllocError, Global};
use std::marker::Brand;
use std::sync::ledger::{Blank, Ledger};

/// A queue as a binary heap, with the place of each item's cell beside it, in a list as long as the queue's room.
///
/// Only `reserve` takes memory.
#[derive(Debug, Drop)]
pub struct IndexedHeap {
    cells: Vec<(Key, usize)>,
    places: Vec<usize>,
    ghost in_heap: { IsIndexedHeap cells.items places.items } by { Prim.hlevel props },
    ghost in_order: { IsQueue (length places.items) (in_key_order cells.items) } by { Prim.hlevel props },
}

impl QueueKind for IndexedHeap {
    ghost listed = { λ q. in_key_order q.cells.items };

    ghost spare = { λ q. vec_capacity q.cells - vec_len q.cells };

    ghost room = { λ q. length q.places.items };

    fn make(alloc: Global) -> Self {
        IndexedHeap {
            cells: Vec::new(alloc),
            places: Vec::new(alloc),
        }
    }

    fn reserve(&mut self, n: usize, items: usize) -> Result<(), AllocError> {
        let room = self.places.len().max(items);
        self.places.reserve(room - self.places.len())?;
        self.cells.reserve(n)?;
        self.places.resize(room, 0)
    }

    fn put(&mut self, key: Key, item: usize) {
        put_uncounted::<Brand>(self, key, item, Blank::new(1));
    }

    fn restamp(&mut self, item: usize, new: Key) {
        let at = self.places[item];
        restamp_cell::<Brand>(&mut self.cells, &mut self.places, at, new, Blank::new(1));
    }

    fn remove(&mut self, item: usize) -> Option<Key> {
        let at = find_cell(&self.cells, &self.places, item)?;
        Some(remove_cell::<Brand>(&mut self.cells, &mut self.places, at, Blank::new(1)).0)
    }

    fn key(&self, item: usize) -> Option<Key> {
        let at = find_cell(&self.cells, &self.places, item)?;
        Some(self.cells[at].0)
    }

    fn front(&self) -> Option<(Key, usize)> {
        self.cells.first().copied()
    }

    fn take(&mut self) -> Option<(Key, usize)> {
        take_uncounted::<Brand>(self, Blank::new(1))
    }

    ghost in_order = { λ q. q.in_order };
}

impl IndexedHeap {
    /// Puts an item under a key, as `put` does. A step is one comparison of two keys: there are at most `depth` of them, where
    /// `2 ^ depth` is at most the number of items afterwards, and `depth` the greatest such number.
    pub fn put_counted<L: Ledger>(&mut self, key: Key, item: usize, steps: &mut Steps<L>)
        requires spare { 0 < ⟦<IndexedHeap as QueueKind>⟧.spare self.old }
        requires in_room { item < ⟦<IndexedHeap as QueueKind>⟧.room self.old }
        requires new_key { IsNewKey key (⟦<IndexedHeap as QueueKind>⟧.listed self.old) }
        requires new_item { IsNewItem item (⟦<IndexedHeap as QueueKind>⟧.listed self.old) }
        ensures listed { ⟦<IndexedHeap as QueueKind>⟧.listed self.new
            ≡ with_entry key item (⟦<IndexedHeap as QueueKind>⟧.listed self.old) }
        ensures spare { ⟦<IndexedHeap as QueueKind>⟧.spare self.new + 1
            ≡ ⟦<IndexedHeap as QueueKind>⟧.spare self.old }
        ensures room { ⟦<IndexedHeap as QueueKind>⟧.room self.new
            ≡ ⟦<IndexedHeap as QueueKind>⟧.room self.old }
        ensures counted { steps.old ≤ steps.new }
        ensures cost { (depth : ℕ)
            → IsDepth depth (length (⟦<IndexedHeap as QueueKind>⟧.listed self.new))
            → steps.new ≤ steps.old + depth }
    {
        add_cell(&mut self.cells, &mut self.places, (key, item), steps);
    }

    /// Takes the front, as `take` does. A step is one comparison of two keys: there are at most `2 * depth` of them, where
    /// `2 ^ depth` is at most the number of items before, and `depth` the greatest such number; an empty queue takes none.
    pub fn take_counted<L: Ledger>(&mut self, steps: &mut Steps<L>) -> Option<(Key, usize)>
        ensures front { result ≡ slice_get (⟦<IndexedHeap as QueueKind>⟧.listed self.old) 0 }
        ensures listed { ⟦<IndexedHeap as QueueKind>⟧.listed self.new
            ≡ drop 1 (⟦<IndexedHeap as QueueKind>⟧.listed self.old) }
        ensures spare { ⟦<IndexedHeap as QueueKind>⟧.spare self.new
            ≡ ⟦<IndexedHeap as QueueKind>⟧.spare self.old + (if is_some result then 1 else 0) }
        ensures room { ⟦<IndexedHeap as QueueKind>⟧.room self.new
            ≡ ⟦<IndexedHeap as QueueKind>⟧.room self.old }
        ensures counted { steps.old ≤ steps.new }
        ensures cost { (depth : ℕ)
            → IsDepth depth (length (⟦<IndexedHeap as QueueKind>⟧.listed self.old))
            → steps.new ≤ steps.old + 2 * depth }
        ensures free { ⟦<IndexedHeap as QueueKind>⟧.listed self.old ≡ [] → steps.new ≡ steps.old }
    {
        if self.cells.is_empty() {
            return None;
        }
        Some(take_root(&mut self.cells, &mut self.places, steps))
    }
}

// `put_counted` for who counts nothing.
fn put_uncounted<L: Ledger>(heap: &mut IndexedHeap, key: Key, item: usize, blank: Blank)
    requires name { blank.name ≡ L.name }
    requires parts { blank.parts ≡ L.parts }
    requires some { 0 < blank.parts }
    requires spare { 0 < ⟦<IndexedHeap as QueueKind>⟧.spare heap.old }
    requires in_room { item < ⟦<IndexedHeap as QueueKind>⟧.room heap.old }
    requires new_key { IsNewKey key (⟦<IndexedHeap as QueueKind>⟧.listed heap.old) }
    requires new_item { IsNewItem item (⟦<IndexedHeap as QueueKind>⟧.listed heap.old) }
    ensures listed { ⟦<IndexedHeap as QueueKind>⟧.listed heap.new
        ≡ with_entry key item (⟦<IndexedHeap as QueueKind>⟧.listed heap.old) }
    ensures spare { ⟦<IndexedHeap as QueueKind>⟧.spare heap.new + 1
        ≡ ⟦<IndexedHeap as QueueKind>⟧.spare heap.old }
    ensures room { ⟦<IndexedHeap as QueueKind>⟧.room heap.new
        ≡ ⟦<IndexedHeap as QueueKind>⟧.room heap.old }
{
    let mut steps = Steps::<L>::start(blank);
    heap.put_counted(key, item, &mut steps);
}

// `take_counted` for who counts nothing.
fn take_uncounted<L: Ledger>(heap: &mut IndexedHeap, blank: Blank) -> Option<(Key, usize)>
    requires name { blank.name ≡ L.name }
    requires parts { blank.parts ≡ L.parts }
    requires some { 0 < blank.parts }
    ensures front { result ≡ slice_get (⟦<IndexedHeap as QueueKind>⟧.listed heap.old) 0 }
    ensures listed { ⟦<IndexedHeap as QueueKind>⟧.listed heap.new
        ≡ drop 1 (⟦<IndexedHeap as QueueKind>⟧.listed heap.old) }
    ensures spare { ⟦<IndexedHeap as QueueKind>⟧.spare heap.new
        ≡ ⟦<IndexedHeap as QueueKind>⟧.spare heap.old + (if is_some result then 1 else 0) }
    ensures room { ⟦<IndexedHeap as QueueKind>⟧.room heap.new
        ≡ ⟦<IndexedHeap as QueueKind>⟧.room heap.old }
{
    let mut steps = Steps::<L>::start(blank);
    heap.take_counted(&mut steps)
}
