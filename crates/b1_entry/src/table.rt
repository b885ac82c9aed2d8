ghost use Rattle.std.specs.Prelude.{◌≡◌, ◌≢◌, ℕ, ◌+◌, ◌<◌, ◌≤◌, [], Some, None, IsSome, OnOk, OnErr, is_some, if◌then◌else◌, option_copied, slice_set};
ghost use Rattle.std.specs.Option.{option_copied_mut};
ghost use Rattle.std.specs.Borrow.{sem};
ghost use Rattle.b1_entry.specs.Table.{entry_at};

use crate::places::{open_places, put_at, remove_at};
use b1_model::Entry;
use std::alloc::{AllocError, Global};
use std::marker::Model;

/// Entries by place. A place is a number that the table picks, and no entry moves until it is removed. Every call takes a
/// constant time but `reserve`, which takes one of each place that it opens.
#[derive(Debug, Drop)]
pub struct EntryTable {
    slots: Vec<Option<Entry>>,
    vacant: Vec<usize>,
}

impl Model for EntryTable {
    ghost use Rattle.std.specs.Prelude.{length};
    ghost use Rattle.std.specs.Vec.{vec_capacity};
    ghost use Rattle.b1_entry.specs.Table.{Table};
    ghost use Rattle.b1_entry.specs.Places.{AreVacant};

    ghost Value = { Table };

    ghost view = { λ t. record {
      slots = t.slots.items;
      spare = length t.vacant.items;
      room = length t.slots.items;
    } };

    ghost invariant = { λ t. AreVacant t.slots.items t.vacant.items (vec_capacity t.vacant) };
}

impl EntryTable {
    ghost use Rattle.b1_entry.specs.Lends.{lends_entry};

    /// A table with no entry, no spare and no room. It takes no memory.
    pub fn make(alloc: Global) -> EntryTable
        ensures { result ≡ record { slots = []; spare = 0; room = 0 } }
    {
        EntryTable {
            slots: Vec::new(alloc),
            vacant: Vec::new(alloc),
        }
    }

    /// Makes room for `n` more entries, by at most `n` more places. An error is want of memory, and leaves all as it was.
    pub fn reserve(&mut self, n: usize) -> Result<(), AllocError>
        ensures entries { (place : ℕ)
            → entry_at self.new.slots place ≡ entry_at self.old.slots place }
        ensures enough { OnOk result (n ≤ self.new.spare) }
        ensures spare { self.old.spare ≤ self.new.spare }
        ensures room { self.old.room ≤ self.new.room }
        ensures few { self.new.room ≤ self.old.room + n }
        ensures err { OnErr result (self.new ≡ self.old) }
    {
        if n <= self.vacant.len() {
            return Ok(());
        }
        let more = n - self.vacant.len();
        self.slots.reserve(more)?;
        self.vacant
            .reserve(self.slots.len() - self.vacant.len() + more)?;
        open_places(&mut self.slots, &mut self.vacant, more);
        Ok(())
    }

    /// A number above every place in use, and above every place that `insert` gives until the next `reserve`.
    pub fn room(&self) -> usize
        ensures room { result ≡ self.now.room }
        ensures in_use { (place : ℕ) → IsSome (entry_at self.now.slots place) → place < result }
    {
        self.slots.len()
    }

    /// Puts an entry at a vacant place, and answers the place.
    pub fn insert(&mut self, e: Entry) -> usize
        requires { 0 < self.old.spare }
        ensures vacant { entry_at self.old.slots result ≡ None }
        ensures in_room { result < self.old.room }
        ensures here { entry_at self.new.slots result ≡ Some e }
        ensures others { (other : ℕ) → other ≢ result
            → entry_at self.new.slots other ≡ entry_at self.old.slots other }
        ensures spare { self.new.spare + 1 ≡ self.old.spare }
        ensures room { self.new.room ≡ self.old.room }
    {
        put_at(&mut self.slots, &mut self.vacant, e)
    }

    /// The entry at a place; `None` where the place is vacant.
    pub fn get(&self, place: usize) -> Option<&Entry>
        ensures { option_copied result ≡ entry_at self.now.slots place }
    {
        match self.slots.get(place) {
            Some(slot) => slot.as_ref(),
            None => None,
        }
    }

    /// The entry at a place, to be written; `None` where the place is vacant.
    pub fn get_mut(&mut self, place: usize) -> Option<&mut Entry>
        ensures* writes_back { sem 𝓛 (lends_entry self.entry place result) }
        ensures entry { option_copied_mut result ≡ entry_at self.old.slots place }
    {
        if self.get(place).is_none() {
            return None;
        }
        self.slots[place].as_mut()
    }

    /// Removes the entry at a place; `None` where the place is vacant.
    pub fn remove(&mut self, place: usize) -> Option<Entry>
        ensures entry { result ≡ entry_at self.old.slots place }
        ensures slots { self.new.slots ≡ slice_set self.old.slots place None }
        ensures spare { self.new.spare ≡ self.old.spare + (if is_some result then 1 else 0) }
        ensures room { self.new.room ≡ self.old.room }
    {
        remove_at(&mut self.slots, &mut self.vacant, place)
    }
}
