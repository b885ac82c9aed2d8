ghost use Rattle.std.specs.Prelude.{◌≡◌, ◌≤◌, ◌+◌, ◌<◌, [], find, drop, length, is_some, OnOk, OnErr, slice_get, option_map, if◌then◌else◌, false};
ghost use Rattle.std.specs.Option.{IfSome};
ghost use Rattle.b1_step.specs.Ordered.{Ascending, NewKey};
ghost use Rattle.b1_model.specs.MachineParts.{is_odd};
ghost use Rattle.b1_model.specs.MachineTables.{put as with_entry, without, is_stage};
ghost use Rattle.b1_peer_queue.specs.Mail.{count, DistinctIndexes, NewUnder, committed_queue, notices_queue, staged_notices};
ghost use Rattle.b1_peer_queue.specs.Charged.{HasSlots};
ghost use Rattle.b1_peer_queue.specs.Rows.{IsNewName, passes};

use crate::commits::{commit_in, commit_notices_in};
use crate::rows::{
    Rows, front_in, make_rows, put_in, reserve_rows, take_in, take_wanted_in, wanted_at,
};
use crate::wanted::Wanted;
use b1_model::{Entry, Key, Slot};
use b1_queue::QueueKind;
use std::alloc::{AllocError, Global};
use std::marker::Model;

/// A queue of entries.
#[derive(Drop)]
pub struct Shelf<Q: QueueKind> {
    rows: Rows<Q>,
}

impl<Q: QueueKind> Model for Shelf<Q> {
    ghost use Rattle.std.specs.VecDeque.{deque_capacity};
    ghost use Rattle.b1_peer_queue.specs.Rows.{Queued};

    ghost Value = { Queued };

    ghost use Rattle.b1_peer_queue.specs.Rows.{IsTied, shown};

    ghost view = { λ s. record {
      queue = shown s.rows.entries.slots (Q.listed s.rows.queue);
      spare = s.rows.spare;
    } };

    ghost invariant = { λ s. IsTied s.rows.spare s.rows.len (Q.spare s.rows.queue)
        (Q.room s.rows.queue) (Q.listed s.rows.queue) s.rows.entries
        (deque_capacity s.rows.marks) s.rows.marks.items s.rows.names };
}

impl<Q: QueueKind> Shelf<Q> {
    /// An empty queue with no spare. It takes no memory.
    pub fn make(alloc: Global) -> Self
        ensures queue { result.queue ≡ [] }
        ensures spare { result.spare ≡ 0 }
    {
        Shelf {
            rows: make_rows(alloc),
        }
    }

    /// How many entries there are.
    pub fn len(&self) -> usize
        ensures { result ≡ length self.now.queue }
    {
        self.rows.len
    }

    /// Makes room for `n` more entries. An error is want of memory, and leaves all as it was.
    pub fn reserve(&mut self, n: usize) -> Result<(), AllocError>
        ensures queue { self.new.queue ≡ self.old.queue }
        ensures enough { OnOk result (n ≤ self.new.spare) }
        ensures kept { self.old.spare ≤ self.new.spare }
        ensures err { OnErr result (self.new.spare ≡ self.old.spare) }
    {
        reserve_rows(&mut self.rows, n)
    }

    /// Puts an entry under its key. No entry has its name, where it has one.
    pub fn put(&mut self, key: Key, entry: Entry)
        requires spare { 0 < self.old.spare }
        requires new_key { NewKey key self.old.queue }
        requires new_name { IsNewName key entry self.old.queue }
        ensures queue { self.new.queue ≡ with_entry key entry self.old.queue }
        ensures spare { self.new.spare + 1 ≡ self.old.spare }
    {
        put_in(&mut self.rows, key, entry);
    }

    /// Takes out what is looked for, of which there is one at most.
    pub fn take_wanted(&mut self, wanted: Wanted) -> Option<(Key, Entry)>
        requires { count (passes wanted) self.old.queue ≤ 1 }
        ensures found { result ≡ find (passes wanted) self.old.queue }
        ensures queue { self.new.queue ≡ without (passes wanted) self.old.queue }
        ensures spare { self.new.spare ≡ self.old.spare + (if is_some result then 1 else 0) }
    {
        take_wanted_in(&mut self.rows, wanted)
    }

    /// Whether what is looked for is there.
    pub fn has(&self, wanted: Wanted) -> bool
        ensures { result ≡ is_some (find (passes wanted) self.now.queue) }
    {
        wanted_at(&self.rows, wanted).is_some()
    }

    /// Gives the staged message of a driver for a place its final stamp and its slots. Whether there is one.
    pub fn commit(&mut self, origin: u32, index: u32, stamp: u64, slots: &[Slot]) -> bool
        requires one { count (is_stage origin index) self.old.queue ≤ 1 }
        requires fits { IfSome (find (is_stage origin index) self.old.queue) (λ f.
            HasSlots (length slots.now) f.1) }
        requires new_key { IfSome (find (is_stage origin index) self.old.queue) (λ f.
            NewKey (record { stamp = stamp; origin = origin; index = index }) self.old.queue) }
        ensures found { result ≡ is_some (find (is_stage origin index) self.old.queue) }
        ensures queue { self.new.queue
            ≡ committed_queue (find (is_stage origin index) self.old.queue)
            origin index stamp slots.now self.old.queue }
        ensures spare { self.new.spare ≡ self.old.spare }
    {
        commit_in(&mut self.rows, origin, index, stamp, slots)
    }

    /// Gives every staged notice of a driver its final stamp.
    pub fn commit_notices(&mut self, origin: u32, stamp: u64)
        requires even { is_odd stamp ≡ false }
        requires distinct { DistinctIndexes (staged_notices origin self.old.queue) }
        requires new_keys { NewUnder stamp (staged_notices origin self.old.queue) self.old.queue }
        ensures queue { self.new.queue ≡ notices_queue origin stamp self.old.queue }
        ensures ascending { Ascending self.new.queue }
        ensures spare { self.new.spare ≡ self.old.spare }
    {
        commit_notices_in(&mut self.rows, origin, stamp);
    }

    /// The entry with the least key; `None` where the queue is empty.
    pub fn front(&self) -> Option<(Key, &Entry)>
        ensures { option_map (λ f. (f.0, f.1.now)) result ≡ slice_get self.now.queue 0 }
    {
        front_in(&self.rows)
    }

    /// Takes out the entry with the least key; `None` where the queue is empty.
    pub fn take(&mut self) -> Option<(Key, Entry)>
        ensures front { result ≡ slice_get self.old.queue 0 }
        ensures queue { self.new.queue ≡ drop 1 self.old.queue }
        ensures spare { self.new.spare ≡ self.old.spare + (if is_some result then 1 else 0) }
    {
        take_in(&mut self.rows)
    }
}
