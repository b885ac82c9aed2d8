ghost use Rattle.std.specs.Prelude.{◌≡◌, ◌≤◌, [], OnOk, Some};
ghost use Rattle.std.specs.Option.{IfNone, IfSome};
ghost use Rattle.b1_queue.specs.Queue.{IsNewKey, key_of};
ghost use Rattle.b1_peer_queue.specs.Names.{CanName, with_name, without_name};

use b1_model::Key;
use b1_queue::{PlainQueue, QueueKind};
use std::alloc::{AllocError, Global};
use std::marker::Model;

/// The places of named entries, by their names.
///
/// Only `reserve` takes memory. A look-up takes a time of log n. Where a name comes or goes, the names on the shorter
/// side of it move by one as well.
#[derive(Drop)]
pub struct NameIndex {
    places: PlainQueue,
}

impl Model for NameIndex {
    ghost use Rattle.b1_peer_queue.specs.Names.{Names};

    ghost Value = { Names };

    ghost view = { λ n. record {
      listed = ⟦<PlainQueue as QueueKind>⟧.listed n.places;
      spare = ⟦<PlainQueue as QueueKind>⟧.spare n.places;
      room = ⟦<PlainQueue as QueueKind>⟧.room n.places;
    } };
}

impl NameIndex {
    /// An index of no names. It takes no memory.
    pub fn make(alloc: Global) -> Self
        ensures { result ≡ record { listed = []; spare = 0; room = 0 } }
    {
        NameIndex {
            places: PlainQueue::make(alloc),
        }
    }

    /// Makes room for `n` more names, of places below `places`. An error is want of memory.
    pub fn reserve(&mut self, n: usize, places: usize) -> Result<(), AllocError>
        ensures listed { self.new.listed ≡ self.old.listed }
        ensures enough_spare { OnOk result (n ≤ self.new.spare) }
        ensures enough_room { OnOk result (places ≤ self.new.room) }
        ensures spare_kept { self.old.spare ≤ self.new.spare }
        ensures room_kept { self.old.room ≤ self.new.room }
    {
        self.places.reserve(n, places)
    }

    /// Gives a place its name, if it has one.
    pub fn put(&mut self, name: Option<Key>, place: usize)
        requires { IfSome name (CanName self.old place) }
        ensures { self.new ≡ with_name name place self.old }
    {
        if let Some(name) = name {
            self.places.put(name, place);
        }
    }

    /// Takes the name of a place away, if it has one.
    pub fn remove(&mut self, place: usize)
        ensures { self.new ≡ without_name place self.old }
    {
        self.places.remove(place);
    }

    /// The place of a name; `None` where no place has it.
    pub fn place(&self, name: &Key) -> Option<usize>
        ensures some { IfSome result (λ place. key_of place self.now.listed ≡ Some name.now) }
        ensures none { IfNone result (IsNewKey name.now self.now.listed) }
    {
        self.places.item(name)
    }
}
