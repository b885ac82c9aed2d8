ghost use Rattle.std.specs.Prelude.{◌≡◌, ℕ, ◌+◌, ◌-◌, ◌<◌, ◌≤◌, ◌==◌, true, false, [], drop, find, is_some, length, IfOk, OnOk, OnErr, slice_get, option_map, if◌then◌else◌, None};
ghost use Rattle.std.specs.List.{list_any};
ghost use Rattle.b1_step.specs.Ordered.{NewKey};
ghost use Rattle.b1_model.specs.MachineParts.{is_odd, is_data, is_release_notice};
ghost use Rattle.b1_model.specs.MachineTables.{put, without, is_stage};
ghost use Rattle.b1_peer_queue.specs.Mail.{DistinctIndexes, IsCommittable, IsMail, IsNewNotice, IsSound, NewUnder, committed_queue, notices_queue, refusal as refusal_for, refusal_of, staged_notices};

use crate::charges::{put_message_in, take_front_from, take_wanted_from, withdraw_from};
use crate::messages::{charge_for, reason_of};
use crate::shelf::Shelf;
use crate::wanted::Wanted;
use b1_model::{Entry, Key, Limits, MOST_HANDLES, MOST_PAYLOAD, Reason, Slot};
use b1_queue::QueueKind;
use b1_quota::Quota;
use std::alloc::{AllocError, Global};
use std::marker::Model;

/// What waits at a peer: a queue of entries, of which the messages are charged to their users.
///
/// Contracts see a `Mail`; `facts` says what is always so of it. Only `make` and `reserve` take memory.
///
/// A staged message, or a release notice, is found in a time of log n; then the names on the shorter side of its own, and
/// what the queue of kind `Q` moves, move by one. `commit_notices` goes through the keys of the staged notices, up to the
/// driver's first, once for each notice of the driver's, and moves those on the shorter side of it by one. The other calls
/// take what `Q` takes.
#[derive(Drop)]
pub struct Mailbox<Q: QueueKind> {
    shelf: Shelf<Q>,
    quota: Quota,
}

impl<Q: QueueKind> Model for Mailbox<Q> {
    ghost use Rattle.b1_quota.specs.Accounts.{users_of};
    ghost use Rattle.b1_peer_queue.specs.Mail.{Mail};
    ghost use Rattle.b1_peer_queue.specs.Charged.{IsCharged};

    ghost Value = { Mail };

    ghost view = { λ m. record {
      limits = m.quota.limits;
      home = m.quota.home;
      users = users_of m.quota.accounts;
      queue = m.shelf.queue;
      spare = m.shelf.spare;
    } };

    ghost invariant = { λ m. IsCharged m.quota.accounts m.shelf.queue };
}

impl<Q: QueueKind> Mailbox<Q> {
    /// An empty queue with no spare, under `limits`. `home` is the peer's own user, and `users` are those who may be
    /// charged. An error is want of memory.
    pub fn make(alloc: Global, limits: Limits, home: u32, users: &[u32]) -> Result<Self, AllocError>
        ensures limits { IfOk result (λ m. m.limits ≡ limits) }
        ensures home { IfOk result (λ m. m.home ≡ home) }
        ensures users { IfOk result (λ m. (user : ℕ)
            → list_any (λ u. u == user) m.users ≡ list_any (λ u. u == user) users.now) }
        ensures queue { IfOk result (λ m. m.queue ≡ []) }
        ensures spare { IfOk result (λ m. m.spare ≡ 0) }
    {
        Ok(Mailbox {
            shelf: Shelf::make(alloc),
            quota: Quota::make(alloc, limits, home, users)?,
        })
    }

    /// What is always so: the keys rise, a driver has staged one message for a place at most, a node has one release
    /// notice at most, each message's user may be charged, its length is its payload's, up to `MOST_PAYLOAD`, and it has a slot for
    /// each of its carried nodes, up to `MOST_HANDLES`.
    pub fn facts(&self)
        ensures { IsMail self.now.users self.now.queue }
    {
        let _ = &self.shelf;
    }

    /// The limits.
    pub fn limits(&self) -> Limits
        ensures { result ≡ self.now.limits }
    {
        self.quota.limits()
    }

    /// The peer's own user.
    pub fn home(&self) -> u32
        ensures { result ≡ self.now.home }
    {
        self.quota.home()
    }

    /// How many entries there are.
    pub fn len(&self) -> usize
        ensures { result ≡ length self.now.queue }
    {
        self.shelf.len()
    }

    /// Makes room for `n` more entries. An error is want of memory, and leaves all as it was.
    pub fn reserve(&mut self, n: usize) -> Result<(), AllocError>
        ensures same { self.new ≡ record self.old { spare = self.new.spare } }
        ensures enough { OnOk result (n ≤ self.new.spare) }
        ensures kept { self.old.spare ≤ self.new.spare }
        ensures err { OnErr result (self.new ≡ self.old) }
    {
        self.shelf.reserve(n)
    }

    /// Why a message of a user would be refused, of `payload` bytes, up to `MOST_PAYLOAD`, with `handles` handles, up to `MOST_HANDLES`: the
    /// first quantity of entries, bytes and handles that fails its limit; `None` where none does.
    pub fn refusal(&self, user: u32, payload: u32, handles: u32) -> Option<Reason>
        requires payload { payload ≤ MOST_PAYLOAD }
        requires handles { handles ≤ MOST_HANDLES }
        ensures { result ≡ refusal_for self.now user payload handles }
    {
        match self.quota.over(user, charge_for(payload, handles)) {
            None => None,
            Some(over) => Some(reason_of(over)),
        }
    }

    /// Puts a staged message under its key, and charges it.
    ///
    /// There is room for it. Its key has an odd stamp, its origin and its place; no entry has that key, and its driver has
    /// no other message staged for that place. `refusal` has nothing against it, its user may be charged, its length is its
    /// payload's, up to `MOST_PAYLOAD`, and it has a slot for each of its carried nodes, up to `MOST_HANDLES`.
    pub fn put_message(&mut self, key: Key, entry: Entry)
        requires spare { 0 < self.old.spare }
        requires message { is_data entry ≡ true }
        requires sound { IsSound self.old.users (key, entry) }
        requires staged { is_odd key.stamp ≡ true }
        requires new_key { NewKey key self.old.queue }
        requires new_stage { find (is_stage key.origin key.index) self.old.queue ≡ None }
        requires admitted { refusal_of self.old entry ≡ None }
        ensures { self.new ≡ record self.old {
          queue = put key entry self.old.queue;
          spare = self.old.spare - 1;
        } }
    {
        put_message_in(&mut self.shelf, &mut self.quota, key, entry);
    }

    /// Puts a notice under its key. There is room for it, no entry has that key, and no release notice of the node is there
    /// where it is one.
    pub fn put_notice(&mut self, key: Key, entry: Entry)
        requires spare { 0 < self.old.spare }
        requires notice { is_data entry ≡ false }
        requires new_key { NewKey key self.old.queue }
        requires new_notice { IsNewNotice entry self.old.queue }
        ensures { self.new ≡ record self.old {
          queue = put key entry self.old.queue;
          spare = self.old.spare - 1;
        } }
    {
        self.shelf.put(key, entry);
    }

    /// Takes back the staged message of a driver for a place, with its charge; `None` where there is none.
    pub fn take_stage(&mut self, origin: u32, index: u32) -> Option<(Key, Entry)>
        ensures found { result ≡ find (is_stage origin index) self.old.queue }
        ensures taken { self.new
            ≡ record self.old {
              queue = without (is_stage origin index) self.old.queue;
              spare = if is_some result then self.old.spare + 1 else self.old.spare;
            } }
    {
        take_wanted_from(
            &mut self.shelf,
            &mut self.quota,
            Wanted::Stage { origin, index },
        )
    }

    /// Gives the staged message of a driver for a place its final stamp, which is even, and its slots, one for each carried
    /// node; no entry has the new key. Whether there is one: nothing changes where there is none.
    pub fn commit(&mut self, origin: u32, index: u32, stamp: u64, slots: &[Slot]) -> bool
        requires even { is_odd stamp ≡ false }
        requires committable { IsCommittable
            (find (is_stage origin index) self.old.queue) origin index stamp slots.now
            self.old.queue }
        ensures found { result ≡ is_some (find (is_stage origin index) self.old.queue) }
        ensures committed { self.new
            ≡ record self.old {
              queue = committed_queue (find (is_stage origin index) self.old.queue)
                  origin index stamp slots.now self.old.queue;
            } }
    {
        self.shelf.commit(origin, index, stamp, slots)
    }

    /// Gives every staged notice of a driver its final stamp, which is even. No two of them have one index, and no entry has
    /// one of the new keys.
    pub fn commit_notices(&mut self, origin: u32, stamp: u64)
        requires even { is_odd stamp ≡ false }
        requires distinct { DistinctIndexes (staged_notices origin self.old.queue) }
        requires new_keys { NewUnder stamp (staged_notices origin self.old.queue) self.old.queue }
        ensures { self.new ≡ record self.old { queue = notices_queue origin stamp self.old.queue } }
    {
        self.shelf.commit_notices(origin, stamp);
    }

    /// Removes the release notice of an own node, if there is one. Nothing changes where there is none.
    pub fn withdraw_release(&mut self, serial: u32)
        ensures { self.new ≡ record self.old {
          queue = without (is_release_notice serial) self.old.queue;
          spare = if is_some (find (is_release_notice serial) self.old.queue)
              then self.old.spare + 1 else self.old.spare;
        } }
    {
        withdraw_from(&mut self.shelf, &mut self.quota, serial);
    }

    /// Whether the release notice of an own node is there.
    pub fn has_release(&self, serial: u32) -> bool
        ensures { result ≡ is_some (find (is_release_notice serial) self.now.queue) }
    {
        self.shelf.has(Wanted::Release { serial })
    }

    /// The entry with the least key; `None` where the queue is empty.
    pub fn front(&self) -> Option<(Key, &Entry)>
        ensures { option_map (λ f. (f.0, f.1.now)) result ≡ slice_get self.now.queue 0 }
    {
        self.shelf.front()
    }

    /// Removes the entry with the least key, with its charge, and answers it; `None` where the queue is empty.
    pub fn take(&mut self) -> Option<(Key, Entry)>
        ensures front { result ≡ slice_get self.old.queue 0 }
        ensures taken { self.new ≡ record self.old {
          queue = drop 1 self.old.queue;
          spare = if is_some result then self.old.spare + 1 else self.old.spare;
        } }
    {
        take_front_from(&mut self.shelf, &mut self.quota)
    }

    /// Sets new limits, and leaves the queue with its charges, also where they are above a new limit: of a quantity that
    /// is, messages are refused until enough was taken.
    pub fn limit(&mut self, limits: Limits)
        ensures { self.new ≡ record self.old { limits = limits } }
    {
        self.quota.limit(limits);
    }

    /// Sets new limits of an empty queue.
    pub fn renew(&mut self, limits: Limits)
        requires { self.old.queue ≡ [] }
        ensures { self.new ≡ record self.old { limits = limits } }
    {
        self.quota.flush(limits);
    }
}
