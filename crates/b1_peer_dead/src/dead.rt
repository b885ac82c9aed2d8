ghost use Rattle.std.specs.Prelude.{◌≡◌, ◌==◌, not, ◌+◌, ◌-◌, ◌≤◌, [], ◌∷◌, ◌++◌, drop, filter_map, length, slice_get, zip, IfOk, OnOk};
ghost use Rattle.b1_model.specs.MachineReceive.{reference_of, with_item};
ghost use Rattle.b1_peer_dead.specs.Buffers.{AreEmpty, AsMany, GainsOne, LosesOne, count_at, spare_at};
ghost use Rattle.b1_peer_dead.specs.Dead.{has_items};

use crate::buffers::{add_singles, gather, make_stacks, put_last};
use crate::stack::{Buffers, Stack};
use b1_model::{Drops, MOST_HANDLES, NodeRef, Slot};
use std::alloc::{AllocError, Global};
use std::collections::VecDeque;
use std::marker::Model;

/// A peer's references to be given up: items in the order in which they came in, and buffers for further ones.
///
/// `room` says for how many more items there is a place, and `lent` how many places items are made for. An item of one
/// reference is made in one of the `singles`, a message's item in buffers that were put in for it: those for `n` carried
/// nodes stand in the stack `n`.
#[derive(Debug, Drop)]
pub struct DeadList {
    items: VecDeque<Drops>,
    room: usize,
    lent: usize,
    singles: Vec<Vec<(NodeRef, u64)>>,
    stacks: Vec<Stack>,
    alloc: Global,
}

impl Model for DeadList {
    ghost use Rattle.b1_model.specs.declared.limits.TheConstants.{MOST_HANDLES};
    ghost use Rattle.std.specs.Prelude.{◌≡◌, ◌+◌, ◌≤◌, [], All, length as count_of, vec_len};
    ghost use Rattle.std.specs.Vec.{vec_capacity};
    ghost use Rattle.std.specs.VecDeque.{deque_len, deque_capacity};
    ghost use Rattle.b1_peer_dead.specs.Buffers.{AreSized};
    ghost use Rattle.b1_peer_dead.specs.Dead.{DeadSeen};

    ghost Value = { DeadSeen };

    ghost view = { λ d. record {
      items = d.items.items;
      room = d.room;
      lent = d.lent;
      singles = vec_len d.singles;
      stacks = d.stacks.items;
    } };

    ghost invariant = { λ d. record {
      empty : All (λ b. (b.items ≡ []) × (1 ≤ vec_capacity b)) d.singles.items;
      places : deque_len d.items + d.room + d.lent ≤ deque_capacity d.items;
      all : count_of d.stacks.items ≡ MOST_HANDLES + 1;
      sized : AreSized d.stacks.items;
    } };
}

impl DeadList {
    /// A list with no item and no room. An error is want of memory.
    pub fn make(alloc: Global) -> Result<DeadList, AllocError>
        ensures { IfOk result (λ d. d.items ≡ []) }
    {
        Ok(DeadList {
            items: VecDeque::new(alloc),
            room: 0,
            lent: 0,
            singles: Vec::new(alloc),
            stacks: make_stacks(alloc)?,
            alloc,
        })
    }

    /// Makes room for `n` more items at least. An error is want of memory, and leaves every item, and at least the room that
    /// was there.
    pub fn reserve(&mut self, n: usize) -> Result<(), AllocError>
        ensures kept { self.new ≡ record self.old { room = self.new.room } }
        ensures enough { OnOk result (n ≤ self.new.room) }
        ensures more { self.old.room ≤ self.new.room }
    {
        if n <= self.room {
            return Ok(());
        }
        let Some(places) = n.checked_add(self.lent) else {
            return Err(AllocError);
        };
        self.items.reserve(places)?;
        self.room = n;
        Ok(())
    }

    /// Makes buffers for one reference until there are `n` of them at least. An error is want of memory, and leaves at least
    /// the buffers that were there.
    pub fn reserve_singles(&mut self, n: usize) -> Result<(), AllocError>
        ensures kept { self.new ≡ record self.old { singles = self.new.singles } }
        ensures enough { OnOk result (n ≤ self.new.singles) }
        ensures more { self.old.singles ≤ self.new.singles }
    {
        add_singles(&mut self.singles, self.alloc, n)
    }

    /// Makes room for the buffers of one more message with `n` carried nodes. An error is want of memory; only room may
    /// have been gained then.
    pub fn reserve_set(&mut self, n: usize) -> Result<(), AllocError>
        requires { n ≤ MOST_HANDLES }
        ensures kept { self.new ≡ record self.old { stacks = self.new.stacks } }
        ensures enough { OnOk result (1 ≤ spare_at self.new.stacks n) }
        ensures more { AsMany self.old.stacks self.new.stacks }
    {
        self.stacks[n].reserve()
    }

    /// Puts in the buffers of a message with `n` carried nodes, for which there is room.
    pub fn put_set(&mut self, n: usize, set: Buffers)
        requires spare { 1 ≤ spare_at self.old.stacks n }
        requires empty { AreEmpty n set }
        ensures kept { self.new ≡ record self.old { stacks = self.new.stacks } }
        ensures gains { GainsOne n self.old.stacks self.new.stacks }
        ensures there { 1 ≤ count_at self.new.stacks n }
    {
        self.stacks[n].put(set);
    }

    /// Lets the buffers of a message with `n` carried nodes go. They must be there.
    pub fn drop_set(&mut self, n: usize)
        requires { 1 ≤ count_at self.old.stacks n }
        ensures kept { self.new ≡ record self.old { stacks = self.new.stacks } }
        ensures loses { LosesOne n self.old.stacks self.new.stacks }
    {
        self.stacks[n].take();
    }

    /// Hands out the buffers of a message with `n` carried nodes, which must be there, and a place for its item.
    pub fn take_set(&mut self, n: usize) -> Buffers
        requires room { 1 ≤ self.old.room }
        requires there { 1 ≤ count_at self.old.stacks n }
        ensures empty { AreEmpty n result }
        ensures lent { self.new ≡ record self.old {
          room = self.old.room - 1;
          lent = self.old.lent + 1;
          stacks = self.new.stacks;
        } }
        ensures loses { LosesOne n self.old.stacks self.new.stacks }
    {
        self.room -= 1;
        self.lent += 1;
        self.stacks[n].take()
    }

    /// Whether there is no item.
    pub fn is_empty(&self) -> bool
        ensures empty { result ≡ (length self.now.items == 0) }
        ensures items { result ≡ not (has_items self.now.items) }
    {
        self.items.is_empty()
    }

    /// Puts references behind the other items, at a place that was handed out; where there are none, no item, and the place
    /// is free again.
    pub fn add(&mut self, item: Vec<(NodeRef, u64)>)
        requires { 1 ≤ self.old.lent }
        ensures items { self.new.items ≡ with_item item.items self.old.items }
        ensures room { self.new.room + length self.new.items
            ≡ self.old.room + length self.old.items + 1 }
        ensures rest { self.new ≡ record self.old {
          items = self.new.items;
          room = self.new.room;
          lent = self.old.lent - 1;
        } }
    {
        self.lent -= 1;
        if item.is_empty() {
            self.room += 1;
        } else {
            self.items.push_back_reserved(Drops::from_vec(item));
        }
    }

    /// Puts the references that a message's slots have behind the other items, in the order of the slots; where there are
    /// none, no item. There must be room, and the message's buffers must be there: they go.
    pub fn add_references(&mut self, with: &[NodeRef], slots: &[Slot])
        requires room { 1 ≤ self.old.room }
        requires there { 1 ≤ count_at self.old.stacks (length with.now) }
        ensures items { self.new.items
            ≡ with_item (filter_map reference_of (zip with.now slots.now)) self.old.items }
        ensures room { self.new.room + length self.new.items
            ≡ self.old.room + length self.old.items }
        ensures rest { self.new ≡ record self.old {
          items = self.new.items;
          room = self.new.room;
          stacks = self.new.stacks;
        } }
        ensures loses { LosesOne (length with.now) self.old.stacks self.new.stacks }
    {
        let Buffers { mut refs, .. } = self.take_set(with.len());
        gather(&mut refs, with, slots);
        self.add(refs);
    }

    /// Puts an item with one node and how often it was held behind the others. There must be room, and a buffer for it.
    pub fn add_held(&mut self, node: NodeRef, amount: u64)
        requires room { 1 ≤ self.old.room }
        requires single { 1 ≤ self.old.singles }
        ensures { self.new ≡ record self.old {
          items = self.old.items ++ ((node, amount) ∷ []) ∷ [];
          room = self.old.room - 1;
          singles = self.old.singles - 1;
        } }
    {
        let Some(mut item) = self.singles.pop() else {
            unreachable!()
        };
        put_last(&mut item, (node, amount));
        self.room -= 1;
        self.items.push_back_reserved(Drops::from_vec(item));
    }

    /// Removes the first item, and answers it; `None` where there is none. The others stay where they are.
    pub fn reap(&mut self) -> Option<Drops>
        ensures first { result ≡ slice_get self.old.items 0 }
        ensures removed { self.new ≡ record self.old { items = drop 1 self.old.items } }
    {
        self.items.pop_front()
    }
}
