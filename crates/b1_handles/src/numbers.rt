//! Which node is held under each number that was given.

ghost use Rattle.std.specs.Prelude.{◌≡◌, ◌+◌, ◌-◌, ◌<◌, ◌≤◌, ◌^◌, [], ◌∷◌, ◌++◌, None, OnOk, Some, length, slice_set};
ghost use Rattle.std.specs.VecDeque.{deque_capacity, deque_len};
ghost use Rattle.b1_handles.specs.Numbers.{EndsFirst, name_at, names_of};

use b1_model::NodeRef;
use std::alloc::{AllocError, Global};
use std::collections::VecDeque;
use std::marker::Model;

/// The node that is held under each number, by the number's place: how many numbers were given before it. Those before
/// the first that hasn't ended take no room.
#[derive(Debug, Drop)]
pub struct Numbers {
    ended: u64,
    kept: VecDeque<Option<NodeRef>>,
}

/// A node, and the place of the number under which it was held.
#[derive(Clone, Copy)]
pub struct Named {
    pub place: u64,
    pub node: NodeRef,
}

impl Model for Numbers {
    ghost use Rattle.std.specs.Prelude.{◌+◌, ◌-◌, ◌≤◌, ◌^◌};
    ghost use Rattle.std.specs.VecDeque.{deque_capacity, deque_len};
    ghost use Rattle.b1_handles.specs.Numbers.{Numbering, names_of};

    ghost Value = { Numbering };

    ghost view = { λ n. record {
      names = names_of n.ended n.kept.items;
      spare = deque_capacity n.kept - deque_len n.kept;
    } };

    ghost invariant = { λ n. n.ended + deque_len n.kept ≤ 2 ^ 60 };
}

impl Numbers {
    /// No number was given. It takes no memory.
    pub fn make(alloc: Global) -> Numbers
        ensures { result.names ≡ [] }
    {
        Numbers {
            ended: 0,
            kept: VecDeque::new(alloc),
        }
    }

    /// How many numbers were given, at most 2^60.
    pub fn len(&self) -> u64
        ensures len { result ≡ length self.now.names }
        ensures few { result ≤ 2 ^ 60 }
    {
        self.ended + self.kept.len() as u64
    }

    /// Makes room for `n` more numbers. An error is want of memory, and leaves every number.
    pub fn reserve(&mut self, n: usize) -> Result<(), AllocError>
        ensures names { self.new.names ≡ self.old.names }
        ensures enough { OnOk result (n ≤ self.new.spare) }
        ensures more { self.old.spare ≤ self.new.spare }
    {
        self.kept.reserve(n)
    }

    /// Gives the next number to a node. There must be room for it, and fewer than 2^60 numbers may have been given. It takes
    /// no memory.
    pub fn give(&mut self, node: NodeRef)
        requires room { 0 < self.old.spare }
        requires few { length self.old.names < 2 ^ 60 }
        ensures { self.new ≡ record {
          names = self.old.names ++ Some node ∷ [];
          spare = self.old.spare - 1;
        } }
    {
        self.kept.push_back_reserved(Some(node));
    }

    /// The node under the number at a place; `None` where the number has ended or wasn't given. Takes the same time however
    /// many numbers there are.
    pub fn get(&self, place: u64) -> Option<NodeRef>
        ensures { result ≡ name_at self.now.names place }
    {
        name_in(self.ended, &self.kept, place)
    }

    /// Ends the number at a place.
    pub fn end(&mut self, place: u64)
        ensures names { self.new.names ≡ slice_set self.old.names place None }
        ensures more { self.old.spare ≤ self.new.spare }
    {
        end_in(&mut self.ended, &mut self.kept, place);
    }

    /// Ends the first number that names a node, and answers that node; `None` where no number names one. All calls together
    /// take a time of the numbers that were given.
    pub fn end_first(&mut self) -> Option<Named>
        ensures first { EndsFirst self.old.names result self.new.names }
        ensures more { self.old.spare ≤ self.new.spare }
    {
        end_first_in(&mut self.ended, &mut self.kept)
    }
}

/// The node under the number at a place.
fn name_in(ended: u64, kept: &VecDeque<Option<NodeRef>>, place: u64) -> Option<NodeRef>
    ensures { result ≡ name_at (names_of ended kept.now.items) place }
{
    if place < ended {
        return None;
    }
    match kept.get((place - ended) as usize) {
        Some(name) => *name,
        None => None,
    }
}

/// Ends the number at a place, and gives up the room of the first ones that have ended.
fn end_in(ended: &mut u64, kept: &mut VecDeque<Option<NodeRef>>, place: u64)
    requires { ended.old + deque_len kept.old ≤ 2 ^ 60 }
    ensures names { names_of ended.new kept.new.items
        ≡ slice_set (names_of ended.old kept.old.items) place None }
    ensures few { ended.new + deque_len kept.new ≤ 2 ^ 60 }
    ensures len { deque_len kept.new ≤ deque_len kept.old }
    ensures capacity { deque_capacity kept.new ≡ deque_capacity kept.old }
{
    if place < *ended {
        return;
    }
    end_at(kept, (place - *ended) as usize);
    trim(ended, kept);
}

/// Ends a number that is kept.
fn end_at(kept: &mut VecDeque<Option<NodeRef>>, index: usize)
    ensures items { kept.new.items ≡ slice_set kept.old.items index None }
    ensures len { deque_len kept.new ≡ deque_len kept.old }
    ensures capacity { deque_capacity kept.new ≡ deque_capacity kept.old }
{
    if let Some(name) = kept.get_mut(index) {
        *name = None;
    }
}

/// Gives up the room of the first numbers that have ended.
fn trim(ended: &mut u64, kept: &mut VecDeque<Option<NodeRef>>)
    requires { ended.old + deque_len kept.old ≤ 2 ^ 60 }
    ensures names { names_of ended.new kept.new.items ≡ names_of ended.old kept.old.items }
    ensures few { ended.new + deque_len kept.new ≤ 2 ^ 60 }
    ensures len { deque_len kept.new ≤ deque_len kept.old }
    ensures capacity { deque_capacity kept.new ≡ deque_capacity kept.old }
{
    while let Some(None) = kept.front() {
        let _ = kept.pop_front();
        *ended += 1;
    }
}

/// Ends the first number that names a node.
fn end_first_in(ended: &mut u64, kept: &mut VecDeque<Option<NodeRef>>) -> Option<Named>
    requires { ended.old + deque_len kept.old ≤ 2 ^ 60 }
    ensures first { EndsFirst (names_of ended.old kept.old.items) result
        (names_of ended.new kept.new.items) }
    ensures few { ended.new + deque_len kept.new ≤ 2 ^ 60 }
    ensures len { deque_len kept.new ≤ deque_len kept.old }
    ensures capacity { deque_capacity kept.new ≡ deque_capacity kept.old }
{
    while let Some(name) = kept.pop_front() {
        let place = *ended;
        *ended += 1;
        if let Some(node) = name {
            return Some(Named { place, node });
        }
    }
    None
}
