ghost use Rattle.std.specs.Prelude.{◌≡◌, ◌≤◌, true, false, length, get_or, AllPairs, None, Some};
ghost use Rattle.std.specs.Option.{IfNone, IfSome};
ghost use Rattle.std.specs.List.{AllWithin};
ghost use Rattle.std.specs.VecDeque.{deque_len, deque_capacity};
ghost use Rattle.std.specs.declared.cmp.Ordering.TheVariants.{Less};
ghost use Rattle.std.proofs.Props.{props};
ghost use Rattle.b1_model.specs.Keys.{compare_keys};
ghost use Rattle.b1_queue.specs.Queue.{IsKept, IsNewKey, is_before, key_of};

use crate::kind::QueueKind;
use b1_model::{Key, key_cmp};
use std::alloc::{AllocError, Global};
use std::collections::VecDeque;

/// A queue as a list in the order of the keys, with each item's key beside it, in a list as long as the queue's room.
///
/// Only `reserve` takes memory. An item is found by its key, in a time of log n. Where an entry is put in or taken out, the
/// entries on the shorter side of it move by one: none at either end.
#[derive(Debug, Drop)]
pub struct PlainQueue {
    entries: VecDeque<(Key, usize)>,
    keys: Vec<Option<Key>>,
    spare: usize,
    ghost kept: { IsKept spare (deque_len entries) (deque_capacity entries) entries.items keys.items } by { Prim.hlevel props },
}

impl QueueKind for PlainQueue {
    ghost listed = { λ q. q.entries.items };

    ghost spare = { λ q. q.spare };

    ghost room = { λ q. length q.keys.items };

    fn make(alloc: Global) -> Self {
        PlainQueue {
            entries: VecDeque::new(alloc),
            keys: Vec::new(alloc),
            spare: 0,
        }
    }

    fn reserve(&mut self, n: usize, items: usize) -> Result<(), AllocError> {
        self.entries.reserve(n)?;
        if self.keys.len() < items {
            self.keys.resize(items, None)?;
        }
        self.spare = self.spare.max(n);
        Ok(())
    }

    fn put(&mut self, key: Key, item: usize) {
        let at = place_of(&self.entries, &key);
        match self.entries.insert(at, (key, item)) {
            Ok(()) => {}
            Err(_) => unreachable!(),
        }
        self.keys[item] = Some(key);
        self.spare -= 1;
    }

    fn restamp(&mut self, item: usize, new: Key) {
        self.remove(item);
        self.put(new, item);
    }

    fn remove(&mut self, item: usize) -> Option<Key> {
        let key = key_at(&self.keys, item)?;
        let at = place_of(&self.entries, &key);
        self.entries.remove(at);
        self.keys[item] = None;
        self.spare += 1;
        Some(key)
    }

    fn key(&self, item: usize) -> Option<Key> {
        key_at(&self.keys, item)
    }

    fn front(&self) -> Option<(Key, usize)> {
        self.entries.front().copied()
    }

    fn take(&mut self) -> Option<(Key, usize)> {
        let (key, item) = self.entries.pop_front()?;
        self.keys[item] = None;
        self.spare += 1;
        Some((key, item))
    }

    ghost in_order = { λ q. q.kept.in_order };
}

impl PlainQueue {
    /// The item under a key; `None` where there is none. Takes a time of log n.
    pub fn item(&self, key: &Key) -> Option<usize>
        ensures some { IfSome result (λ item.
            key_of item (⟦<PlainQueue as QueueKind>⟧.listed self.now) ≡ Some key.now) }
        ensures none { IfNone result
            (IsNewKey key.now (⟦<PlainQueue as QueueKind>⟧.listed self.now)) }
    {
        let at = place_of(&self.entries, key);
        let (found, item) = self.entries.get(at)?;
        if key_cmp(found, key).is_eq() {
            Some(*item)
        } else {
            None
        }
    }
}

// How many entries stand before a key.
fn place_of(entries: &VecDeque<(Key, usize)>, key: &Key) -> usize
    requires { AllPairs (λ a b. compare_keys a.0 b.0 ≡ Less) entries.now.items }
    ensures within { result ≤ length entries.now.items }
    ensures before { AllWithin (λ e. is_before e.0 key.now ≡ true) entries.now.items 0 result }
    ensures after { AllWithin (λ e. is_before e.0 key.now
        ≡ false) entries.now.items result (length entries.now.items) }
{
    entries.partition_point(|e| key_cmp(&e.0, key).is_lt())
}

// The key of an item, if it has one.
fn key_at(keys: &[Option<Key>], item: usize) -> Option<Key>
    ensures { result ≡ get_or keys.now item None }
{
    *keys.get(item)?
}
