//! Values worked out by hand, and both kinds of queue beside each other.

ghost use Rattle.std.specs.Prelude.{◌≡◌, ◌+◌, ◌<◌, ◌≤◌, [], All};

use b1_cost::Steps;
use b1_heap::IndexedHeap;
use b1_model::Key;
use b1_queue::{PlainQueue, QueueKind};
use std::alloc::AllocError;
use std::marker::Brand;
use std::sync::ledger::{Blank, Ledger};
use std::test::Fail;

fn key(stamp: u64, origin: u32, index: u32) -> Key
    ensures { result ≡ record { stamp = stamp; origin = origin; index = index } }
{
    Key {
        stamp,
        origin,
        index,
    }
}

#[test]
fn restamp_moves_both_ways(rt: HostRuntime) -> Result<(), Fail> {
    let mut heap = IndexedHeap::make(rt.alloc());
    heap.reserve(3, 3)?;
    heap.put(key(2, 0, 0), 0);
    heap.put(key(4, 0, 0), 1);
    heap.put(key(6, 0, 0), 2);
    heap.restamp(0, key(8, 0, 0));
    assert_eq!(rt; heap.front(), Some((key(4, 0, 0), 1)));
    heap.restamp(2, key(2, 1, 0));
    assert_eq!(rt; heap.front(), Some((key(2, 1, 0), 2)));
    assert_eq!(rt; heap.take(), Some((key(2, 1, 0), 2)));
    assert_eq!(rt; heap.take(), Some((key(4, 0, 0), 1)));
    assert_eq!(rt; heap.take(), Some((key(8, 0, 0), 0)));
    assert_eq!(rt; heap.take(), None);
    Ok(())
}

/// What a call came to.
#[derive(Clone, Copy, Debug, PartialEq)]
enum Did {
    /// The front was taken, or there was none.
    Took(Option<(Key, usize)>),

    /// An item was removed, or it was not there.
    Removed(Option<Key>),

    /// An item was put anew, and this was the front before it got another key.
    Moved(Option<(Key, usize)>),
}

use Did::{Moved, Removed, Took};

/// Puts an item under a key, with no other entry of it left, and gives it another key.
fn put_and_move<Q: QueueKind>(
    queue: &mut Q,
    item: usize,
    first: Key,
    second: Key,
) -> Result<Did, AllocError>
    requires in_room { item < 16 }
    requires numbered { All (λ e. e.0.index < first.index) (Q.listed queue.old) }
    requires next { second.index ≡ first.index + 1 }
    ensures { All (λ e. e.0.index < second.index + 1) (Q.listed queue.new) }
{
    queue.remove(item);
    queue.reserve(1, 16)?;
    queue.put(first, item);
    let front = queue.front();
    queue.restamp(item, second);
    Ok(Moved(front))
}

/// Does the call that a word stands for, with keys that have the two indexes from `index` on.
fn act<Q: QueueKind>(queue: &mut Q, word: u64, index: u32) -> Result<Did, AllocError>
    requires small { index < 1000 }
    requires numbered { All (λ e. e.0.index < index) (Q.listed queue.old) }
    ensures { All (λ e. e.0.index < index + 2) (Q.listed queue.new) }
{
    let item = (word >> 33) as usize % 16;
    match (word >> 37) % 8 {
        0 => Ok(Took(queue.take())),
        1 => Ok(Removed(queue.remove(item))),
        _ => {
            let first = key((word >> 40) % 8, (word >> 43) as u32 % 4, index);
            let second = key((word >> 45) % 8, (word >> 48) as u32 % 4, index + 1);
            put_and_move(queue, item, first, second)
        }
    }
}

#[test]
fn both_kinds_agree(rt: HostRuntime) -> Result<(), Fail> {
    let mut plain = PlainQueue::make(rt.alloc());
    let mut heap = IndexedHeap::make(rt.alloc());
    let mut word: u64 = 1;
    for n in 0..200 {
        word = word
            .wrapping_mul(6364136223846793005)
            .wrapping_add(1442695040888963407);
        assert_eq!(rt; act(&mut plain, word, 2 * n)?, act(&mut heap, word, 2 * n)?);
        assert_eq!(rt; plain.front(), heap.front());
    }
    Ok(())
}

/// Puts three items and takes the front, with the comparisons counted.
fn put_and_take<L: Ledger>(heap: &mut IndexedHeap, blank: Blank) -> Option<(Key, usize)>
    requires name { blank.name ≡ L.name }
    requires parts { blank.parts ≡ L.parts }
    requires some { 0 < blank.parts }
    requires empty { ⟦<IndexedHeap as QueueKind>⟧.listed heap.old ≡ [] }
    requires spare { 3 ≤ ⟦<IndexedHeap as QueueKind>⟧.spare heap.old }
    requires room { 3 ≤ ⟦<IndexedHeap as QueueKind>⟧.room heap.old }
{
    let mut steps = Steps::<L>::start(blank);
    heap.put_counted(key(4, 0, 0), 0, &mut steps);
    heap.put_counted(key(4, 0, 1), 1, &mut steps);
    heap.put_counted(key(2, 9, 9), 2, &mut steps);
    heap.take_counted(&mut steps)
}

#[test]
fn counted_calls(rt: HostRuntime) -> Result<(), Fail> {
    let mut heap = IndexedHeap::make(rt.alloc());
    heap.reserve(3, 3)?;
    assert_eq!(rt;
        put_and_take::<Brand>(&mut heap, Blank::new(1)),
        Some((key(2, 9, 9), 2))
    );
    assert_eq!(rt; heap.take(), Some((key(4, 0, 0), 0)));
    assert_eq!(rt; heap.take(), Some((key(4, 0, 1), 1)));
    assert_eq!(rt; heap.take(), None);
    Ok(())
}
