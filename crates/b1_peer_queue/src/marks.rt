ghost use Rattle.std.specs.Prelude.{◌≡◌, ◌≢◌, ◌<◌, ◌≤◌, ◌==◌, find, length, true, false, AllPairs, All, IsSome, if◌then◌else◌};
ghost use Rattle.std.specs.List.{AllWithin};
ghost use Rattle.std.specs.VecDeque.{deque_len, deque_capacity};
ghost use Rattle.std.specs.declared.cmp.Ordering.TheVariants.{Less};
ghost use Rattle.b1_model.specs.Keys.{compare_keys};
ghost use Rattle.b1_queue.specs.Queue.{IsNewKey, is_before, with_entry, without};
ghost use Rattle.b1_entry.specs.Table.{entry_at};
ghost use Rattle.b1_peer_queue.specs.Rows.{is_marked, name_of as entry_name, row};

use crate::wanted::{is_staged_notice, name_of};
use b1_entry::EntryTable;
use b1_model::{Key, key_cmp};
use std::collections::VecDeque;

/// How many marks stand before a key.
fn place_of(marks: &VecDeque<(Key, usize)>, key: &Key) -> usize
    requires { AllPairs (λ a b. compare_keys a.0 b.0 ≡ Less) marks.now.items }
    ensures within { result ≤ length marks.now.items }
    ensures before { AllWithin (λ e. is_before e.0 key.now ≡ true) marks.now.items 0 result }
    ensures after { AllWithin (λ e. is_before e.0 key.now
        ≡ false) marks.now.items result (length marks.now.items) }
{
    marks.partition_point(|e| key_cmp(&e.0, key).is_lt())
}

/// Marks a place under its key.
fn mark(marks: &mut VecDeque<(Key, usize)>, key: Key, place: usize)
    requires room { deque_len marks.old < deque_capacity marks.old }
    requires ascending { AllPairs (λ a b. compare_keys a.0 b.0 ≡ Less) marks.old.items }
    requires new_key { IsNewKey key marks.old.items }
    ensures marks { marks.new.items ≡ with_entry key place marks.old.items }
    ensures capacity { deque_capacity marks.old ≤ deque_capacity marks.new }
{
    let at = place_of(marks, &key);
    match marks.insert(at, (key, place)) {
        Ok(()) => {}
        Err(_) => unreachable!(),
    }
}

/// Marks a place under its key, where it is to be marked.
pub fn mark_where(marks: &mut VecDeque<(Key, usize)>, marked: bool, key: Key, place: usize)
    requires room { deque_len marks.old < deque_capacity marks.old }
    requires ascending { AllPairs (λ a b. compare_keys a.0 b.0 ≡ Less) marks.old.items }
    requires new_key { IsNewKey key marks.old.items }
    ensures marks { marks.new.items
        ≡ (if marked then with_entry key place marks.old.items else marks.old.items) }
    ensures capacity { deque_capacity marks.old ≤ deque_capacity marks.new }
{
    if marked {
        mark(marks, key, place);
    }
}

/// Takes the mark of a place away, if it has one under its key.
pub fn unmark(marks: &mut VecDeque<(Key, usize)>, key: Key, place: usize)
    requires ascending { AllPairs (λ a b. compare_keys a.0 b.0 ≡ Less) marks.old.items }
    requires distinct { AllPairs (λ a b. a.1 ≢ b.1) marks.old.items }
    requires key { All (λ e. e.1 ≡ place → e.0 ≡ key) marks.old.items }
    ensures marks { marks.new.items ≡ without place marks.old.items }
    ensures capacity { deque_capacity marks.new ≡ deque_capacity marks.old }
{
    let at = place_of(marks, &key);
    let Some((_, there)) = marks.get(at) else {
        return;
    };
    if *there == place {
        marks.remove(at);
    }
}

/// Whether a place's entry is a staged notice under a key.
pub fn is_marked_at(entries: &EntryTable, key: Key, place: usize) -> bool
    requires { IsSome (entry_at entries.now.slots place) }
    ensures { result ≡ is_marked (row entries.now.slots (key, place)) }
{
    match entries.get(place) {
        Some(entry) => is_staged_notice(&key, entry),
        None => unreachable!(),
    }
}

/// The name of a place's entry under a key.
pub fn name_at(entries: &EntryTable, key: Key, place: usize) -> Option<Key>
    requires { IsSome (entry_at entries.now.slots place) }
    ensures { result ≡ entry_name (row entries.now.slots (key, place)) }
{
    match entries.get(place) {
        Some(entry) => name_of(&key, entry),
        None => unreachable!(),
    }
}

/// The first mark of a driver's.
pub fn first_notice(marks: &VecDeque<(Key, usize)>, origin: u32) -> Option<(Key, usize)>
    ensures { result ≡ find (λ e. e.0.origin == origin) marks.now.items }
{
    marks.iter().copied().find(|e| e.0.origin == origin)
}
