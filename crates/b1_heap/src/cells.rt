ghost use Rattle.std.specs.Prelude.{◌≡◌, ◌≢◌, ◌∷◌, ℕ, ◌+◌, ◌-◌, ◌*◌, ◌^◌, ◌<◌, ◌≤◌, Some, All, length, slice_index_or, IfNone, IfSome, IsPermutation, vec_len, vec_capacity};
ghost use Rattle.b1_model.specs.declared.naming.Key.{Key as KeySeen};
ghost use Rattle.b1_queue.specs.Queue.{IsNewItem, IsNewKey, key_of, restamped, with_entry, without};
ghost use Rattle.b1_heap.specs.Heap.{IsIndexed, IsIndexedHeap, in_key_order};

use crate::sift::{settle, sift_down, sift_up};
use b1_cost::Steps;
use b1_model::Key;
use std::sync::ledger::{Blank, Ledger};

// Where an item's cell is.
pub fn find_cell(cells: &[(Key, usize)], places: &[usize], item: usize) -> Option<usize>
    requires { IsIndexed cells.now places.now }
    ensures found { IfSome result (λ at. at < length cells.now) }
    ensures item { IfSome result (λ at. (d : KeySeen × ℕ)
        → (slice_index_or cells.now at d).1 ≡ item) }
    ensures none { IfNone result (All (λ cell. cell.1 ≢ item) cells.now) }
{
    let at = *places.get(item)?;
    if at < cells.len() && cells[at].1 == item {
        Some(at)
    } else {
        None
    }
}

// Adds a cell.
pub fn add_cell<L: Ledger>(
    cells: &mut Vec<(Key, usize)>,
    places: &mut [usize],
    cell: (Key, usize),
    steps: &mut Steps<L>,
)
    requires spare { vec_len cells.old < vec_capacity cells.old }
    requires in_room { cell.1 < length places.old }
    requires new_key { IsNewKey cell.0 (in_key_order cells.old.items) }
    requires new_item { IsNewItem cell.1 (in_key_order cells.old.items) }
    requires heap { IsIndexedHeap cells.old.items places.old }
    ensures heap { IsIndexedHeap cells.new.items places.new }
    ensures listed { in_key_order cells.new.items
        ≡ with_entry cell.0 cell.1 (in_key_order cells.old.items) }
    ensures len { vec_len cells.new ≡ vec_len cells.old + 1 }
    ensures capacity { vec_capacity cells.new ≡ vec_capacity cells.old }
    ensures counted { steps.old ≤ steps.new }
    ensures cost { 2 ^ (steps.new - steps.old) ≤ vec_len cells.new }
{
    let at = cells.len();
    match cells.insert(at, cell) {
        Ok(()) => {}
        Err(_) => unreachable!(),
    }
    places[cell.1] = at;
    sift_up(cells, places, at, steps);
}

// Takes a cell out, and puts the last one in its place.
fn take_cell(cells: &mut Vec<(Key, usize)>, places: &mut [usize], at: usize) -> (Key, usize)
    requires within { at < vec_len cells.old }
    requires indexed { IsIndexed cells.old.items places.old }
    ensures value { result ≡ slice_index_or cells.old.items at result }
    ensures moved { IsPermutation cells.old.items (result ∷ cells.new.items) }
    ensures kept { (place : ℕ) (d : KeySeen × ℕ) → place < length cells.new.items → place ≢ at
        → slice_index_or cells.new.items place d ≡ slice_index_or cells.old.items place d }
    ensures indexed { IsIndexed cells.new.items places.new }
    ensures len { vec_len cells.new + 1 ≡ vec_len cells.old }
    ensures capacity { vec_capacity cells.new ≡ vec_capacity cells.old }
{
    let cell = cells.swap_remove(at);
    if at < cells.len() {
        places[cells[at].1] = at;
    }
    cell
}

// Takes the root out.
pub fn take_root<L: Ledger>(
    cells: &mut Vec<(Key, usize)>,
    places: &mut [usize],
    steps: &mut Steps<L>,
) -> (Key, usize)
    requires some { 0 < vec_len cells.old }
    requires heap { IsIndexedHeap cells.old.items places.old }
    ensures heap { IsIndexedHeap cells.new.items places.new }
    ensures listed { in_key_order cells.old.items ≡ result ∷ in_key_order cells.new.items }
    ensures len { vec_len cells.new + 1 ≡ vec_len cells.old }
    ensures capacity { vec_capacity cells.new ≡ vec_capacity cells.old }
    ensures counted { steps.old ≤ steps.new }
    ensures cost { (levels : ℕ) × (2 ^ levels ≤ vec_len cells.old)
        × (steps.new ≤ steps.old + 2 * levels) }
{
    let cell = take_cell(cells, places, 0);
    if !cells.is_empty() {
        sift_down(cells, places, 0, steps);
    }
    cell
}

// Takes any cell out.
pub fn remove_cell<L: Ledger>(
    cells: &mut Vec<(Key, usize)>,
    places: &mut [usize],
    at: usize,
    blank: Blank,
) -> (Key, usize)
    requires name { blank.name ≡ L.name }
    requires parts { blank.parts ≡ L.parts }
    requires some { 0 < blank.parts }
    requires within { at < vec_len cells.old }
    requires heap { IsIndexedHeap cells.old.items places.old }
    ensures value { result ≡ slice_index_or cells.old.items at result }
    ensures key { key_of result.1 (in_key_order cells.old.items) ≡ Some result.0 }
    ensures heap { IsIndexedHeap cells.new.items places.new }
    ensures listed { in_key_order cells.new.items
        ≡ without result.1 (in_key_order cells.old.items) }
    ensures len { vec_len cells.new + 1 ≡ vec_len cells.old }
    ensures capacity { vec_capacity cells.new ≡ vec_capacity cells.old }
{
    let cell = take_cell(cells, places, at);
    if at < cells.len() {
        settle::<L>(cells, places, at, blank);
    }
    cell
}

// Gives a cell another key.
pub fn restamp_cell<L: Ledger>(
    cells: &mut [(Key, usize)],
    places: &mut [usize],
    at: usize,
    new: Key,
    blank: Blank,
)
    requires name { blank.name ≡ L.name }
    requires parts { blank.parts ≡ L.parts }
    requires some { 0 < blank.parts }
    requires within { at < length cells.old }
    requires new_key { IsNewKey new (in_key_order cells.old) }
    requires heap { IsIndexedHeap cells.old places.old }
    ensures heap { IsIndexedHeap cells.new places.new }
    ensures listed { (d : KeySeen × ℕ)
        → in_key_order cells.new
        ≡ restamped (slice_index_or cells.old at d).1 new (in_key_order cells.old) }
{
    cells[at].0 = new;
    settle::<L>(cells, places, at, blank);
}
