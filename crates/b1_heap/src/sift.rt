ghost use Rattle.std.specs.Prelude.{◌≡◌, ◌≢◌, ℕ, ◌+◌, ◌*◌, ◌^◌, ◌-◌, ◌<◌, ◌≤◌, length, swap, IfSome, IfNone, IsPermutation};
ghost use Rattle.b1_queue.specs.Queue.{is_before as stands_before};
ghost use Rattle.b1_heap.specs.Heap.{AreApart, IsHeap, IsIndexed};
ghost use Rattle.b1_heap.specs.Sift.{IsLeastChild, MovesAt, RisesAt, SinksAt};

use b1_cost::Steps;
use b1_model::{Key, key_cmp};
use std::sync::ledger::{Blank, Ledger};

// Whether the first key stands before the second. It is the only comparison of keys, and takes a step.
fn is_before<L: Ledger>(a: Key, b: Key, steps: &mut Steps<L>) -> bool
    ensures value { result ≡ stands_before a b }
    ensures cost { steps.new ≡ steps.old + 1 }
{
    steps.tick();
    key_cmp(&a, &b).is_lt()
}

// Changes two cells round.
fn swap_cells(cells: &mut [(Key, usize)], places: &mut [usize], i: usize, j: usize)
    requires apart { i ≢ j }
    requires first { i < length cells.old }
    requires second { j < length cells.old }
    requires indexed { IsIndexed cells.old places.old }
    ensures swapped { cells.new ≡ swap cells.old i j }
    ensures moved { IsPermutation cells.old cells.new }
    ensures indexed { IsIndexed cells.new places.new }
{
    cells.swap(i, j);
    places[cells[i].1] = i;
    places[cells[j].1] = j;
}

// Moves a cell up until its key stands after its parent's.
pub fn sift_up<L: Ledger>(
    cells: &mut [(Key, usize)],
    places: &mut [usize],
    at: usize,
    steps: &mut Steps<L>,
)
    requires within { at < length cells.old }
    requires apart { AreApart cells.old }
    requires indexed { IsIndexed cells.old places.old }
    requires rises { RisesAt cells.old at }
    ensures moved { IsPermutation cells.old cells.new }
    ensures indexed { IsIndexed cells.new places.new }
    ensures heap { IsHeap cells.new }
    ensures counted { steps.old ≤ steps.new }
    ensures cost { 2 ^ (steps.new - steps.old) ≤ at + 1 }
{
    let mut place = at;
    while place > 0 {
        let above = (place - 1) / 2;
        if !is_before(cells[place].0, cells[above].0, steps) {
            return;
        }
        swap_cells(cells, places, above, place);
        place = above;
    }
}

// The child with the lesser key; `None` where there is no child.
fn least_child<L: Ledger>(cells: &[(Key, usize)], at: usize, steps: &mut Steps<L>) -> Option<usize>
    requires apart { AreApart cells.now }
    ensures child { IfSome result (IsLeastChild cells.now at) }
    ensures none { IfNone result (length cells.now ≤ 2 * at + 1) }
    ensures counted { steps.old ≤ steps.new }
    ensures cost { steps.new ≤ steps.old + 1 }
    ensures free { IfNone result (steps.new ≡ steps.old) }
{
    if at >= cells.len() / 2 {
        return None;
    }
    let left = 2 * at + 1;
    let right = left + 1;
    if right < cells.len() && is_before(cells[right].0, cells[left].0, steps) {
        Some(right)
    } else {
        Some(left)
    }
}

// Moves a cell down until its key stands before those of its children.
pub fn sift_down<L: Ledger>(
    cells: &mut [(Key, usize)],
    places: &mut [usize],
    at: usize,
    steps: &mut Steps<L>,
)
    requires within { at < length cells.old }
    requires apart { AreApart cells.old }
    requires indexed { IsIndexed cells.old places.old }
    requires sinks { SinksAt cells.old at }
    ensures moved { IsPermutation cells.old cells.new }
    ensures indexed { IsIndexed cells.new places.new }
    ensures heap { IsHeap cells.new }
    ensures counted { steps.old ≤ steps.new }
    ensures cost { (levels : ℕ) × (2 ^ levels * (at + 1) ≤ length cells.old)
        × (steps.new ≤ steps.old + 2 * levels) }
{
    let mut place = at;
    while let Some(child) = least_child(cells, place, steps) {
        if !is_before(cells[child].0, cells[place].0, steps) {
            return;
        }
        swap_cells(cells, places, place, child);
        place = child;
    }
}

// Moves a cell up or down to where its key belongs, with no count of the comparisons.
pub fn settle<L: Ledger>(cells: &mut [(Key, usize)], places: &mut [usize], at: usize, blank: Blank)
    requires name { blank.name ≡ L.name }
    requires parts { blank.parts ≡ L.parts }
    requires some { 0 < blank.parts }
    requires within { at < length cells.old }
    requires apart { AreApart cells.old }
    requires indexed { IsIndexed cells.old places.old }
    requires moves { MovesAt cells.old at }
    ensures moved { IsPermutation cells.old cells.new }
    ensures indexed { IsIndexed cells.new places.new }
    ensures heap { IsHeap cells.new }
{
    let mut steps = Steps::<L>::start(blank);
    if at > 0 && is_before(cells[at].0, cells[(at - 1) / 2].0, &mut steps) {
        sift_up(cells, places, at, &mut steps);
    } else {
        sift_down(cells, places, at, &mut steps);
    }
}
