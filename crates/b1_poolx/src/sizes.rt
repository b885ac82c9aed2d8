//! A list of free slices in the order of their lengths and then of their offsets.

ghost use Rattle.std.specs.Prelude.{◌≡◌, nat_lt, ◌+◌, ◌-◌, ◌*◌, ◌^◌, ◌<◌, ◌≤◌, length, take, drop, insert, Some, None, vec_len};
ghost use Rattle.std.specs.Vec.{vec_capacity};
ghost use Rattle.b1_poolx.specs.Sizes.{placed, without, IsBySize, last_length, first_long, AllBefore, NoneBefore, AllShorter, NoneShorter};

use b1_cost::Steps;
use b1_pool::Slice;
use b1_pool::places::comes_before;
use std::marker::Brand;
use std::sync::ledger::{Blank, Ledger};

/// Whether a slice is shorter than `len`, which takes a step.
fn is_shorter<L: Ledger>(s: &Slice, len: u32, steps: &mut Steps<L>) -> bool
    ensures shorter { result ≡ nat_lt s.now.length len }
    ensures step { steps.new ≡ steps.old + 1 }
{
    steps.tick();
    s.length < len
}

/// How many of the slices are shorter than `len`.
fn count_shorter<L: Ledger>(free: &[Slice], len: u32, steps: &mut Steps<L>) -> usize
    requires { IsBySize free.now }
    ensures within { result ≤ length free.now }
    ensures below { AllShorter len (take result free.now) }
    ensures above { NoneShorter len (drop result free.now) }
    ensures rises { steps.old ≤ steps.new }
    ensures cost { 2 ^ (steps.new - steps.old) ≤ 2 * length free.now + 1 }
{
    let mut low = 0;
    let mut high = free.len();
    while low < high {
        let middle = low + (high - low) / 2;
        if is_shorter(&free[middle], len, steps) {
            low = middle + 1;
        } else {
            high = middle;
        }
    }
    low
}

/// The least of the slices that is at least `len` bytes long, the one at the lowest offset among equals.
pub fn find<L: Ledger>(free: &[Slice], len: u32, steps: &mut Steps<L>) -> Option<Slice>
    requires { IsBySize free.now }
    ensures first { result ≡ first_long len free.now }
    ensures rises { steps.old ≤ steps.new }
    ensures cost { 2 ^ (steps.new - steps.old) ≤ 2 * length free.now + 1 }
{
    let i = count_shorter(free, len, steps);
    if i < free.len() { Some(free[i]) } else { None }
}

/// The same, with no step counted.
pub fn find_uncounted(free: &[Slice], len: u32) -> Option<Slice>
    requires { IsBySize free.now }
    ensures { result ≡ first_long len free.now }
{
    find_with::<Brand>(free, len, Blank::new(1))
}

/// The same, over a new ledger.
fn find_with<L: Ledger>(free: &[Slice], len: u32, blank: Blank) -> Option<Slice>
    requires ordered { IsBySize free.now }
    requires name { blank.name ≡ L.name }
    requires parts { blank.parts ≡ L.parts }
    requires some { 0 < blank.parts }
    ensures { result ≡ first_long len free.now }
{
    let mut steps = Steps::<L>::start(blank);
    find(free, len, &mut steps)
}

/// How many of the slices come before another one.
fn count_before(free: &[Slice], s: &Slice) -> usize
    requires { IsBySize free.now }
    ensures within { result ≤ length free.now }
    ensures below { AllBefore s.now (take result free.now) }
    ensures above { NoneBefore s.now (drop result free.now) }
{
    let mut low = 0;
    let mut high = free.len();
    while low < high {
        let at = low + (high - low) / 2;
        if comes_before(&free[at], s) {
            low = at + 1;
        } else {
            high = at;
        }
    }
    low
}

/// Puts a slice among others, in its place.
pub fn put_in(free: &mut Vec<Slice>, s: Slice)
    requires ordered { IsBySize free.old.items }
    requires room { vec_len free.old < vec_capacity free.old }
    ensures items { free.new.items ≡ placed s free.old.items }
    ensures capacity { vec_capacity free.new ≡ vec_capacity free.old }
    ensures len { vec_len free.new ≡ vec_len free.old + 1 }
{
    let i = count_before(free, &s);
    match free.insert(i, s) {
        Ok(()) => {}
        Err(_) => unreachable!(),
    }
}

/// Takes a slice out that stands in its place.
pub fn take_out(free: &mut Vec<Slice>, s: Slice)
    requires ordered { IsBySize free.old.items }
    requires stands { free.old.items ≡ placed s (without s free.old.items) }
    ensures items { free.new.items ≡ without s free.old.items }
    ensures capacity { vec_capacity free.new ≡ vec_capacity free.old }
    ensures len { vec_len free.new + 1 ≡ vec_len free.old }
{
    let i = count_before(free, &s);
    free.remove(i);
}

/// The length of the last slice, 0 where there is none.
pub fn last_length_of(free: &[Slice]) -> u32
    ensures { result ≡ last_length free.now }
{
    match free.last() {
        Some(s) => s.length,
        None => 0,
    }
}
