//! Where slices stand in a pool's list of them, and changes of that list.
//!
//! A slice is found by its offset in a time of log n. Where one is put in or taken out, the slices
//! on the shorter side of it move by one: none at either end.

ghost use Rattle.std.specs.Prelude.{◌≡◌, ℕ, ◌+◌, ◌<◌, ◌≤◌, ◌^◌, nat_lt, max, true, false, length, IsTrue, IfSome, IfNone, MatchOption, None, ◌&&◌};
ghost use Rattle.std.specs.List.{AllWithin};
ghost use Rattle.std.specs.VecDeque.{deque_len, deque_capacity};
ghost use Rattle.b1_pool.specs.Slices.{slice_at, length_at, begins, is_free, is_fit, is_before, least_fit, largest_free, whole, published, with_alloc, is_unpublished, is_published, IsPool, IsLength};
ghost use Rattle.b1_pool.specs.Places.{IsPlace, IsRising, total, joined_at, so_far, least_of, IsFreePair};

use crate::slices::{Slice, SliceState};
use std::collections::VecDeque;

/// How many slices begin before an offset.
pub fn count_before(slices: &VecDeque<Slice>, off: u64) -> usize
    requires { IsRising slices.now.items }
    ensures within { result ≤ length slices.now.items }
    ensures before { AllWithin (λ s. nat_lt s.offset off ≡ true) slices.now.items 0 result }
    ensures after { AllWithin (λ s. nat_lt s.offset off
        ≡ false) slices.now.items result (length slices.now.items) }
{
    slices.partition_point(|s| u64::from(s.offset) < off)
}

/// Where in the list the slice stands that begins at an offset, and None where none begins there.
pub fn place_of(slices: &VecDeque<Slice>, off: u64) -> Option<usize>
    requires { IsRising slices.now.items }
    ensures { MatchOption result (slice_at off slices.now.items ≡ None) (IsPlace off slices.now.items) }
{
    let i = count_before(slices, off);
    let Some(s) = slices.get(i) else {
        return None;
    };
    if u64::from(s.offset) == off {
        Some(i)
    } else {
        None
    }
}

/// Publishes the unpublished slice that begins at an offset. All others stay as they are.
pub fn publish_at(slices: &mut VecDeque<Slice>, off: u32)
    requires rising { IsRising slices.old.items }
    requires unpublished { IsTrue (begins is_unpublished off slices.old.items) }
    ensures slices { slices.new.items ≡ published off slices.old.items }
    ensures sound { (size : ℕ) → IsPool size slices.old.items → IsPool size slices.new.items }
    ensures capacity { deque_capacity slices.new ≡ deque_capacity slices.old }
    ensures len { deque_len slices.new ≡ deque_len slices.old }
{
    if let Some(i) = place_of(slices, off.into()) {
        slices[i].state = SliceState::Published;
    }
}

/// Takes the front of the free slice that begins at an offset, `len` bytes of it. That front is then
/// unpublished, and what is left behind it stays free. The list needs room for one slice more.
pub fn take_front(slices: &mut VecDeque<Slice>, off: u32, len: u32)
    requires rising { IsRising slices.old.items }
    requires room { deque_len slices.old < deque_capacity slices.old }
    requires fit { IsTrue (begins (is_fit len) off slices.old.items) }
    requires len { IsLength len }
    requires inside { off + length_at off slices.old.items < 2 ^ 32 }
    ensures slices { slices.new.items ≡ with_alloc off len slices.old.items }
    ensures sound { (size : ℕ) → IsPool size slices.old.items → IsPool size slices.new.items }
    ensures capacity { deque_capacity slices.old ≤ deque_capacity slices.new }
    ensures len { deque_len slices.new ≤ deque_len slices.old + 1 }
{
    if let Some(i) = place_of(slices, off.into()) {
        let s = slices[i];
        slices[i] = Slice {
            offset: off,
            length: len,
            state: SliceState::Unpublished,
        };
        if len < s.length {
            let behind = Slice {
                offset: off + len,
                length: s.length - len,
                state: SliceState::Free,
            };
            match slices.insert(i + 1, behind) {
                Ok(()) => {}
                Err(_) => unreachable!(),
            }
        }
    }
}

/// Whether two slices are free.
fn are_free(s: &Slice, next: &Slice) -> bool
    ensures { result ≡ (is_free s.now && is_free next.now) }
{
    s.state == SliceState::Free && next.state == SliceState::Free
}

/// Two free slices that stood side by side, and the one that stands there now.
#[derive(Clone, Copy, Debug)]
pub struct Joined {
    /// The first of the two.
    pub first: Slice,

    /// The one behind it.
    pub second: Slice,

    /// Both as one.
    pub both: Slice,
}

/// Joins the slice at a place with the one behind it, if both are free. The answer is what was joined,
/// and None where the list stays as it was.
pub fn join_next(slices: &mut VecDeque<Slice>, i: usize) -> Option<Joined>
    requires within { i < deque_len slices.old }
    requires inside { total slices.old.items < 2 ^ 32 }
    ensures slices { slices.new.items ≡ joined_at i slices.old.items }
    ensures pair { IfSome result (λ p. IsFreePair slices.old.items i p.first p.second) }
    ensures both { IfSome result (λ p. p.both ≡ whole p.first p.second) }
    ensures none { IfNone result (slices.new.items ≡ slices.old.items) }
    ensures total { total slices.new.items ≡ total slices.old.items }
    ensures capacity { deque_capacity slices.new ≡ deque_capacity slices.old }
    ensures len { deque_len slices.new ≤ deque_len slices.old }
    ensures within { i < deque_len slices.new }
{
    if i + 1 < slices.len() {
        let s = slices[i];
        let next = slices[i + 1];
        if are_free(&s, &next) {
            let both = Slice {
                length: s.length + next.length,
                ..s
            };
            slices[i] = both;
            slices.remove(i + 1);
            return Some(Joined {
                first: s,
                second: next,
                both,
            });
        }
    }
    None
}

/// Whether a slice is in use and published.
pub fn is_published_slice(s: &Slice) -> bool
    ensures { result ≡ is_published s.now }
{
    s.state == SliceState::Published
}

/// The least free slice that is at least `len` bytes long, the one at the lowest offset among
/// equals. It looks at all of them.
pub(crate) fn find_least(slices: &VecDeque<Slice>, len: u32) -> Option<Slice>
    ensures { result ≡ least_fit len slices.now.items }
{
    let (front, back) = slices.as_slices();
    least_with(back, len, least_with(front, len, None))
}

/// The lesser of the least slice before these and the least of these that is free and at least `len`
/// bytes long.
fn least_with(slices: &[Slice], len: u32, before: Option<Slice>) -> Option<Slice>
    ensures { result ≡ least_of before (least_fit len slices.now) }
{
    let mut least = before;
    for s in slices {
        if is_long_enough(s, len) {
            least = Some(lesser_so_far(least, *s));
        }
    }
    least
}

/// Whether a slice is free and at least `len` bytes long.
fn is_long_enough(s: &Slice, len: u32) -> bool
    ensures { result ≡ is_fit len s.now }
{
    s.state == SliceState::Free && len <= s.length
}

/// The lesser of a slice and the least one before it.
fn lesser_so_far(least: Option<Slice>, s: Slice) -> Slice
    ensures { result ≡ so_far least s }
{
    match least {
        Some(t) if !comes_before(&s, &t) => t,
        _ => s,
    }
}

/// Whether a slice is shorter than another, or as long and at a lower offset.
pub fn comes_before(s: &Slice, t: &Slice) -> bool
    ensures { result ≡ is_before s.now t.now }
{
    s.length < t.length || (s.length == t.length && s.offset < t.offset)
}

/// The greatest length of a free slice, 0 where none is free. It looks at all slices.
pub(crate) fn find_largest(slices: &VecDeque<Slice>) -> u32
    ensures { result ≡ largest_free slices.now.items }
{
    let (front, back) = slices.as_slices();
    largest_with(back, largest_with(front, 0))
}

/// The greater of a length and the greatest length of a free slice.
fn largest_with(slices: &[Slice], before: u32) -> u32
    ensures { result ≡ max before (largest_free slices.now) }
{
    let mut largest = before;
    for s in slices {
        if s.state == SliceState::Free && largest < s.length {
            largest = s.length;
        }
    }
    largest
}
