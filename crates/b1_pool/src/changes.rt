//! Changes of a list of slices and of the list of its free ones together, both in the order of their
//! offsets.

ghost use Rattle.std.specs.Prelude.{◌≡◌, ℕ, ◌+◌, ◌^◌, ◌<◌, ◌≤◌, IsTrue, filter, true, Some, is_ok, if◌then◌else◌};
ghost use Rattle.std.specs.VecDeque.{deque_len, deque_capacity};
ghost use Rattle.b1_pool.specs.Slices.{slice_at, length_at, begins, is_free, is_fit, is_unpublished, is_published, IsLength, IsMerged, IsPool, merged, with_alloc, given_back};
ghost use Rattle.b1_pool.specs.Places.{IsRising, IsUsedAt, free_before, total, joined_at, freed_at};

use crate::kind::NoSlice;
use crate::places::{count_before, is_published_slice, join_next, place_of, take_front};
use crate::slices::{Slice, SliceState};
use std::collections::VecDeque;

/// Takes the front of a free slice.
pub(crate) fn take(slices: &mut VecDeque<Slice>, free: &mut VecDeque<Slice>, s: Slice, len: u32)
    requires rising { IsRising slices.old.items }
    requires room { deque_len slices.old < deque_capacity slices.old }
    requires len { IsLength len }
    requires found { slice_at s.offset slices.old.items ≡ Some s }
    requires fit { is_fit len s ≡ true }
    requires inside { s.offset + length_at s.offset slices.old.items < 2 ^ 32 }
    requires listed { free.old.items ≡ filter is_free slices.old.items }
    ensures slices { slices.new.items ≡ with_alloc s.offset len slices.old.items }
    ensures sound { (size : ℕ) → IsPool size slices.old.items → IsPool size slices.new.items }
    ensures listed { free.new.items ≡ filter is_free slices.new.items }
    ensures capacity { deque_capacity slices.old ≤ deque_capacity slices.new }
    ensures capacity_free { deque_capacity free.new ≡ deque_capacity free.old }
    ensures len { deque_len slices.new ≤ deque_len slices.old + 1 }
{
    let i = count_before(free, s.offset.into());
    take_front(slices, s.offset, len);
    if len < s.length {
        free[i] = Slice {
            offset: s.offset + len,
            length: s.length - len,
            state: SliceState::Free,
        };
    } else {
        free.remove(i);
    }
}

/// Joins the slice at a place with the one behind it, which stands at the place `at` among the free
/// ones, if both are free.
fn join(slices: &mut VecDeque<Slice>, free: &mut VecDeque<Slice>, i: usize, at: usize)
    requires within { i < deque_len slices.old }
    requires inside { total slices.old.items < 2 ^ 32 }
    requires place { at ≡ free_before (i + 1) slices.old.items }
    requires listed { free.old.items ≡ filter is_free slices.old.items }
    ensures slices { slices.new.items ≡ joined_at i slices.old.items }
    ensures listed { free.new.items ≡ filter is_free slices.new.items }
    ensures capacity { deque_capacity slices.new ≡ deque_capacity slices.old }
    ensures capacity_free { deque_capacity free.new ≡ deque_capacity free.old }
    ensures len { deque_len slices.new ≤ deque_len slices.old }
{
    if let Some(joined) = join_next(slices, i) {
        free[at - 1] = joined.both;
        free.remove(at);
    }
}

/// Frees the slice in use at a place, and joins it with the one behind it, if that is free. The
/// answer is its place among the free ones.
fn free_at(slices: &mut VecDeque<Slice>, free: &mut VecDeque<Slice>, i: usize) -> usize
    requires rising { IsRising slices.old.items }
    requires within { i < deque_len slices.old }
    requires inside { total slices.old.items < 2 ^ 32 }
    requires room { deque_len slices.old ≤ deque_capacity free.old }
    requires used { IsUsedAt slices.old.items i }
    requires listed { free.old.items ≡ filter is_free slices.old.items }
    ensures place { result ≡ free_before i slices.new.items }
    ensures slices { slices.new.items ≡ joined_at i (freed_at i slices.old.items) }
    ensures listed { free.new.items ≡ filter is_free slices.new.items }
    ensures total { total slices.new.items ≡ total slices.old.items }
    ensures capacity { deque_capacity slices.new ≡ deque_capacity slices.old }
    ensures capacity_free { deque_capacity free.old ≤ deque_capacity free.new }
    ensures len { deque_len slices.new ≤ deque_len slices.old }
    ensures within { i < deque_len slices.new }
{
    let freed = Slice {
        state: SliceState::Free,
        ..slices[i]
    };
    slices[i] = freed;
    let at = count_before(free, freed.offset.into());
    match join_next(slices, i) {
        Some(joined) => free[at] = joined.both,
        None => match free.insert(at, freed) {
            Ok(()) => {}
            Err(_) => unreachable!(),
        },
    }
    at
}

/// Frees the slice in use at a place, and joins it with its free neighbours.
fn give_back(slices: &mut VecDeque<Slice>, free: &mut VecDeque<Slice>, i: usize)
    requires rising { IsRising slices.old.items }
    requires within { i < deque_len slices.old }
    requires inside { total slices.old.items < 2 ^ 32 }
    requires merged { IsMerged slices.old.items }
    requires room { deque_len slices.old ≤ deque_capacity free.old }
    requires used { IsUsedAt slices.old.items i }
    requires listed { free.old.items ≡ filter is_free slices.old.items }
    ensures slices { slices.new.items ≡ merged (freed_at i slices.old.items) }
    ensures listed { free.new.items ≡ filter is_free slices.new.items }
    ensures capacity { deque_capacity slices.new ≡ deque_capacity slices.old }
    ensures capacity_free { deque_capacity free.old ≤ deque_capacity free.new }
    ensures len { deque_len slices.new ≤ deque_len slices.old }
{
    let at = free_at(slices, free, i);
    if i > 0 {
        join(slices, free, i - 1, at);
    }
}

/// Gives the unpublished slice back that begins at an offset.
pub(crate) fn cancel(slices: &mut VecDeque<Slice>, free: &mut VecDeque<Slice>, off: u32)
    requires rising { IsRising slices.old.items }
    requires unpublished { IsTrue (begins is_unpublished off slices.old.items) }
    requires inside { total slices.old.items < 2 ^ 32 }
    requires merged { IsMerged slices.old.items }
    requires room { deque_len slices.old ≤ deque_capacity free.old }
    requires listed { free.old.items ≡ filter is_free slices.old.items }
    ensures slices { slices.new.items ≡ given_back off slices.old.items }
    ensures sound { (size : ℕ) → IsPool size slices.old.items → IsPool size slices.new.items }
    ensures listed { free.new.items ≡ filter is_free slices.new.items }
    ensures capacity { deque_capacity slices.new ≡ deque_capacity slices.old }
    ensures capacity_free { deque_capacity free.old ≤ deque_capacity free.new }
    ensures len { deque_len slices.new ≤ deque_len slices.old }
{
    if let Some(i) = place_of(slices, off.into()) {
        give_back(slices, free, i);
    }
}

/// Gives the published slice back that begins at an offset, if there is one.
pub(crate) fn release(
    slices: &mut VecDeque<Slice>,
    free: &mut VecDeque<Slice>,
    off: u64,
) -> Result<(), NoSlice>
    requires rising { IsRising slices.old.items }
    requires inside { total slices.old.items < 2 ^ 32 }
    requires merged { IsMerged slices.old.items }
    requires room { deque_len slices.old ≤ deque_capacity free.old }
    requires listed { free.old.items ≡ filter is_free slices.old.items }
    ensures ok { is_ok result ≡ begins is_published off slices.old.items }
    ensures slices { slices.new.items
        ≡ (if is_ok result then given_back off slices.old.items else slices.old.items) }
    ensures sound { (size : ℕ) → IsPool size slices.old.items → IsPool size slices.new.items }
    ensures listed { free.new.items ≡ filter is_free slices.new.items }
    ensures capacity { deque_capacity slices.new ≡ deque_capacity slices.old }
    ensures capacity_free { deque_capacity free.old ≤ deque_capacity free.new }
    ensures len { deque_len slices.new ≤ deque_len slices.old }
{
    let Some(i) = place_of(slices, off) else {
        return Err(NoSlice);
    };
    if !is_published_slice(&slices[i]) {
        return Err(NoSlice);
    }
    give_back(slices, free, i);
    Ok(())
}
