//! Changes of a list of slices and of the list of its free ones together.

ghost use Rattle.std.specs.Prelude.{◌≡◌, ℕ, ◌+◌, ◌^◌, ◌<◌, ◌≤◌, length, true, IsTrue, Some, is_ok, if◌then◌else◌, vec_len};
ghost use Rattle.std.specs.Vec.{vec_capacity};
ghost use Rattle.std.specs.VecDeque.{deque_len, deque_capacity};
ghost use Rattle.b1_pool.specs.Slices.{slice_at, length_at, begins, is_fit, is_unpublished, is_published, IsLength, IsMerged, IsPool, merged, with_alloc, given_back};
ghost use Rattle.b1_pool.specs.Places.{IsRising, IsUsedAt, total, joined_at, freed_at};
ghost use Rattle.b1_poolx.specs.Sizes.{by_size};

use crate::sizes::{put_in, take_out};
use b1_pool::places::{is_published_slice, join_next, place_of, take_front};
use b1_pool::{NoSlice, Slice, SliceState};
use std::collections::VecDeque;

/// Takes the front of a free slice.
pub fn take(slices: &mut VecDeque<Slice>, free: &mut Vec<Slice>, s: Slice, len: u32)
    requires rising { IsRising slices.old.items }
    requires room { deque_len slices.old < deque_capacity slices.old }
    requires len { IsLength len }
    requires found { slice_at s.offset slices.old.items ≡ Some s }
    requires fit { is_fit len s ≡ true }
    requires inside { s.offset + length_at s.offset slices.old.items < 2 ^ 32 }
    requires sized { free.old.items ≡ by_size slices.old.items }
    ensures slices { slices.new.items ≡ with_alloc s.offset len slices.old.items }
    ensures sound { (size : ℕ) → IsPool size slices.old.items → IsPool size slices.new.items }
    ensures sized { free.new.items ≡ by_size slices.new.items }
    ensures capacity { deque_capacity slices.old ≤ deque_capacity slices.new }
    ensures capacity_free { vec_capacity free.new ≡ vec_capacity free.old }
    ensures len { deque_len slices.new ≤ deque_len slices.old + 1 }
{
    take_out(free, s);
    take_front(slices, s.offset, len);
    if len < s.length {
        put_in(
            free,
            Slice {
                offset: s.offset + len,
                length: s.length - len,
                state: SliceState::Free,
            },
        );
    }
}

/// Joins the slice at a place with the one behind it, if both are free.
fn join(slices: &mut VecDeque<Slice>, free: &mut Vec<Slice>, i: usize)
    requires within { i < deque_len slices.old }
    requires inside { total slices.old.items < 2 ^ 32 }
    requires sized { free.old.items ≡ by_size slices.old.items }
    ensures slices { slices.new.items ≡ joined_at i slices.old.items }
    ensures sized { free.new.items ≡ by_size slices.new.items }
    ensures total { total slices.new.items ≡ total slices.old.items }
    ensures capacity { deque_capacity slices.new ≡ deque_capacity slices.old }
    ensures capacity_free { vec_capacity free.new ≡ vec_capacity free.old }
    ensures len { deque_len slices.new ≤ deque_len slices.old }
    ensures within { i < deque_len slices.new }
{
    if let Some(joined) = join_next(slices, i) {
        take_out(free, joined.first);
        take_out(free, joined.second);
        put_in(free, joined.both);
    }
}

/// Frees the slice in use at a place, and joins it with its free neighbours.
fn give_back(slices: &mut VecDeque<Slice>, free: &mut Vec<Slice>, i: usize)
    requires within { i < deque_len slices.old }
    requires inside { total slices.old.items < 2 ^ 32 }
    requires merged { IsMerged slices.old.items }
    requires room { deque_len slices.old ≤ vec_capacity free.old }
    requires used { IsUsedAt slices.old.items i }
    requires sized { free.old.items ≡ by_size slices.old.items }
    ensures slices { slices.new.items ≡ merged (freed_at i slices.old.items) }
    ensures sized { free.new.items ≡ by_size slices.new.items }
    ensures capacity { deque_capacity slices.new ≡ deque_capacity slices.old }
    ensures capacity_free { vec_capacity free.new ≡ vec_capacity free.old }
    ensures len { deque_len slices.new ≤ deque_len slices.old }
{
    let freed = Slice {
        state: SliceState::Free,
        ..slices[i]
    };
    slices[i] = freed;
    put_in(free, freed);
    join(slices, free, i);
    if i > 0 {
        join(slices, free, i - 1);
    }
}

/// Gives the unpublished slice back that begins at an offset.
pub fn cancel(slices: &mut VecDeque<Slice>, free: &mut Vec<Slice>, off: u32)
    requires rising { IsRising slices.old.items }
    requires unpublished { IsTrue (begins is_unpublished off slices.old.items) }
    requires inside { total slices.old.items < 2 ^ 32 }
    requires merged { IsMerged slices.old.items }
    requires room { deque_len slices.old ≤ vec_capacity free.old }
    requires sized { free.old.items ≡ by_size slices.old.items }
    ensures slices { slices.new.items ≡ given_back off slices.old.items }
    ensures sound { (size : ℕ) → IsPool size slices.old.items → IsPool size slices.new.items }
    ensures sized { free.new.items ≡ by_size slices.new.items }
    ensures capacity { deque_capacity slices.new ≡ deque_capacity slices.old }
    ensures capacity_free { vec_capacity free.new ≡ vec_capacity free.old }
    ensures len { deque_len slices.new ≤ deque_len slices.old }
{
    if let Some(i) = place_of(slices, off.into()) {
        give_back(slices, free, i);
    }
}

/// Gives the published slice back that begins at an offset, if there is one.
pub fn release(slices: &mut VecDeque<Slice>, free: &mut Vec<Slice>, off: u64) -> Result<(), NoSlice>
    requires rising { IsRising slices.old.items }
    requires inside { total slices.old.items < 2 ^ 32 }
    requires merged { IsMerged slices.old.items }
    requires room { deque_len slices.old ≤ vec_capacity free.old }
    requires sized { free.old.items ≡ by_size slices.old.items }
    ensures ok { is_ok result ≡ begins is_published off slices.old.items }
    ensures slices { slices.new.items
        ≡ (if is_ok result then given_back off slices.old.items else slices.old.items) }
    ensures sound { (size : ℕ) → IsPool size slices.old.items → IsPool size slices.new.items }
    ensures sized { free.new.items ≡ by_size slices.new.items }
    ensures capacity { deque_capacity slices.new ≡ deque_capacity slices.old }
    ensures capacity_free { vec_capacity free.new ≡ vec_capacity free.old }
    ensures len { deque_len slices.new ≤ deque_len slices.old }
{
    let Some(i) = place_of(slices, off) else {
        return Err(NoSlice);
    };
    if !is_published_slice(&slices[i]) {
        return Err(NoSlice);
    }
    give_back(slices, free, i);
    Ok(())
}
