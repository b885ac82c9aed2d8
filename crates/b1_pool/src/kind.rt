//! The calls of a pool.

ghost use Rattle.std.specs.Prelude.{◌≡◌, ℕ, ◌+◌, ◌≤◌, List, length, replicate, IsTrue, is_ok, OnOk, IfOk, IfErr, Some, if◌then◌else◌};
ghost use Rattle.b1_pool.specs.Slices.{IsPool, IsPoolSize, IsLength, IsBestFit, one_free, slice_at, begins, is_used, is_unpublished, is_published, length_at, largest_free, has_fit, best_fit, with_alloc, given_back, published};
ghost use Rattle.b1_pool.specs.Bytes.{bytes_from, written};
ghost use Rattle.b1_pool.specs.declared.slices.Slice.{Slice as Slices};
ghost use Rattle.b1_pool.specs.declared.slices.SliceState.TheVariants.{Unpublished};

use std::alloc::{AllocError, Global};

/// Want of memory.
pub type Memory = AllocError;

/// No free slice is long enough.
#[derive(Clone, Copy, Debug)]
pub struct Full {
    /// The length that was asked for.
    pub asked: u32,

    /// The greatest length of a free slice, 0 where none is free.
    pub largest: u32,
}

/// No published slice begins at that offset.
#[derive(Clone, Copy, Debug)]
pub struct NoSlice;

/// A pool of bytes that is cut into slices.
///
/// The slices cover the pool without gap or overlap, in the order of their offsets, and no two free
/// ones stand side by side. Lengths are multiples of 8, and at least 8.
pub trait PoolKind: Drop {
    /// The slices in the order of their offsets.
    ghost slices: { Self → List Slices };

    /// The bytes of the whole pool.
    ghost content: { Self → List ℕ };

    /// How many times `alloc` can be called before memory is asked for again.
    ghost spare: { Self → ℕ };

    /// A pool of `size` zero bytes, which is one free slice.
    fn make(alloc: Global, size: u32) -> Result<Self, Memory>
        requires { IsPoolSize size }
        ensures slices { IfOk result (λ p. slices p ≡ one_free size) }
        ensures content { IfOk result (λ p. content p ≡ replicate size 0) }
        ensures sound { IfOk result (λ p. IsPool (length (content p)) (slices p)) };

    /// Makes room for at least one `alloc`. Want of memory leaves the pool as it was.
    fn reserve(&mut self) -> Result<(), Memory>
        ensures ok { OnOk result (1 ≤ spare self.new) }
        ensures slices { slices self.new ≡ slices self.old }
        ensures content { content self.new ≡ content self.old }
        ensures spare { spare self.old ≤ spare self.new }
        ensures sound { IsPool (length (content self.new)) (slices self.new) };

    /// Whether a free slice is at least `len` bytes long.
    fn fits(&self, len: u32) -> Result<(), Full>
        requires { IsLength len }
        ensures ok { is_ok result ≡ has_fit len (slices self.now) }
        ensures full { IfErr result (λ e. e
            ≡ record { asked = len; largest = largest_free (slices self.now) }) }
        ensures sound { IsPool (length (content self.now)) (slices self.now) };

    /// Takes the front of the least free slice that fits, the one at the lowest offset among equals.
    /// What it takes is unpublished, and the rest of that slice stays free.
    fn alloc(&mut self, len: u32) -> u32
        requires room { 1 ≤ spare self.old }
        requires len { IsLength len }
        requires fit { IsTrue (has_fit len (slices self.old)) }
        ensures offset { best_fit len (slices self.old) ≡ Some result }
        ensures least { IsBestFit len (slices self.old) result }
        ensures slices { slices self.new ≡ with_alloc result len (slices self.old) }
        ensures taken { slice_at result (slices self.new)
            ≡ Some (record { offset = result; length = len; state = Unpublished }) }
        ensures content { content self.new ≡ content self.old }
        ensures spare { spare self.old ≤ spare self.new + 1 }
        ensures sound { IsPool (length (content self.new)) (slices self.new) };

    /// Writes bytes into the slice that begins at `off`, from its byte `at` on, and changes no other byte.
    fn write(&mut self, off: u32, at: u32, bytes: &[u8])
        requires used { IsTrue (begins is_used off (slices self.old)) }
        requires within { at + length bytes.now ≤ length_at off (slices self.old) }
        ensures content { content self.new ≡ written (off + at) bytes.now (content self.old) }
        ensures slices { slices self.new ≡ slices self.old }
        ensures spare { spare self.new ≡ spare self.old }
        ensures sound { IsPool (length (content self.new)) (slices self.new) };

    /// Publishes an unpublished slice.
    fn publish(&mut self, off: u32)
        requires { IsTrue (begins is_unpublished off (slices self.old)) }
        ensures slices { slices self.new ≡ published off (slices self.old) }
        ensures content { content self.new ≡ content self.old }
        ensures spare { spare self.new ≡ spare self.old }
        ensures sound { IsPool (length (content self.new)) (slices self.new) };

    /// Gives an unpublished slice back. It is joined with its free neighbours.
    fn cancel(&mut self, off: u32)
        requires { IsTrue (begins is_unpublished off (slices self.old)) }
        ensures slices { slices self.new ≡ given_back off (slices self.old) }
        ensures content { content self.new ≡ content self.old }
        ensures spare { spare self.old ≤ spare self.new }
        ensures sound { IsPool (length (content self.new)) (slices self.new) };

    /// Gives a published slice back. It is joined with its free neighbours. Any offset may be given:
    /// where no published slice begins there, the pool stays as it was.
    fn release(&mut self, off: u64) -> Result<(), NoSlice>
        ensures ok { is_ok result ≡ begins is_published off (slices self.old) }
        ensures slices { slices self.new
            ≡ (if is_ok result then given_back off (slices self.old) else slices self.old) }
        ensures content { content self.new ≡ content self.old }
        ensures spare { spare self.old ≤ spare self.new }
        ensures sound { IsPool (length (content self.new)) (slices self.new) };

    /// Reads bytes of the slice that begins at `off`, from its byte `at` on, into the whole of `out`.
    fn read(&self, off: u32, at: u32, out: &mut [u8])
        requires used { IsTrue (begins is_used off (slices self.now)) }
        requires within { at + length out.old ≤ length_at off (slices self.now) }
        ensures out { out.new ≡ bytes_from (off + at) (length out.old) (content self.now) }
        ensures sound { IsPool (length (content self.now)) (slices self.now) };

    /// Gives all slices back: the pool is one free slice.
    fn clear(&mut self)
        ensures slices { slices self.new ≡ one_free (length (content self.old)) }
        ensures content { content self.new ≡ content self.old }
        ensures spare { spare self.old ≤ spare self.new }
        ensures sound { IsPool (length (content self.new)) (slices self.new) };
}
