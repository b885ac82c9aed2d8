//! A peer's pool in the machine's words.

ghost use Rattle.std.specs.Prelude.{◌≡◌, ◌+◌, ◌*◌, ◌≤◌, IsTrue, IfOk, OnOk, Some, None, length, replicate, if◌then◌else◌};
ghost use Rattle.b1_model.specs.declared.tables.Usage.TheVariants.{Unpublished};
ghost use Rattle.b1_model.specs.MachinePool.{slice_len, taken, taken_offset, given_back, published, is_received, whole_pool, slice_at};
ghost use Rattle.b1_pool.specs.Slices.{IsPoolSize};
ghost use Rattle.b1_pool.specs.Bytes.{written};
ghost use Rattle.b1_peer_pool.specs.Slices.{is_queued, len_at};
ghost use Rattle.b1_peer_pool.specs.Content.{padded, number_bytes, Holds, SameElsewhere};
ghost use Rattle.b1_peer_pool.specs.Stored.{IsStored, full_reason};

use crate::fill::{put_message, put_numbers};
use crate::lengths::slice_length;
use b1_model::{MOST_HANDLES, MOST_PAYLOAD, Reason};
use b1_pool::{Full, PoolKind};
use std::alloc::{AllocError, Global};
use std::marker::Model;

/// A pool of 8 to 4,194,304 bytes, cut into slices: one for each queued message and for each received one that wasn't
/// given back, and what is free between them.
#[derive(Drop)]
pub struct Store<P: PoolKind> {
    pool: P,
    size: u32,
}

impl<P: PoolKind> Model for Store<P> {
    ghost use Rattle.b1_peer_pool.specs.Words.{all_in_words};
    ghost use Rattle.b1_peer_pool.specs.Stored.{Stored, IsStored};

    ghost Value = { Stored };

    ghost view = { λ s. record {
      size = s.size;
      slices = all_in_words (P.slices s.pool);
      bytes = P.content s.pool;
      spare = P.spare s.pool;
    } };

    ghost invariant = { λ s. IsStored (record {
      size = s.size;
      slices = all_in_words (P.slices s.pool);
      bytes = P.content s.pool;
      spare = P.spare s.pool;
    }) };
}

impl<P: PoolKind> Store<P> {
    /// A store of `size` zero bytes, all free: a multiple of 8 from 8 to 4,194,304. An error is want of memory.
    pub fn make(alloc: Global, size: u32) -> Result<Self, AllocError>
        requires { IsPoolSize size }
        ensures size { IfOk result (λ s. s.size ≡ size) }
        ensures slices { IfOk result (λ s. s.slices ≡ whole_pool size) }
        ensures bytes { IfOk result (λ s. s.bytes ≡ replicate size 0) }
        ensures sound { IfOk result (λ s. IsStored s) }
    {
        let pool = P::make(alloc, size)?;
        Ok(Store { pool, size })
    }

    /// Makes room for at least one message. Want of memory leaves the store as it was.
    pub fn reserve(&mut self) -> Result<(), AllocError>
        ensures ok { OnOk result (1 ≤ self.new.spare) }
        ensures size { self.new.size ≡ self.old.size }
        ensures slices { self.new.slices ≡ self.old.slices }
        ensures bytes { self.new.bytes ≡ self.old.bytes }
        ensures spare { self.old.spare ≤ self.new.spare }
        ensures sound { IsStored self.new }
    {
        self.pool.reserve()
    }

    /// How many bytes there are, from 8 to 4,194,304.
    pub fn size(&self) -> u32
        ensures size { result ≡ self.now.size }
        ensures sound { IsStored self.now }
    {
        self.size
    }

    /// Why a message is refused, if no free slice is long enough for its payload of at most `MOST_PAYLOAD` bytes and its
    /// handles, at most `MOST_HANDLES`.
    pub fn refusal(&self, payload: u32, handles: u32) -> Option<Reason>
        requires payload { payload ≤ MOST_PAYLOAD }
        requires handles { handles ≤ MOST_HANDLES }
        ensures reason { result ≡ full_reason self.now.slices payload handles }
        ensures sound { IsStored self.now }
    {
        match self.pool.fits(slice_length(payload, handles)) {
            Ok(()) => None,
            Err(full) => Some(Reason::Full {
                asked: full.asked,
                largest: full.largest,
            }),
        }
    }

    /// Takes a slice for a message that isn't refused, of at most `MOST_PAYLOAD` bytes and `MOST_HANDLES` handles, and writes the payload
    /// at its begin, with zeros up to a multiple of 8. The answer is where the slice begins. Other slices in use keep
    /// their bytes.
    pub fn put(&mut self, payload: &[u8], handles: u32) -> u32
        requires spare { 1 ≤ self.old.spare }
        requires payload { length payload.now ≤ MOST_PAYLOAD }
        requires handles { handles ≤ MOST_HANDLES }
        requires fits { full_reason self.old.slices (length payload.now) handles ≡ None }
        ensures offset { result ≡ taken_offset
            (slice_len (length payload.now) handles) self.old.slices }
        ensures size { self.new.size ≡ self.old.size }
        ensures slices { self.new.slices
            ≡ taken (slice_len (length payload.now) handles) self.old.slices }
        ensures taken { slice_at result self.new.slices
            ≡ Some (record {
              offset = result;
              len = slice_len (length payload.now) handles;
              usage = Unpublished;
            }) }
        ensures bytes { self.new.bytes ≡ written result (padded payload.now) self.old.bytes }
        ensures holds { Holds result self.new.bytes (padded payload.now) }
        ensures others { SameElsewhere result self.old.slices self.old.bytes self.new.bytes }
        ensures spare { self.old.spare ≤ self.new.spare + 1 }
        ensures sound { IsStored self.new }
    {
        put_message(&mut self.pool, payload, handles)
    }

    /// Gives the slice of a queued message back. It is joined with its free neighbours.
    pub fn cancel(&mut self, offset: u32)
        requires { IsTrue (is_queued offset self.old.slices) }
        ensures size { self.new.size ≡ self.old.size }
        ensures slices { self.new.slices ≡ given_back offset self.old.slices }
        ensures bytes { self.new.bytes ≡ self.old.bytes }
        ensures spare { self.old.spare ≤ self.new.spare }
        ensures sound { IsStored self.new }
    {
        self.pool.cancel(offset);
    }

    /// Makes the slice of a queued message that of a received one, and writes the handles' numbers into it from its
    /// byte `at` on, eight bytes each, the lowest first. No other byte changes.
    pub fn publish(&mut self, offset: u32, at: u32, numbers: &[u64])
        requires queued { IsTrue (is_queued offset self.old.slices) }
        requires within { at + 8 * length numbers.now ≤ len_at offset self.old.slices }
        ensures size { self.new.size ≡ self.old.size }
        ensures slices { self.new.slices ≡ published offset self.old.slices }
        ensures bytes { self.new.bytes
            ≡ written (offset + at) (number_bytes numbers.now) self.old.bytes }
        ensures holds { Holds (offset + at) self.new.bytes (number_bytes numbers.now) }
        ensures others { SameElsewhere offset self.old.slices self.old.bytes self.new.bytes }
        ensures spare { self.new.spare ≡ self.old.spare }
        ensures sound { IsStored self.new }
    {
        put_numbers(&mut self.pool, offset, at, numbers);
        self.pool.publish(offset);
    }

    /// Gives the slice of a received message back, if one begins at the offset; any offset may be given. The answer is
    /// whether there was one; where there was none, the store stays as it was.
    pub fn release(&mut self, offset: u64) -> bool
        ensures found { result ≡ is_received offset self.old.slices }
        ensures size { self.new.size ≡ self.old.size }
        ensures slices { self.new.slices
            ≡ (if is_received offset self.old.slices then given_back offset self.old.slices
            else self.old.slices) }
        ensures bytes { self.new.bytes ≡ self.old.bytes }
        ensures spare { self.old.spare ≤ self.new.spare }
        ensures sound { IsStored self.new }
    {
        self.pool.release(offset).is_ok()
    }

    /// Gives all slices back.
    pub fn clear(&mut self)
        ensures size { self.new.size ≡ self.old.size }
        ensures slices { self.new.slices ≡ whole_pool self.old.size }
        ensures bytes { self.new.bytes ≡ self.old.bytes }
        ensures spare { self.old.spare ≤ self.new.spare }
        ensures sound { IsStored self.new }
    {
        self.pool.clear();
    }
}
