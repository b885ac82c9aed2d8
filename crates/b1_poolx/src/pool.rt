//! A pool that finds its free slices by size.

ghost use Rattle.std.specs.Prelude.{◌≡◌, ◌+◌, ◌-◌, ◌*◌, ◌^◌, ◌≤◌, length, Some};
ghost use Rattle.b1_pool.specs.Slices.{best_fit};
ghost use Rattle.b1_poolx.specs.Sizes.{free_count};

use crate::changes::{cancel, release, take};
use crate::sizes::{find, find_uncounted, last_length_of};
use b1_cost::Steps;
use b1_pool::places::publish_at;
use b1_pool::{Full, Memory, NoSlice, PoolKind, Slice, SliceState};
use std::alloc::Global;
use std::collections::VecDeque;
use std::marker::Model;
use std::sync::ledger::Ledger;

/// A pool that keeps its free slices in the order of their lengths and then of their offsets, beside
/// the list of all its slices in the order of their offsets.
///
/// A slice is found in either list in a time of log n. Where one is put into or taken out of the list of
/// all, those on the shorter side of it move by one: none at either end. In the list of the free ones
/// those behind it move. Only `make` and `reserve` take memory.
#[derive(Drop)]
pub struct SizedPool {
    slices: VecDeque<Slice>,
    free: Vec<Slice>,
    bytes: Vec<u8>,
}

impl Model for SizedPool {
    ghost use Rattle.std.specs.Prelude.{◌-◌, length, min};
    ghost use Rattle.std.specs.Vec.{vec_capacity};
    ghost use Rattle.std.specs.VecDeque.{deque_len, deque_capacity};
    ghost use Rattle.b1_pool.specs.Bytes.{Shown};
    ghost use Rattle.b1_poolx.specs.Sizes.{IsSized};

    ghost Value = { Shown };

    ghost view = { λ p. record {
      slices = p.slices.items;
      bytes = p.bytes.items;
      spare = min (deque_capacity p.slices) (vec_capacity p.free) - deque_len p.slices;
    } };

    ghost invariant = { λ p. IsSized (length p.bytes.items) p.slices.items p.free.items
        (vec_capacity p.free) };
}

impl SizedPool {
    /// The offset that `alloc(len)` would give, and None where no free slice fits. A step is a
    /// comparison of two lengths.
    pub fn find_counted<L: Ledger>(&self, len: u32, steps: &mut Steps<L>) -> Option<u32>
        ensures found { result ≡ best_fit len self.now.slices }
        ensures rises { steps.old ≤ steps.new }
        ensures cost { 2 ^ (steps.new - steps.old) ≤ 2 * free_count self.now.slices + 1 }
    {
        match find(&self.free, len, steps) {
            Some(s) => Some(s.offset),
            None => None,
        }
    }
}

impl PoolKind for SizedPool {
    ghost slices = { λ p. p.slices };

    ghost content = { λ p. p.bytes };

    ghost spare = { λ p. p.spare };

    fn make(alloc: Global, size: u32) -> Result<Self, Memory> {
        let bytes = Vec::from_elem(alloc, 0, size as usize)?;
        let whole = Slice {
            offset: 0,
            length: size,
            state: SliceState::Free,
        };
        let mut slices = VecDeque::new(alloc);
        slices.push_back(whole)?;
        let mut free = Vec::new(alloc);
        free.push(whole)?;
        Ok(SizedPool {
            slices,
            free,
            bytes,
        })
    }

    fn reserve(&mut self) -> Result<(), Memory> {
        self.slices.reserve(1)?;
        self.free.reserve(self.slices.len() + 1 - self.free.len())
    }

    fn fits(&self, len: u32) -> Result<(), Full> {
        if find_uncounted(&self.free, len).is_some() {
            return Ok(());
        }
        Err(Full {
            asked: len,
            largest: last_length_of(&self.free),
        })
    }

    fn alloc(&mut self, len: u32) -> u32 {
        match find_uncounted(&self.free, len) {
            Some(s) => {
                take(&mut self.slices, &mut self.free, s, len);
                s.offset
            }
            None => unreachable!(),
        }
    }

    fn write(&mut self, off: u32, at: u32, bytes: &[u8]) {
        let start = off as usize + at as usize;
        self.bytes[start..start + bytes.len()].copy_from_slice(bytes);
    }

    fn publish(&mut self, off: u32) {
        publish_at(&mut self.slices, off);
    }

    fn cancel(&mut self, off: u32) {
        cancel(&mut self.slices, &mut self.free, off);
    }

    fn release(&mut self, off: u64) -> Result<(), NoSlice> {
        release(&mut self.slices, &mut self.free, off)
    }

    fn read(&self, off: u32, at: u32, out: &mut [u8]) {
        let start = off as usize + at as usize;
        out.copy_from_slice(&self.bytes[start..start + out.len()]);
    }

    fn clear(&mut self) {
        let whole = Slice {
            offset: 0,
            length: self.bytes.len() as u32,
            state: SliceState::Free,
        };
        self.slices.truncate(1);
        self.slices[0] = whole;
        self.free.clear();
        match self.free.insert(0, whole) {
            Ok(()) => {}
            Err(_) => unreachable!(),
        }
    }
}
