//! A pool that keeps its slices in a list.

use crate::changes::{cancel, release, take};
use crate::kind::{Full, Memory, NoSlice, PoolKind};
use crate::places::{find_largest, find_least, publish_at};
use crate::slices::{Slice, SliceState};
use std::alloc::Global;
use std::collections::VecDeque;
use std::marker::Model;

/// A pool that keeps its slices in a list, in the order of their offsets, and beside it a list of
/// the free ones in the same order.
///
/// A slice is found by its offset in a time of log n; `fits` and `alloc` look at all free slices.
/// Where a slice is put into or taken out of a list, those on the shorter side of it move by one:
/// none at either end. Only `make` and `reserve` take memory.
#[derive(Drop)]
pub struct ListPool {
    slices: VecDeque<Slice>,
    free: VecDeque<Slice>,
    bytes: Vec<u8>,
}

impl Model for ListPool {
    ghost use Rattle.std.specs.Prelude.{◌-◌, length, min};
    ghost use Rattle.std.specs.VecDeque.{deque_len, deque_capacity};
    ghost use Rattle.b1_pool.specs.Bytes.{Shown};
    ghost use Rattle.b1_pool.specs.Places.{IsListed};

    ghost Value = { Shown };

    ghost view = { λ p. record {
      slices = p.slices.items;
      bytes = p.bytes.items;
      spare = min (deque_capacity p.slices) (deque_capacity p.free) - deque_len p.slices;
    } };

    ghost invariant = { λ p. IsListed (length p.bytes.items) p.slices.items p.free.items
        (deque_capacity p.free) };
}

impl PoolKind for ListPool {
    ghost slices = { λ p. p.slices };

    ghost content = { λ p. p.bytes };

    ghost spare = { λ p. p.spare };

    fn make(alloc: Global, size: u32) -> Result<Self, Memory> {
        let bytes = Vec::from_elem(alloc, 0, size as usize)?;
        let whole = Slice {
            offset: 0,
            length: size,
            state: SliceState::Free,
        };
        let mut slices = VecDeque::new(alloc);
        slices.push_back(whole)?;
        let mut free = VecDeque::new(alloc);
        free.push_back(whole)?;
        Ok(ListPool {
            slices,
            free,
            bytes,
        })
    }

    fn reserve(&mut self) -> Result<(), Memory> {
        self.slices.reserve(1)?;
        self.free.reserve(self.slices.len() + 1 - self.free.len())
    }

    fn fits(&self, len: u32) -> Result<(), Full> {
        if find_least(&self.free, len).is_some() {
            return Ok(());
        }
        Err(Full {
            asked: len,
            largest: find_largest(&self.free),
        })
    }

    fn alloc(&mut self, len: u32) -> u32 {
        match find_least(&self.free, len) {
            Some(s) => {
                take(&mut self.slices, &mut self.free, s, len);
                s.offset
            }
            None => unreachable!(),
        }
    }

    fn write(&mut self, off: u32, at: u32, bytes: &[u8]) {
        let start = off as usize + at as usize;
        self.bytes[start..start + bytes.len()].copy_from_slice(bytes);
    }

    fn publish(&mut self, off: u32) {
        publish_at(&mut self.slices, off);
    }

    fn cancel(&mut self, off: u32) {
        cancel(&mut self.slices, &mut self.free, off);
    }

    fn release(&mut self, off: u64) -> Result<(), NoSlice> {
        release(&mut self.slices, &mut self.free, off)
    }

    fn read(&self, off: u32, at: u32, out: &mut [u8]) {
        let start = off as usize + at as usize;
        out.copy_from_slice(&self.bytes[start..start + out.len()]);
    }

    fn clear(&mut self) {
        let whole = Slice {
            offset: 0,
            length: self.bytes.len() as u32,
            state: SliceState::Free,
        };
        self.slices.truncate(1);
        self.slices[0] = whole;
        self.free.clear();
        match self.free.insert(0, whole) {
            Ok(()) => {}
            Err(_) => unreachable!(),
        }
    }
}
