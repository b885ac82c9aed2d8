// A source and a sink in memory, whose calls can be made small and be made to fail.
ghost use Rattle.std.specs.Prelude.{◌≡◌, ◌<◌, ◌≤◌, ◌↔◌, [], Some, length, take, Contains, IfOk, OnErr, IfSome, IsErr};
ghost use Rattle.b1_io.specs.Streams.{Rose, Gave, Took};
ghost use Rattle.b1_io.specs.Held.{given_to, after_read, after_failed_read, taken_of, MustFail, after_write, after_failed_write};

use crate::ends::{Failed, Sink, Source};
use std::alloc::{AllocError, Global};
use std::marker::Model;

/// A source over bytes in memory. A call gives a bounded number of bytes, and chosen calls fail.
#[derive(Drop)]
pub struct MemSource {
    bytes: Vec<u8>,
    at: usize,
    per_call: usize,
    fails: Vec<u64>,
    calls: u64,
    faults: u64,
}

impl Model for MemSource {
    ghost use Rattle.std.specs.Prelude.{◌<◌, ◌≤◌, drop, vec_len};
    ghost use Rattle.b1_io.specs.Held.{HeldSource};

    ghost Value = { HeldSource };

    ghost view = { λ s. record {
      left = drop s.at s.bytes.items;
      per_call = s.per_call;
      fails = s.fails.items;
      calls = s.calls;
      faults = s.faults;
    } };

    ghost invariant = { λ s. (s.at ≤ vec_len s.bytes) × (0 < s.per_call) };
}

impl MemSource {
    /// A source that gives `bytes`, `per_call` of them at most in each call. The calls whose numbers
    /// are in `fails`, counted from 0, fail; the count of calls stays at 2^64 - 1 once it is there.
    pub fn make(bytes: Vec<u8>, per_call: usize, fails: Vec<u64>) -> MemSource
        requires { 0 < per_call }
        ensures { result ≡ record {
          left = bytes.items;
          per_call = per_call;
          fails = fails.items;
          calls = 0;
          faults = 0;
        } }
    {
        MemSource {
            bytes,
            at: 0,
            per_call,
            fails,
            calls: 0,
            faults: 0,
        }
    }
}

impl Source for MemSource {
    ghost left = { λ s. Some s.left };

    ghost faults = { λ s. s.faults };

    /// Gives as many bytes as are left, as fit, and as a call may give. It fails exactly where its
    /// call is named.
    fn read(&mut self, buf: &mut [u8]) -> Result<usize, Failed>
        ensures within { IfOk result (λ n. n ≤ length buf.new) }
        ensures first { IfOk result (λ n.
            Gave (Some self.old.left) (Some self.new.left) (take n buf.new)) }
        ensures end { IfOk result (λ n. 0 < length buf.new
            → IfSome (Some self.old.left) (λ held. (n ≡ 0) ↔ (held ≡ []))) }
        ensures none { OnErr result (Some self.new.left ≡ Some self.old.left) }
        ensures fault { OnErr result (Rose self.old.faults self.new.faults) }
        ensures never_falls { self.old.faults ≤ self.new.faults }
        ensures fails { IsErr result ↔ Contains self.old.fails self.old.calls }
        ensures gives { IfOk result (λ n. n ≡ given_to self.old (length buf.old)) }
        ensures read { IfOk result (λ n. self.new ≡ after_read self.old n) }
        ensures failed { OnErr result (self.new ≡ after_failed_read self.old) }
    {
        let fails = self.fails.contains(&self.calls);
        self.calls = self.calls.saturating_add(1);
        if fails {
            self.faults = self.faults.saturating_add(1);
            return Err(Failed);
        }
        let n = self.per_call.min(buf.len().min(self.bytes.len() - self.at));
        buf[..n].copy_from_slice(&self.bytes[self.at..self.at + n]);
        self.at += n;
        Ok(n)
    }
}

/// A sink that holds what it takes. A call takes a bounded number of bytes, and chosen calls fail.
#[derive(Drop)]
pub struct MemSink {
    taken: Vec<u8>,
    room: usize,
    per_call: usize,
    fails: Vec<u64>,
    calls: u64,
    faults: u64,
}

impl Model for MemSink {
    ghost use Rattle.std.specs.Prelude.{◌<◌, ◌≤◌, vec_len, vec_capacity};
    ghost use Rattle.b1_io.specs.Held.{HeldSink};

    ghost Value = { HeldSink };

    ghost view = { λ s. record {
      taken = s.taken.items;
      room = s.room;
      per_call = s.per_call;
      fails = s.fails.items;
      calls = s.calls;
      faults = s.faults;
    } };

    ghost invariant = { λ s. (vec_len s.taken ≤ s.room) × (s.room ≤ vec_capacity s.taken)
        × (0 < s.per_call) };
}

impl MemSink {
    /// A sink with room for `room` bytes, which are allocated now; a call takes `per_call` of them at
    /// most. The calls whose numbers are in `fails`, counted from 0, fail, and so does a write of
    /// bytes where no room is free. The count of calls stays at 2^64 - 1 once it is there.
    pub fn make(
        alloc: Global,
        room: usize,
        per_call: usize,
        fails: Vec<u64>,
    ) -> Result<MemSink, AllocError>
        requires { 0 < per_call }
        ensures { IfOk result (λ s. s
            ≡ record {
              taken = [];
              room = room;
              per_call = per_call;
              fails = fails.items;
              calls = 0;
              faults = 0;
            }) }
    {
        let taken = Vec::with_capacity(alloc, room)?;
        Ok(MemSink {
            taken,
            room,
            per_call,
            fails,
            calls: 0,
            faults: 0,
        })
    }

    /// All bytes that were taken, in their order.
    pub fn taken(&self) -> &[u8]
        ensures { result.now ≡ self.now.taken }
    {
        self.taken.as_slice()
    }
}

impl Sink for MemSink {
    ghost taken = { λ s. Some s.taken };

    ghost faults = { λ s. s.faults };

    /// Takes as many bytes as there are, as have room, and as a call may take. It fails exactly
    /// where its call is named, or there are bytes and no room.
    fn write(&mut self, piece: &[u8]) -> Result<usize, Failed>
        ensures within { IfOk result (λ n. n ≤ length piece.now) }
        ensures some { IfOk result (λ n. 0 < length piece.now → 0 < n) }
        ensures takes { IfOk result (λ n.
            Took (Some self.old.taken) (Some self.new.taken) (take n piece.now)) }
        ensures none { OnErr result (Some self.new.taken ≡ Some self.old.taken) }
        ensures fault { OnErr result (Rose self.old.faults self.new.faults) }
        ensures never_falls { self.old.faults ≤ self.new.faults }
        ensures fails { IsErr result ↔ MustFail self.old (length piece.now) }
        ensures counts { IfOk result (λ n. n ≡ taken_of self.old (length piece.now)) }
        ensures written { IfOk result (λ n. self.new ≡ after_write self.old (take n piece.now)) }
        ensures failed { OnErr result (self.new ≡ after_failed_write self.old) }
    {
        let fails = self.fails.contains(&self.calls);
        self.calls = self.calls.saturating_add(1);
        let free = self.room - self.taken.len();
        if fails || (free == 0 && !piece.is_empty()) {
            self.faults = self.faults.saturating_add(1);
            return Err(Failed);
        }
        let n = self.per_call.min(piece.len().min(free));
        match self.taken.extend_from_slice(&piece[..n]) {
            Ok(()) => Ok(n),
            Err(_) => unreachable!(),
        }
    }
}
