ghost use Rattle.std.specs.Prelude.{◌≡◌, ◌+◌, ◌≤◌, IfOk, OnOk};
ghost use Rattle.b1_peer_dead.specs.Buffers.{AreEmpty};

use b1_model::NodeRef;
use std::alloc::{AllocError, Global};
use std::marker::Model;

/// Buffers for the arrival of a message.
#[derive(Debug, Drop)]
pub struct Buffers {
    /// For the references that are given up.
    pub refs: Vec<(NodeRef, u64)>,
    /// For the numbers of the handles.
    pub numbers: Vec<u64>,
}

impl Buffers {
    /// Empty buffers with room for `n` values each. An error is want of memory.
    pub fn make(alloc: Global, n: usize) -> Result<Buffers, AllocError>
        ensures { IfOk result (λ b. AreEmpty n b) }
    {
        Ok(Buffers {
            refs: Vec::with_capacity(alloc, n)?,
            numbers: Vec::with_capacity(alloc, n)?,
        })
    }
}

/// Empty buffers that were made beforehand, all for the same number of values.
#[derive(Debug, Drop)]
pub struct Stack {
    size: usize,
    sets: Vec<Buffers>,
}

impl Model for Stack {
    ghost use Rattle.std.specs.Prelude.{◌-◌, All, vec_len};
    ghost use Rattle.std.specs.Vec.{vec_capacity};
    ghost use Rattle.b1_peer_dead.specs.Buffers.{AreEmpty, StackSeen};

    ghost Value = { StackSeen };

    ghost view = { λ s. record {
      size = s.size;
      count = vec_len s.sets;
      spare = vec_capacity s.sets - vec_len s.sets;
    } };

    ghost invariant = { λ s. All (λ b. AreEmpty s.size b) s.sets.items };
}

impl Stack {
    /// No buffers, for `size` values each. It takes no memory.
    pub fn make(alloc: Global, size: usize) -> Stack
        ensures { result.size ≡ size }
    {
        Stack {
            size,
            sets: Vec::new(alloc),
        }
    }

    /// Makes room for one more pair of buffers. An error is want of memory; only room may have been gained then.
    pub fn reserve(&mut self) -> Result<(), AllocError>
        ensures kept { self.new ≡ record self.old { spare = self.new.spare } }
        ensures enough { OnOk result (1 ≤ self.new.spare) }
    {
        self.sets.reserve(1)
    }

    /// Puts in a pair of buffers, for which there is room.
    pub fn put(&mut self, set: Buffers)
        requires spare { 1 ≤ self.old.spare }
        requires empty { AreEmpty self.old.size set }
        ensures size { self.new.size ≡ self.old.size }
        ensures count { self.new.count ≡ self.old.count + 1 }
    {
        match self.sets.push(set) {
            Ok(()) => {}
            Err(_) => unreachable!(),
        }
    }

    /// Hands out a pair of buffers, of which at least one must be there.
    pub fn take(&mut self) -> Buffers
        requires { 1 ≤ self.old.count }
        ensures empty { AreEmpty self.old.size result }
        ensures size { self.new.size ≡ self.old.size }
        ensures count { self.new.count + 1 ≡ self.old.count }
    {
        match self.sets.pop() {
            Some(set) => set,
            None => unreachable!(),
        }
    }
}
