// What a source and a sink of bytes promise, and what takes the pieces that a source gives.
ghost use Rattle.std.specs.Prelude.{◌≡◌, ◌<◌, ◌≤◌, ◌↔◌, ◌++◌, ℕ, List, [], Option, length, take, IfOk, OnErr, OnOk, IfSome};
ghost use Rattle.b1_io.specs.Streams.{Rose, Gave, Took};

use std::alloc::AllocError;

/// A read or a write that failed.
#[derive(Clone, Copy, Debug, PartialEq, Eq)]
pub struct Failed;

/// Where bytes come from.
///
/// `left` is what reads will still give, or `None` where the kind does not tell. `faults` counts the
/// reads that failed. It never falls, and may stay at 2^64 - 1 once it is there.
pub trait Source {
    ghost left: { Self → Option (List ℕ) };

    ghost faults: { Self → ℕ };

    /// Reads into the front of `buf`, and returns how many bytes it wrote there; the bytes behind
    /// them may be anything. A buffer with room gets none exactly where nothing was left. A read
    /// that fails takes nothing, and the count of faults rises.
    fn read(&mut self, buf: &mut [u8]) -> Result<usize, Failed>
        ensures within { IfOk result (λ n. n ≤ length buf.new) }
        ensures first { IfOk result (λ n. Gave (left self.old) (left self.new) (take n buf.new)) }
        ensures end { IfOk result (λ n. 0 < length buf.new
            → IfSome (left self.old) (λ held. (n ≡ 0) ↔ (held ≡ []))) }
        ensures none { OnErr result (left self.new ≡ left self.old) }
        ensures fault { OnErr result (Rose (faults self.old) (faults self.new)) }
        ensures never_falls { faults self.old ≤ faults self.new };
}

/// Where bytes go.
///
/// `taken` is all that was written, or `None` where the kind does not tell. `faults` counts the
/// writes that failed. It never falls, and may stay at 2^64 - 1 once it is there.
pub trait Sink {
    ghost taken: { Self → Option (List ℕ) };

    ghost faults: { Self → ℕ };

    /// Takes bytes from the front of `piece`, and returns how many: at least one where there is one.
    /// A write that fails takes nothing, and the count of faults rises.
    fn write(&mut self, piece: &[u8]) -> Result<usize, Failed>
        ensures within { IfOk result (λ n. n ≤ length piece.now) }
        ensures some { IfOk result (λ n. 0 < length piece.now → 0 < n) }
        ensures takes { IfOk result (λ n.
            Took (taken self.old) (taken self.new) (take n piece.now)) }
        ensures none { OnErr result (taken self.new ≡ taken self.old) }
        ensures fault { OnErr result (Rose (faults self.old) (faults self.new)) }
        ensures never_falls { faults self.old ≤ faults self.new };
}

/// What takes bytes that come in pieces.
///
/// `taken` is all that it has taken.
pub trait Pieces {
    ghost taken: { Self → List ℕ };

    /// Takes a piece behind what it has taken before. An error is want of memory, and may leave anything.
    fn take(&mut self, piece: &[u8]) -> Result<(), AllocError>
        ensures { OnOk result (taken self.new ≡ taken self.old ++ piece.now) };
}

impl Pieces for Vec<u8> {
    ghost taken = { λ v. v.items };

    fn take(&mut self, piece: &[u8]) -> Result<(), AllocError> {
        self.extend_from_slice(piece)
    }
}
