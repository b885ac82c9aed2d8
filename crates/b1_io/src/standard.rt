// The standard input and output of the process. What they give and take is not known.
ghost use Rattle.std.specs.Prelude.{◌≡◌, ◌<◌, ◌≤◌, None, length, IfOk, OnOk, OnErr};
ghost use Rattle.b1_io.specs.Streams.{Rose};
ghost use Rattle.b1_io.specs.Held.{counted};

use crate::ends::{Failed, Sink, Source};
use std::io::Read;
use std::marker::Model;

/// The standard input. It tells nothing of what is left, and is seen as its count of faults.
#[derive(Drop)]
pub struct StdSource<R: Input> {
    reader: R::Reader,
    faults: u64,
}

impl<R: Input> Model for StdSource<R> {
    ghost use Rattle.std.specs.Prelude.{ℕ};

    ghost Value = { ℕ };

    ghost view = { λ s. s.faults };
}

impl<R: Input> StdSource<R> {
    /// The standard input of the runtime, with no fault yet.
    pub fn make(rt: &R) -> StdSource<R>
        ensures { result ≡ 0 }
    {
        StdSource {
            reader: rt.reader(),
            faults: 0,
        }
    }
}

impl<R: Input> Source for StdSource<R> {
    ghost left = { λ _. None };

    ghost faults = { λ s. s };

    /// Reads once. Each error of the system is a fault.
    fn read(&mut self, buf: &mut [u8]) -> Result<usize, Failed>
        ensures within { IfOk result (λ n. n ≤ length buf.new) }
        ensures fault { OnErr result (Rose self.old self.new) }
        ensures never_falls { self.old ≤ self.new }
        ensures counts { OnErr result (self.new ≡ counted self.old) }
        ensures same { OnOk result (self.new ≡ self.old) }
    {
        match self.reader.read(buf) {
            Ok(n) => Ok(n),
            Err(_) => {
                self.faults = self.faults.saturating_add(1);
                Err(Failed)
            }
        }
    }
}

/// The standard output, with no buffer behind it. It tells nothing of what was taken, and is seen as
/// its count of faults.
#[derive(Drop)]
pub struct StdSink<R: Print> {
    rt: R,
    faults: u64,
}

impl<R: Print> Model for StdSink<R> {
    ghost use Rattle.std.specs.Prelude.{ℕ};

    ghost Value = { ℕ };

    ghost view = { λ s. s.faults };
}

impl<R: Print> StdSink<R> {
    /// The standard output of the runtime, with no fault yet.
    pub fn make(rt: R) -> StdSink<R>
        ensures { result ≡ 0 }
    {
        StdSink { rt, faults: 0 }
    }
}

impl<R: Print> Sink for StdSink<R> {
    ghost taken = { λ _. None };

    ghost faults = { λ s. s };

    /// Writes once. Each error of the system is a fault, and so is a write that takes no byte of some.
    fn write(&mut self, piece: &[u8]) -> Result<usize, Failed>
        ensures within { IfOk result (λ n. n ≤ length piece.now) }
        ensures some { IfOk result (λ n. 0 < length piece.now → 0 < n) }
        ensures fault { OnErr result (Rose self.old self.new) }
        ensures never_falls { self.old ≤ self.new }
        ensures counts { OnErr result (self.new ≡ counted self.old) }
        ensures same { OnOk result (self.new ≡ self.old) }
    {
        match self.rt.write_some(piece) {
            Ok(n) if n > 0 || piece.is_empty() => Ok(n),
            _ => {
                self.faults = self.faults.saturating_add(1);
                Err(Failed)
            }
        }
    }
}
