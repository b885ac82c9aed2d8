//! The faults of input: where bytes stop being in their grammar, and why.
#![tactic(auto)]

ghost use Rattle.std.specs.Prelude.{◌≡◌, Some};
ghost use Rattle.b1_errs.specs.declared.NotRead.TheVariants.{Memory};
ghost use Rattle.b1_errs.specs.Words.{word_of, HaveDistinctWords};

use std::alloc::{AllocError, AllocFailed};
use std::fmt;
use thiserror::Error;

#[cfg(test)]
mod tests;

/// Why bytes are not in their grammar.
#[derive(Clone, Copy, Debug, PartialEq, Eq)]
pub enum Cause {
    /// The input ends within a field.
    Short,
    /// The file does not begin with the bytes that name its format.
    Magic,
    /// The format's version is not one that is read.
    Version,
    /// A number of parts is outside of its limits.
    Count,
    /// A reserved field or padding is not zero.
    Reserved,
    /// A command's code is not known.
    Command,
    /// A command has flags that it cannot have.
    Flags,
    /// A number is outside of its range.
    Range,
    /// A wire cannot be made.
    Wiring,
    /// The length that is written is not the length that is there.
    Length,
    /// Bytes are left after the end.
    Trailing,
    /// The input is longer than its limit.
    Long,
    /// A line of a text is not in its form.
    Line,
}

impl fmt::Display for Cause {
    ghost output = { λ c. Some (word_of c) };

    fn fmt<W: fmt::Write>(&self, f: &mut fmt::Formatter<W>) -> fmt::Result {
        f.write_str(word(*self))
    }
}

/// Why input was not read.
#[derive(Debug, Drop, PartialEq, Eq, Error)]
pub enum NotRead {
    /// The input is not in its grammar.
    #[error("bad input at {at}: {cause}")]
    Bad {
        /// The place of the fault, in bytes from the start of the input.
        at: usize,
        /// The fault.
        cause: Cause,
    },
    /// Memory ran out, which says nothing of the input.
    #[error("out of memory")]
    Memory,
}

impl From<AllocError> for NotRead {
    ghost from_gives = { λ _ e. e ≡ Memory };

    fn from(_e: AllocError) -> NotRead {
        NotRead::Memory
    }
}

impl<T: Drop> From<AllocFailed<T>> for NotRead {
    ghost from_gives = { λ _ e. e ≡ Memory };

    fn from(_e: AllocFailed<T>) -> NotRead {
        NotRead::Memory
    }
}

/// The word that is printed for a cause: its name in lower-case letters.
pub fn word(cause: Cause) -> &'static str
    ensures { result.now ≡ word_of cause }
{
    match cause {
        Cause::Short => "short",
        Cause::Magic => "magic",
        Cause::Version => "version",
        Cause::Count => "count",
        Cause::Reserved => "reserved",
        Cause::Command => "command",
        Cause::Flags => "flags",
        Cause::Range => "range",
        Cause::Wiring => "wiring",
        Cause::Length => "length",
        Cause::Trailing => "trailing",
        Cause::Long => "long",
        Cause::Line => "line",
    }
}

/// Two different causes have different words, so a printed word tells its cause.
pub fn words_are_distinct()
    ensures { HaveDistinctWords }
{}
