ghost use Rattle.std.specs.Prelude.{◌≡◌};
ghost use Rattle.b1_report_lines.specs.declared.unread.Unread.TheVariants.{Stopped};

use std::alloc::{AllocError, AllocFailed};

/// Why bytes are no text.
#[derive(Clone, Copy, Debug, PartialEq, Eq)]
pub enum Stop {
    /// They end too early: some text begins with them.
    Cut,
    /// No text begins with them.
    Broken,
}

/// Why a text was not read.
#[derive(Debug, Drop, PartialEq, Eq)]
pub enum Unread {
    /// The bytes are no text.
    Stopped(Stop),
    /// Memory ran out, which says nothing of the bytes.
    Memory,
}

impl From<AllocError> for Unread {
    ghost use Rattle.b1_report_lines.specs.declared.unread.Unread.TheVariants.{Memory};

    ghost from_gives = { λ _ e. e ≡ Memory };

    fn from(_e: AllocError) -> Unread {
        Unread::Memory
    }
}

impl<T: Drop> From<AllocFailed<T>> for Unread {
    ghost use Rattle.b1_report_lines.specs.declared.unread.Unread.TheVariants.{Memory};

    ghost from_gives = { λ _ e. e ≡ Memory };

    fn from(_e: AllocFailed<T>) -> Unread {
        Unread::Memory
    }
}

impl From<Stop> for Unread {
    ghost from_gives = { λ stop e. e ≡ Stopped stop };

    fn from(stop: Stop) -> Unread {
        Unread::Stopped(stop)
    }
}
