//! The first break of any part, over peers and calls.

ghost use Rattle.std.specs.Prelude.{◌≡◌, ℕ, ◌<◌, IfOk};
ghost use Rattle.b1_judge.specs.Frame.{IsFirstCall, IsFirstPlace};

use std::alloc::AllocError;

/// One part of what is asked of a record: at which places it is tried, and what keeps it there.
pub(crate) trait Part {
    ghost many: { Self → ℕ };

    ghost tries: { Self → ℕ → ℕ → Type 0 };

    ghost keeps: { Self → ℕ → ℕ → Type 0 };

    /// The first call of a peer that breaks the part.
    fn first_of(&self, peer: u32) -> Result<Option<u64>, AllocError>
        requires { peer < many self.now }
        ensures { IfOk result (IsFirstCall (tries self.now peer) (keeps self.now peer)) };

    ghost within: { (x : Self) (p k : ℕ) → tries x p k → p < many x };
}

/// The first peer and call that break a part.
pub(crate) fn first_break<P: Part>(part: &P, peers: u32) -> Result<Option<(u32, u64)>, AllocError>
    requires { peers ≡ P.many part.now }
    ensures { IfOk result (IsFirstPlace (P.tries part.now) (P.keeps part.now)) }
{
    for peer in 0..peers {
        if let Some(call) = part.first_of(peer)? {
            return Ok(Some((peer, call)));
        }
    }
    Ok(None)
}
