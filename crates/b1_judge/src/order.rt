//! The part that asks for rising stamps.

ghost use Rattle.std.specs.Prelude.{ℕ, ◌<◌, ◌↔◌, length, take, IsTrue};
ghost use Rattle.b1_model.specs.Names.{calls_of};
ghost use Rattle.b1_model.specs.Legal.{KeepsOrder};
ghost use Rattle.b1_judge.specs.Frame.{IsCall};
ghost use Rattle.b1_judge.specs.Stamps.{IsBelow, IsMost};

use crate::frame::Part;
use crate::reading::{given_stamp, known_stamp, peer_calls};
use b1_model::Record;
use std::alloc::AllocError;

/// The stamp of a send or a destruction is above all that its peer gave or received before.
#[derive(Drop)]
pub(crate) struct Order<'a> {
    pub rec: &'a Record,
}

impl<'a> Part for Order<'a> {
    ghost many = { λ x. length x.rec.now.peers };

    ghost tries = { λ x. IsCall x.rec.now };

    ghost keeps = { λ x. KeepsOrder x.rec.now };

    fn first_of(&self, peer: u32) -> Result<Option<u64>, AllocError> {
        let calls = peer_calls(self.rec, peer);
        let mut most = None;
        for call in 0..calls.len() {
            if !keeps_order(self.rec, peer, call, most) {
                return Ok(Some(call as u64));
            }
            most = greater(most, known_stamp(&calls[call].answer));
        }
        Ok(None)
    }

    ghost within = { λ x p k t. t.0 };
}

/// Whether a call keeps the part, where this is the greatest stamp that the earlier ones gave or received.
fn keeps_order(rec: &Record, peer: u32, call: usize, most: Option<u64>) -> bool
    requires call { call < length (calls_of rec.now peer) }
    requires most { IsMost most (take call (calls_of rec.now peer)) }
    ensures { IsTrue result ↔ KeepsOrder rec.now peer call }
{
    let calls = peer_calls(rec, peer);
    match given_stamp(&calls[call].answer) {
        Some(stamp) => is_below(most, stamp),
        None => true,
    }
}

/// The greater of two stamps, or the one that there is.
fn greater(one: Option<u64>, other: Option<u64>) -> Option<u64>
    ensures { (t : ℕ) → IsBelow result t ↔ (IsBelow one t × IsBelow other t) }
{
    match (one, other) {
        (Some(one), Some(other)) => Some(one.max(other)),
        (None, other) => other,
        (one, None) => one,
    }
}

/// Whether a stamp, if there is one, is below another.
fn is_below(seen: Option<u64>, stamp: u64) -> bool
    ensures { IsTrue result ↔ IsBelow seen stamp }
{
    match seen {
        Some(seen) => seen < stamp,
        None => true,
    }
}
