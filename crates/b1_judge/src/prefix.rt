//! The part that asks for the next entry at each receipt.

ghost use Rattle.std.specs.Prelude.{◌≡◌, ◌↔◌, length, slice_get, Some, IsTrue};
ghost use Rattle.b1_model.specs.Names.{calls_of};
ghost use Rattle.b1_model.specs.declared.answers.Answer.TheVariants.{Got};
ghost use Rattle.b1_model.specs.Legal.{KeepsPrefix, IsNextReceipt, IsNextMessage, IsNextNotice, IsLeast};
ghost use Rattle.b1_judge.specs.Candidates.{IsAlong};
ghost use Rattle.b1_judge.specs.Frame.{IsCall};
ghost use Rattle.b1_judge_facts.specs.Walks.{holds_at};

use crate::candidates::has_candidate;
use crate::frame::Part;
use crate::reading::peer_calls;
use b1_judge_facts::{Facts, Walk};
use b1_model::{Answer, Call, Key, Receipt};
use std::alloc::{AllocError, Global};

/// Each receipt is the next entry of the bus order for its peer, in key and kind.
#[derive(Drop)]
pub(crate) struct Prefix<'f, 'a> {
    pub alloc: Global,
    pub facts: &'f Facts<'a>,
}

impl<'f, 'a> Part for Prefix<'f, 'a> {
    ghost many = { λ x. length x.facts.now.rec.peers };

    ghost tries = { λ x. IsCall x.facts.now.rec };

    ghost keeps = { λ x. KeepsPrefix x.facts.now.wires x.facts.now.rec };

    fn first_of(&self, peer: u32) -> Result<Option<u64>, AllocError> {
        let mut walk = Walk::start(self.alloc, self.facts, peer)?;
        for call in peer_calls(self.facts.rec(), peer) {
            if !keeps_prefix(self.facts, &walk, call) {
                return Ok(Some(walk.call() as u64));
            }
            walk = walk.pass(self.facts)?;
        }
        Ok(None)
    }

    ghost within = { λ x p k t. t.0 };
}

/// Whether the call before which a walk stands keeps the part.
fn keeps_prefix<'a>(facts: &Facts<'a>, walk: &Walk<'a>, call: &Call) -> bool
    requires along { IsAlong walk.now facts.now }
    requires call { slice_get (calls_of walk.now.rec walk.now.peer) walk.now.call ≡ Some call.now }
    ensures { IsTrue result ↔ holds_at KeepsPrefix walk.now }
{
    is_next_answer(facts, walk, &call.answer)
}

/// Whether an answer, if it is a receipt, is the next entry.
fn is_next_answer<'a>(facts: &Facts<'a>, walk: &Walk<'a>, answer: &Answer) -> bool
    requires { IsAlong walk.now facts.now }
    ensures { IsTrue result ↔ holds_at IsNextReceipt walk.now answer.now }
{
    match answer {
        Answer::Got(receipt) => is_next_receipt(facts, walk, receipt),
        _ => true,
    }
}

/// Whether a receipt, if it is no release notice, is the next entry.
fn is_next_receipt<'a>(facts: &Facts<'a>, walk: &Walk<'a>, receipt: &Receipt) -> bool
    requires { IsAlong walk.now facts.now }
    ensures { IsTrue result ↔ holds_at IsNextReceipt walk.now (Got receipt.now) }
{
    match receipt {
        Receipt::Message { key, .. } => is_next_message(facts, walk, key),
        Receipt::Destroyed { key, .. } => is_next_notice(facts, walk, key),
        Receipt::Released { .. } => true,
    }
}

/// Whether the next entry is the message with a key.
fn is_next_message<'a>(facts: &Facts<'a>, walk: &Walk<'a>, key: &Key) -> bool
    requires { IsAlong walk.now facts.now }
    ensures { IsTrue result ↔ holds_at IsNextMessage walk.now key.now }
{
    walk.is_message(facts, key) && is_least(facts, walk, key)
}

/// Whether the next entry is the destroy notice with a key.
fn is_next_notice<'a>(facts: &Facts<'a>, walk: &Walk<'a>, key: &Key) -> bool
    requires { IsAlong walk.now facts.now }
    ensures { IsTrue result ↔ holds_at IsNextNotice walk.now key.now }
{
    walk.is_notice(facts, key) && is_least(facts, walk, key)
}

/// Whether no entry with a smaller key may be received.
fn is_least<'a>(facts: &Facts<'a>, walk: &Walk<'a>, key: &Key) -> bool
    requires { IsAlong walk.now facts.now }
    ensures { IsTrue result ↔ holds_at IsLeast walk.now key.now }
{
    !has_candidate(facts, walk, Some(*key))
}
