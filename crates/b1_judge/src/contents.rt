//! The part that asks for what was sent.

ghost use Rattle.std.specs.Prelude.{◌≡◌, ◌↔◌, length, slice_get, Some, IfOk, IsTrue};
ghost use Rattle.b1_model.specs.declared.answers.Answer.TheVariants.{Got};
ghost use Rattle.b1_model.specs.Names.{calls_of};
ghost use Rattle.b1_model.specs.Ledger.{to_at};
ghost use Rattle.b1_model.specs.Legal.{KeepsContents, IsWhatWasSent};
ghost use Rattle.b1_judge_facts.specs.Walks.{holds_at};
ghost use Rattle.b1_judge_facts.specs.Facts.{CarriesNone};
ghost use Rattle.b1_judge.specs.Candidates.{IsAlong};
ghost use Rattle.b1_judge.specs.Contents.{HasSent};
ghost use Rattle.b1_judge.specs.Frame.{IsCall};

use crate::frame::Part;
use crate::reading::peer_calls;
use b1_judge_facts::{Facts, Message, NodeId, Walk};
use b1_model::{Answer, Call, Key, Receipt};
use std::alloc::{AllocError, Global};

/// Each receipt has the number of its node, and a message's the bytes and the handles that were sent.
#[derive(Drop)]
pub(crate) struct Contents<'f, 'a> {
    pub alloc: Global,
    pub facts: &'f Facts<'a>,
}

impl<'f, 'a> Part for Contents<'f, 'a> {
    ghost many = { λ x. length x.facts.now.rec.peers };

    ghost tries = { λ x. IsCall x.facts.now.rec };

    ghost keeps = { λ x. KeepsContents x.facts.now.wires x.facts.now.rec };

    fn first_of(&self, peer: u32) -> Result<Option<u64>, AllocError> {
        let mut walk = Walk::start(self.alloc, self.facts, peer)?;
        for call in peer_calls(self.facts.rec(), peer) {
            if !keeps_contents(self.alloc, self.facts, &walk, call)? {
                return Ok(Some(walk.call() as u64));
            }
            walk = walk.pass(self.facts)?;
        }
        Ok(None)
    }

    ghost within = { λ x p k t. t.0 };
}

/// Whether the call before which a walk stands keeps the part.
fn keeps_contents<'a>(
    alloc: Global,
    facts: &Facts<'a>,
    walk: &Walk<'a>,
    call: &Call,
) -> Result<bool, AllocError>
    requires along { IsAlong walk.now facts.now }
    requires call { slice_get (calls_of walk.now.rec walk.now.peer) walk.now.call ≡ Some call.now }
    ensures { IfOk result (λ b. IsTrue b ↔ holds_at KeepsContents walk.now) }
{
    match &call.answer {
        Answer::Got(receipt) => has_receipt(alloc, facts, walk, receipt),
        _ => Ok(true),
    }
}

/// Whether a receipt, if it is no release notice, has what was sent.
fn has_receipt<'a>(
    alloc: Global,
    facts: &Facts<'a>,
    walk: &Walk<'a>,
    receipt: &Receipt,
) -> Result<bool, AllocError>
    requires along { IsAlong walk.now facts.now }
    requires none { CarriesNone walk.now.rec walk.now.peer walk.now.call }
    ensures { IfOk result (λ b. IsTrue b ↔ holds_at IsWhatWasSent walk.now (Got receipt.now)) }
{
    match receipt {
        Receipt::Message {
            key,
            number,
            handles,
            payload,
            ..
        } => {
            let (handles, payload) = (handles.as_slice(), payload.as_slice());
            has_sent(alloc, facts, walk, key, *number, handles, payload)
        }
        Receipt::Destroyed { key, number } => Ok(walk.notice_number(facts, key) == Some(*number)),
        Receipt::Released { .. } => Ok(true),
    }
}

/// Whether a message receipt has the own number of the destination, the payload, and the handles.
fn has_sent<'a>(
    alloc: Global,
    facts: &Facts<'a>,
    walk: &Walk<'a>,
    key: &Key,
    number: u64,
    handles: &[u64],
    payload: &[u8],
) -> Result<bool, AllocError>
    requires along { IsAlong walk.now facts.now }
    requires none { CarriesNone walk.now.rec walk.now.peer walk.now.call }
    ensures { IfOk result (λ b. IsTrue b
        ↔ HasSent walk.now key.now number handles.now payload.now) }
{
    let Some(message) = facts.message(key.stamp, key.origin) else {
        return Ok(false);
    };
    let own = walk.own_number(destination(message, key.index as usize));
    let arrived = walk.arrived(alloc, facts, key, message.carried())?;
    let sent = message.payload();
    Ok(agrees(own, number, payload, sent, handles, arrived.as_slice()))
}

/// Whether the number, the bytes and the handles of a receipt are those that it must have.
fn agrees(
    own: Option<u64>,
    number: u64,
    payload: &[u8],
    sent: &[u8],
    handles: &[u64],
    arrived: &[u64],
) -> bool
    ensures { IsTrue result ↔ ((own ≡ Some number) × (payload.now ≡ sent.now)
        × (handles.now ≡ arrived.now)) }
{
    own == Some(number) && payload == sent && handles == arrived
}

/// The node of a place of a message.
fn destination(message: &Message, index: usize) -> Option<NodeId>
    ensures { result ≡ to_at message.now index }
{
    match message.to().get(index) {
        Some(node) => *node,
        None => None,
    }
}
