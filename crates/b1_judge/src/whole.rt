//! The part that asks that nothing is left to receive.

ghost use Rattle.std.specs.Prelude.{length};
ghost use Rattle.b1_model.specs.Legal.{HasNoNext};
ghost use Rattle.b1_judge.specs.Frame.{IsEnd};

use crate::candidates::has_candidate;
use crate::frame::Part;
use crate::reading::peer_calls;
use b1_judge_facts::{Facts, Walk};
use std::alloc::{AllocError, Global};

/// Nothing is left to receive behind a peer's calls.
#[derive(Drop)]
pub(crate) struct Whole<'f, 'a> {
    pub alloc: Global,
    pub facts: &'f Facts<'a>,
}

impl<'f, 'a> Part for Whole<'f, 'a> {
    ghost many = { λ x. length x.facts.now.rec.peers };

    ghost tries = { λ x. IsEnd x.facts.now.rec };

    ghost keeps = { λ x. HasNoNext x.facts.now.wires x.facts.now.rec };

    fn first_of(&self, peer: u32) -> Result<Option<u64>, AllocError> {
        let mut walk = Walk::start(self.alloc, self.facts, peer)?;
        for _ in peer_calls(self.facts.rec(), peer) {
            walk = walk.pass(self.facts)?;
        }
        if has_candidate(self.facts, &walk, None) {
            return Ok(Some(walk.call() as u64));
        }
        Ok(None)
    }

    ghost within = { λ x p k t. t.0 };
}
