//! The part that asks for even stamps, each given once.

ghost use Rattle.std.specs.Prelude.{◌<◌, ◌↔◌, length, take, IsTrue, OnOk};
ghost use Rattle.b1_model.specs.Names.{calls_of};
ghost use Rattle.b1_model.specs.Legal.{KeepsKeys};
ghost use Rattle.b1_judge.specs.Frame.{IsCall};
ghost use Rattle.b1_model.specs.Ledger.{stamp_of};
ghost use Rattle.b1_judge.specs.Stamps.{AreGiven, Gives};

use crate::frame::Part;
use crate::reading::{given_stamp, peer_calls};
use b1_model::{Call, Record};
use std::alloc::{AllocError, Global};
use std::collections::BTreeSet;

/// Each stamp of a send or a destruction is even, and no earlier call of its peer has it.
#[derive(Drop)]
pub(crate) struct Keys<'a> {
    pub alloc: Global,
    pub rec: &'a Record,
}

impl<'a> Part for Keys<'a> {
    ghost many = { λ x. length x.rec.now.peers };

    ghost tries = { λ x. IsCall x.rec.now };

    ghost keeps = { λ x. KeepsKeys x.rec.now };

    fn first_of(&self, peer: u32) -> Result<Option<u64>, AllocError> {
        let calls = peer_calls(self.rec, peer);
        let mut given = BTreeSet::new(self.alloc);
        for call in 0..calls.len() {
            if !keeps_keys(self.rec, peer, call, &given) {
                return Ok(Some(call as u64));
            }
            give(&mut given, &calls[call])?;
        }
        Ok(None)
    }

    ghost within = { λ x p k t. t.0 };
}

/// Whether a call keeps the part, where these are the stamps of the earlier ones. Takes a time of log n.
fn keeps_keys(rec: &Record, peer: u32, call: usize, given: &BTreeSet<u64>) -> bool
    requires call { call < length (calls_of rec.now peer) }
    requires given { AreGiven given.now (take call (calls_of rec.now peer)) }
    ensures { IsTrue result ↔ KeepsKeys rec.now peer call }
{
    let calls = peer_calls(rec, peer);
    match given_stamp(&calls[call].answer) {
        Some(stamp) => stamp % 2 == 0 && !given.contains(&stamp),
        None => true,
    }
}

/// Adds the stamp of a call, if it has one. An error is want of memory.
fn give(given: &mut BTreeSet<u64>, call: &Call) -> Result<(), AllocError>
    ensures { OnOk result (Gives (stamp_of call.now.answer) given.old given.new) }
{
    if let Some(stamp) = given_stamp(&call.answer) {
        given.insert(stamp)?;
    }
    Ok(())
}
