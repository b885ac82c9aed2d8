//! The part that asks for the script's commands.

ghost use Rattle.std.specs.Prelude.{◌≡◌, ◌≤◌, ◌↔◌, true, length, IsTrue};
ghost use Rattle.b1_model.specs.declared.commands.Command.TheVariants.{Recv};
ghost use Rattle.b1_model.specs.Names.{calls_of};
ghost use Rattle.b1_model.specs.Script.{KeepsScript, IsCallOf, is_receipt, ends_await as awaits};
ghost use Rattle.b1_judge.specs.Frame.{IsCallOrEnd};
ghost use Rattle.b1_judge.specs.Behind.{behind};

use crate::commands::{has_places, is_of_kind, is_resolved};
use crate::frame::Part;
use crate::reading::{peer_calls, peer_commands};
use crate::receipts::Receipts;
use b1_model::{Answer, Call, Command, CommandLists, Reason, Record};
use std::alloc::{AllocError, Global};

/// Each peer's calls are its commands with the references resolved, and after them receipts alone.
#[derive(Drop)]
pub(crate) struct Commands<'a> {
    pub alloc: Global,
    pub lists: &'a CommandLists,
    pub rec: &'a Record,
}

impl<'a> Part for Commands<'a> {
    ghost many = { λ x. length x.rec.now.peers };

    ghost tries = { λ x. IsCallOrEnd x.rec.now };

    ghost keeps = { λ x. KeepsScript x.lists.now x.rec.now };

    fn first_of(&self, peer: u32) -> Result<Option<u64>, AllocError> {
        let calls = peer_calls(self.rec, peer);
        let mut receipts = Receipts::start(self.alloc, calls);
        for call in 0..calls.len() {
            if !keeps_script(self.lists, self.rec, peer, call, &receipts) {
                return Ok(Some(call as u64));
            }
            receipts.pass()?;
        }
        if !keeps_script(self.lists, self.rec, peer, calls.len(), &receipts) {
            return Ok(Some(calls.len() as u64));
        }
        Ok(None)
    }

    ghost within = { λ x p k t. t.0 };
}

/// Whether a call, or the end of a peer's calls, keeps the part.
fn keeps_script(
    lists: &CommandLists,
    rec: &Record,
    peer: u32,
    call: usize,
    before: &Receipts<'_>,
) -> bool
    requires call { call ≤ length (calls_of rec.now peer) }
    requires before { before.now ≡ record { calls = calls_of rec.now peer; count = call } }
    ensures { IsTrue result ↔ KeepsScript lists.now rec.now peer call }
{
    let calls = peer_calls(rec, peer);
    match (peer_commands(lists, peer).get(call), calls.get(call)) {
        (Some(command), Some(made)) => is_call_of(command, before, made),
        (Some(_), None) => false,
        (None, Some(made)) => is_further_receipt(made),
        (None, None) => true,
    }
}

/// Whether a call is that of a command which begins after some calls.
fn is_call_of(command: &Command, before: &Receipts<'_>, made: &Call) -> bool
    ensures { IsTrue result ↔ IsCallOf command.now (behind before.now) made.now }
{
    if let Command::Await = command {
        return matches!(made.command, Command::Recv) && ends_await(&made.answer);
    }
    is_resolved(command, before, &made.command)
        && is_of_kind(&made.command, &made.answer)
        && has_places(&made.command, &made.answer)
}

/// Whether an answer is a receipt, or is refused because the peer has disconnected.
fn ends_await(answer: &Answer) -> bool
    ensures { result ≡ awaits answer.now }
{
    match answer {
        Answer::Got(_) => true,
        Answer::Refused(refused) => matches!(refused.reason, Reason::Shutdown),
        _ => false,
    }
}

/// Whether a call is a RECV with a receipt.
fn is_further_receipt(made: &Call) -> bool
    ensures { IsTrue result ↔ ((made.now.command ≡ Recv) × (is_receipt made.now.answer ≡ true)) }
{
    matches!(made.command, Command::Recv) && matches!(made.answer, Answer::Got(_))
}
