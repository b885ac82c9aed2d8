//! What is read of a record and of a script.

ghost use Rattle.std.specs.Prelude.{◌≡◌};
ghost use Rattle.b1_model.specs.Names.{calls_of};
ghost use Rattle.b1_model.specs.Ledger.{stamp_of};
ghost use Rattle.b1_model.specs.Legal.{seen_stamp};
ghost use Rattle.b1_model.specs.Script.{commands_of};

use b1_model::{Answer, Call, Command, CommandLists, Receipt, Record};

/// The calls of a peer, none where there is no such peer.
pub(crate) fn peer_calls(rec: &Record, peer: u32) -> &[Call]
    ensures { result.now ≡ calls_of rec.now peer }
{
    match rec.peers.get(peer as usize) {
        Some(found) => found.calls.as_slice(),
        None => &[],
    }
}

/// The commands of a peer, none where there is no such peer.
pub(crate) fn peer_commands(lists: &CommandLists, peer: u32) -> &[Command]
    ensures { result.now ≡ commands_of lists.now peer }
{
    match lists.get(peer as usize) {
        Some(found) => found.as_slice(),
        None => &[],
    }
}

/// The stamp of a send or a destruction.
pub(crate) fn given_stamp(answer: &Answer) -> Option<u64>
    ensures { result ≡ stamp_of answer.now }
{
    match answer {
        Answer::Sent(sent) => Some(sent.stamp),
        Answer::Destroyed { stamp } => Some(*stamp),
        Answer::Reset { stamp } => *stamp,
        _ => None,
    }
}

/// The stamp that a call gave or received, release notices aside.
pub(crate) fn known_stamp(answer: &Answer) -> Option<u64>
    ensures { result ≡ seen_stamp answer.now }
{
    match answer {
        Answer::Got(Receipt::Message { key, .. }) => Some(key.stamp),
        Answer::Got(Receipt::Destroyed { key, .. }) => Some(key.stamp),
        Answer::Got(Receipt::Released { .. }) => None,
        _ => given_stamp(answer),
    }
}
