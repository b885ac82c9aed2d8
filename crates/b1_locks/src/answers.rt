ghost use Rattle.std.specs.Prelude.{◌≡◌, ◌≤◌, [], length, vec_capacity};
ghost use Rattle.b1_model.specs.declared.answers.Answer.TheVariants as answers;
ghost use Rattle.b1_model.specs.declared.answers.Refused.{Refused as Refusal};
ghost use Rattle.b1_edge.specs.Ports.{destroyed_answer, done_answer, received_answer, sent_answer};
ghost use Rattle.b1_locks.specs.Calls.{got_answer, info_answer, reset_answer, FitsIn, IsTried, Shows};

use b1_model::{Answer, PeerSpec, Places, Reason, Receipt, Refused, Sent, Tried};

/// What a command that answers no value came to.
pub fn done(answer: &Answer) -> Result<(), Reason>
    requires { Shows done_answer answer.now }
    ensures { done_answer result ≡ answer.now }
{
    match answer {
        Answer::Done => Ok(()),
        Answer::Refused(refused) => Err(refused.reason),
        _ => unreachable!(),
    }
}

/// What a NODES_DESTROY came to.
pub fn destroyed(answer: &Answer) -> Result<u64, Reason>
    requires { Shows destroyed_answer answer.now }
    ensures { destroyed_answer result ≡ answer.now }
{
    match answer {
        Answer::Destroyed { stamp } => Ok(*stamp),
        Answer::Refused(refused) => Err(refused.reason),
        _ => unreachable!(),
    }
}

/// What a PEER_QUERY came to.
pub fn info(answer: &Answer) -> Result<PeerSpec, Reason>
    requires { Shows info_answer answer.now }
    ensures { info_answer result ≡ answer.now }
{
    match answer {
        Answer::Info { user, pool, limits } => Ok(PeerSpec {
            user: *user,
            pool: *pool,
            limits: *limits,
        }),
        Answer::Refused(refused) => Err(refused.reason),
        _ => unreachable!(),
    }
}

/// What a PEER_RESET with flush or a PEER_DISCONNECT came to.
pub fn reset(answer: &Answer) -> Result<Option<u64>, Reason>
    requires { Shows reset_answer answer.now }
    ensures { reset_answer result ≡ answer.now }
{
    match answer {
        Answer::Reset { stamp } => Ok(*stamp),
        Answer::Refused(refused) => Err(refused.reason),
        _ => unreachable!(),
    }
}

/// What a RECV came to.
pub fn received(answer: &Answer) -> Result<&Receipt, Reason>
    requires { Shows got_answer answer.now }
    ensures { received_answer result ≡ answer.now }
{
    match answer {
        Answer::Got(receipt) => Ok(receipt),
        Answer::Refused(refused) => Err(refused.reason),
        _ => unreachable!(),
    }
}

/// What an attempt to receive that added a call came to.
pub fn tried(answer: &Answer) -> Tried
    requires { Shows got_answer answer.now }
    ensures { IsTried result answer.now }
{
    match answer {
        Answer::Got(_) => Tried::Got,
        _ => Tried::Shut,
    }
}

/// What a SEND came to, with room for what each destination answered. Takes no memory.
pub fn sent(answer: &Answer, room: Vec<Option<Reason>>) -> Result<Sent, Refused>
    requires shows { Shows sent_answer answer.now }
    requires empty { room.items ≡ [] }
    requires room { FitsIn (vec_capacity room) answer.now }
    ensures { sent_answer result ≡ answer.now }
{
    match answer {
        Answer::Sent(sent) => Ok(Sent {
            stamp: sent.stamp,
            places: copied(&sent.places, room),
        }),
        Answer::Refused(refused) => Err(*refused),
        _ => unreachable!(),
    }
}

// A copy of what each destination answered, in a list that has room for it.
fn copied(places: &Places, mut room: Vec<Option<Reason>>) -> Places
    requires empty { room.items ≡ [] }
    requires room { length places.now ≤ vec_capacity room }
    ensures { result ≡ places.now }
{
    match room.extend_from_slice(places.as_slice()) {
        Ok(()) => Places::from_vec(room),
        Err(_) => unreachable!(),
    }
}

/// Why a SEND was refused.
pub fn refused(answer: &Answer) -> Result<Sent, Refused>
    requires { (b : Refusal) × (answer.now ≡ answers.Refused b) }
    ensures { sent_answer result ≡ answer.now }
{
    match answer {
        Answer::Refused(refused) => Err(*refused),
        _ => unreachable!(),
    }
}
