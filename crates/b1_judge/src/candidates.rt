//! Whether something may be received before a key.

ghost use Rattle.std.specs.Prelude.{◌≡◌, ℕ, ◌<◌, ◌≤◌, true, false, ◌&&◌, ◌==◌, ◌↔◌, Some, IsTrue, length, slice_get, AllPairs};
ghost use Rattle.std.specs.List.{AllWithin};
ghost use Rattle.b1_model.specs.Ledger.{message as message_with, is_before, is_accepted, order};
ghost use Rattle.b1_model.specs.Legal.{is_above, is_message, is_message_in, is_notice, is_notice_of};
ghost use Rattle.b1_judge_facts.specs.Walks.{at};
ghost use Rattle.b1_judge_facts.specs.Facts.{doomed};
ghost use Rattle.b1_judge_facts.specs.Orders.{IsNotAfter};
ghost use Rattle.b1_judge.specs.Candidates.{key_at, is_under, is_passed, is_beyond, HasCandidate, HasCandidateOf, HasMessageOf, HasNoticeOf, HasNoneBefore, IsAlong};

use b1_judge_facts::{Facts, Message, NodeId, Walk};
use b1_ledger::entries_come_from_calls;
use b1_model::{Key, Reason, Stamp};

/// Whether an entry under a limit may be received next.
pub(crate) fn has_candidate<'a>(facts: &Facts<'a>, walk: &Walk<'a>, limit: Option<Key>) -> bool
    requires { IsAlong walk.now facts.now }
    ensures { IsTrue result ↔ HasCandidate walk.now limit }
{
    entries_come_from_calls();
    let stamps = facts.order();
    for place in first_place(facts, walk, stamps)..stamps.len() {
        let stamp = &stamps[place];
        if is_beyond(stamp, limit) {
            return false;
        }
        if has_candidate_of(facts, walk, stamp, limit) {
            return true;
        }
    }
    false
}

/// How many stamped calls stand in the bus order before the first that may have an entry to be received next. Takes a
/// time of log n.
fn first_place<'a>(facts: &Facts<'a>, walk: &Walk<'a>, stamps: &[Stamp]) -> usize
    requires along { IsAlong walk.now facts.now }
    requires order { stamps.now ≡ order facts.now.rec }
    requires sorted { AllPairs IsNotAfter stamps.now }
    ensures { HasNoneBefore walk.now stamps.now result }
{
    match walk.last_key() {
        Some(key) => passed_calls(stamps, key),
        None => earlier_calls(facts, walk),
    }
}

/// How many stamped calls come before the call of a key. Takes a time of log n.
fn passed_calls(stamps: &[Stamp], key: Key) -> usize
    requires { AllPairs IsNotAfter stamps.now }
    ensures { AllWithin (λ s. is_passed s (Some key) ≡ true) stamps.now 0 result }
{
    stamps.partition_point(|stamp| is_before_key(stamp, key))
}

/// How many stamped calls come before the first that goes to a node of the peer's epoch or destroys one, where the peer
/// holds no foreign nodes; 0 where it does. Takes a time of log n.
fn earlier_calls<'a>(facts: &Facts<'a>, walk: &Walk<'a>) -> usize
    requires { IsAlong walk.now facts.now }
    ensures { HasNoneBefore walk.now (order facts.now.rec) result }
{
    if walk.holds_none() {
        facts.before_epoch(walk.peer(), walk.epoch())
    } else {
        0
    }
}

/// Whether a stamped call comes before the call of a key.
fn is_before_key(stamp: &Stamp, key: Key) -> bool
    ensures { result ≡ is_before stamp.now.stamp stamp.now.origin key.stamp key.origin }
{
    is_before_call(stamp.stamp, stamp.origin, key.stamp, key.origin)
}

/// Whether a stamped call comes behind the call of a key, if there is one.
fn is_beyond(stamp: &Stamp, limit: Option<Key>) -> bool
    ensures { result ≡ is_beyond stamp.now limit }
{
    match limit {
        Some(key) => is_before_call(key.stamp, key.origin, stamp.stamp, stamp.origin),
        None => false,
    }
}

/// Whether a stamp of an origin is before another one in the bus order.
fn is_before_call(stamp: u64, origin: u32, other: u64, other_origin: u32) -> bool
    ensures { result ≡ is_before stamp origin other other_origin }
{
    stamp < other || (stamp == other && origin < other_origin)
}

/// Whether an entry of a stamped call, under a limit, may be received next.
fn has_candidate_of<'a>(
    facts: &Facts<'a>,
    walk: &Walk<'a>,
    stamp: &Stamp,
    limit: Option<Key>,
) -> bool
    requires { IsAlong walk.now facts.now }
    ensures { IsTrue result ↔ HasCandidateOf walk.now stamp.now limit }
{
    has_message_of(facts, walk, stamp, limit) || has_notice_of(facts, walk, stamp, limit)
}

/// Whether a message of a stamped call, under a limit, may be received next.
fn has_message_of<'a>(facts: &Facts<'a>, walk: &Walk<'a>, stamp: &Stamp, limit: Option<Key>) -> bool
    requires { IsAlong walk.now facts.now }
    ensures { IsTrue result ↔ HasMessageOf walk.now stamp.now limit }
{
    let Some(message) = facts.message(stamp.stamp, stamp.origin) else {
        return false;
    };
    let (first, end) = places_between(stamp, message.to().len(), walk.last_key(), limit);
    for index in first..end {
        if is_message_at(facts, walk, message, stamp, index, limit) {
            return true;
        }
    }
    false
}

/// The first of the places of a stamped call that may be above one key, and the one behind the last that may be under
/// another.
fn places_between(
    stamp: &Stamp,
    count: usize,
    last: Option<Key>,
    limit: Option<Key>,
) -> (usize, usize)
    ensures within { result.1 ≤ count }
    ensures above { (i : ℕ) → i < result.0 → is_above (key_at stamp.now i) last ≡ false }
    ensures under { (i : ℕ) → result.1 ≤ i → i < count
        → is_under (key_at stamp.now i) limit ≡ false }
{
    let first = match last {
        Some(key) if is_of_call(stamp, key) => key.index as usize + 1,
        _ => 0,
    };
    let end = match limit {
        Some(key) if is_of_call(stamp, key) => count.min(key.index as usize),
        _ => count,
    };
    (first, end)
}

/// Whether a key is of a stamped call.
fn is_of_call(stamp: &Stamp, key: Key) -> bool
    ensures { result ≡ ((key.stamp == stamp.now.stamp) && (key.origin == stamp.now.origin)) }
{
    key.stamp == stamp.stamp && key.origin == stamp.origin
}

/// Whether a place of a message may be received next, and its key is under a limit.
fn is_message_at<'a>(
    facts: &Facts<'a>,
    walk: &Walk<'a>,
    message: &Message,
    stamp: &Stamp,
    index: usize,
    limit: Option<Key>,
) -> bool
    requires along { IsAlong walk.now facts.now }
    requires message { message_with walk.now.wires walk.now.rec stamp.now.stamp stamp.now.origin
        ≡ Some message.now }
    ensures { result ≡ (at is_message walk.now (key_at stamp.now index)
        && is_under (key_at stamp.now index) limit) }
{
    is_in_reach(stamp, index, walk.last_key(), limit) && is_open(facts, walk, message, stamp, index)
}

/// Whether the key of a place is above one key, and under another.
fn is_in_reach(stamp: &Stamp, index: usize, last: Option<Key>, limit: Option<Key>) -> bool
    ensures { result ≡ (is_above (key_at stamp.now index) last
        && is_under (key_at stamp.now index) limit) }
{
    let above = match last {
        Some(key) => is_above_key(stamp, index, key),
        None => true,
    };
    let under = match limit {
        Some(key) => is_below_key(stamp, index, key),
        None => true,
    };
    above && under
}

/// Whether the key of a place is below another key.
fn is_below_key(stamp: &Stamp, index: usize, key: Key) -> bool
    ensures { result ≡ is_under (key_at stamp.now index) (Some key) }
{
    is_before_call(stamp.stamp, stamp.origin, key.stamp, key.origin)
        || (stamp.stamp == key.stamp && stamp.origin == key.origin && index < key.index as usize)
}

/// Whether the key of a place is above another key.
fn is_above_key(stamp: &Stamp, index: usize, key: Key) -> bool
    ensures { result ≡ is_above (key_at stamp.now index) (Some key) }
{
    is_before_call(key.stamp, key.origin, stamp.stamp, stamp.origin)
        || (key.stamp == stamp.stamp && key.origin == stamp.origin && (key.index as usize) < index)
}

/// Whether a place of a message is an entry that the peer's node can receive.
fn is_open<'a>(
    facts: &Facts<'a>,
    walk: &Walk<'a>,
    message: &Message,
    stamp: &Stamp,
    index: usize,
) -> bool
    requires { IsAlong walk.now facts.now }
    ensures { result ≡ at is_message_in walk.now (key_at stamp.now index) (Some message.now) }
{
    if !is_accepted_at(message.places(), index) {
        return false;
    }
    let Some(Some(node)) = message.to().get(index) else {
        return false;
    };
    let key = Key {
        stamp: stamp.stamp,
        origin: stamp.origin,
        index: 0,
    };
    node.owner == walk.peer() && node.epoch == walk.epoch() && !facts.is_late(node, &key)
}

/// Whether a place is accepted.
fn is_accepted_at(places: &[Option<Reason>], index: usize) -> bool
    ensures { result ≡ is_accepted (slice_get places.now index) }
{
    matches!(places.get(index), Some(None))
}

/// Whether a notice of a stamped call, under a limit, may be received next.
fn has_notice_of<'a>(facts: &Facts<'a>, walk: &Walk<'a>, stamp: &Stamp, limit: Option<Key>) -> bool
    requires { IsAlong walk.now facts.now }
    ensures { IsTrue result ↔ HasNoticeOf walk.now stamp.now limit }
{
    let nodes = facts.doomed(stamp.stamp, stamp.origin);
    let (first, end) = places_between(stamp, nodes.len(), walk.last_key(), limit);
    for index in first..end {
        if is_notice_at(walk, nodes, stamp, index, limit) {
            return true;
        }
    }
    false
}

/// Whether the notice of a place of a destruction may be received next, and its key is under a limit.
fn is_notice_at(
    walk: &Walk,
    nodes: &[Option<NodeId>],
    stamp: &Stamp,
    index: usize,
    limit: Option<Key>,
) -> bool
    requires index { index < length nodes.now }
    requires nodes { nodes.now
        ≡ doomed walk.now.wires walk.now.rec stamp.now.stamp stamp.now.origin }
    ensures { result ≡ (at is_notice walk.now (key_at stamp.now index)
        && is_under (key_at stamp.now index) limit) }
{
    is_in_reach(stamp, index, walk.last_key(), limit) && is_concerned(walk, nodes[index])
}

/// Whether the end of a node concerns the peer: an own node of the present epoch, or a foreign one that it holds.
fn is_concerned(walk: &Walk, node: Option<NodeId>) -> bool
    ensures { result ≡ at is_notice_of walk.now node }
{
    match node {
        Some(node) if node.owner == walk.peer() => node.epoch == walk.epoch(),
        Some(node) => walk.line_number(&node).is_some(),
        None => false,
    }
}
