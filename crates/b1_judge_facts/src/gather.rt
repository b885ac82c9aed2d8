//! Gathers what a record's sends and destructions name, in the bus order.

ghost use Rattle.std.specs.Prelude.{◌≡◌, suc, ◌<◌, ◌≤◌, length, slice_get, Option, Some, IfOk, OnOk};
ghost use Rattle.b1_model.specs.Names.{calls_of};
ghost use Rattle.b1_model.specs.Ledger.{destroy_numbers, message_by, slots_by};
ghost use Rattle.b1_judge_facts.specs.Kept.{kept_at, is_gone};
ghost use Rattle.b1_judge_facts.specs.Steps.{doomed_by, slots_for};
ghost use Rattle.b1_judge_facts.specs.Gathering.{Reaches, Takes, ArePaces, IsStart};
ghost use Rattle.b1_judge_facts.specs.declared.gather.Pace.{Pace as Paces};

use crate::gone::Gone;
use crate::keep::{keep_message, keep_nodes, mark_first, mark_gone, nodes_of};
use crate::message::Message;
use crate::node::NodeId;
use crate::standing::Standing;
use b1_model::{Answer, Call, Command, Items, Key, Receipt, Record, Stamp};
use std::alloc::{AllocError, Global};
use std::collections::BTreeMap;

/// How far the calls of one peer are gathered.
#[derive(Drop)]
pub(crate) struct Pace {
    /// Where the peer stands.
    pub standing: Standing,
    /// How many of its calls lie behind.
    pub call: usize,
    /// The nodes that it has destroyed.
    pub gone: Gone,
}

impl Pace {
    /// Goes past calls, up to and with the one at a place. An error is want of memory.
    fn reach(
        &mut self,
        calls: &[Call],
        place: usize,
        messages: &BTreeMap<(u64, u32), Message<'_>>,
        peer: u32,
    ) -> Result<(), AllocError>
        requires ahead { self.old.call ≤ place }
        requires place { place < length calls.now }
        ensures { OnOk result (Reaches (slots_by (kept_at messages.now) peer) calls.now
            (suc place) self.old self.new) }
    {
        for call in &calls[self.call..place + 1] {
            self.standing
                .pass(call, slots(messages, peer, &call.answer))?;
        }
        self.call = place + 1;
        Ok(())
    }
}

/// What is gathered so far.
#[derive(Drop)]
pub(crate) struct Gathering<'a> {
    /// Where memory comes from.
    pub alloc: Global,
    /// The record.
    pub rec: &'a Record,
    /// How far each peer's calls are gathered.
    pub paces: Vec<Pace>,
    /// The messages, by stamp and origin.
    pub messages: BTreeMap<(u64, u32), Message<'a>>,
    /// The nodes of each destruction, by stamp and origin.
    pub destroyed: BTreeMap<(u64, u32), Items<Option<NodeId>>>,
    /// The stamp and origin of the first destruction of each node, by owner and serial.
    pub first: BTreeMap<(u32, u64), (u64, u32)>,
}

impl<'a> Gathering<'a> {
    /// Nothing gathered yet, where each peer stands before its first call. An error is want of memory.
    pub(crate) fn start(
        alloc: Global,
        rec: &'a Record,
        standings: Vec<Standing>,
    ) -> Result<Gathering<'a>, AllocError>
        ensures { IfOk result (IsStart rec.now standings.items) }
    {
        Ok(Gathering {
            alloc,
            rec,
            paces: first_paces(alloc, standings)?,
            messages: BTreeMap::new(alloc),
            destroyed: BTreeMap::new(alloc),
            first: BTreeMap::new(alloc),
        })
    }

    /// Takes the next stamped call of the bus order. An error is want of memory.
    pub(crate) fn take(&mut self, stamp: &Stamp) -> Result<(), AllocError>
        requires peer { stamp.now.origin < length self.old.paces.items }
        requires ahead { (pace : Paces)
            → slice_get self.old.paces.items stamp.now.origin ≡ Some pace
            → pace.call ≤ stamp.now.call }
        requires call { stamp.now.call < length (calls_of self.old.rec.now stamp.now.origin) }
        ensures { OnOk result (Takes stamp.now self.old self.new) }
    {
        let origin = stamp.origin;
        let calls = calls_of(self.rec, origin);
        let pace = &mut self.paces[origin as usize];
        pace.reach(calls, stamp.call as usize, &self.messages, origin)?;
        let call = &calls[stamp.call as usize];
        let message = message_by(self.alloc, &pace.standing, origin, call)?;
        let nodes = doomed_by(self.alloc, &pace.standing, &mut pace.gone, origin, call)?;
        mark_gone(&mut pace.gone, nodes_of(&nodes))?;
        mark_first(&mut self.first, stamp.stamp, origin, nodes_of(&nodes))?;
        keep_message(&mut self.messages, stamp.stamp, origin, message)?;
        keep_nodes(&mut self.destroyed, stamp.stamp, origin, nodes)?;
        Ok(())
    }
}

/// Each peer with nothing gathered yet.
fn first_paces(alloc: Global, standings: Vec<Standing>) -> Result<Vec<Pace>, AllocError>
    ensures { IfOk result (λ paces. ArePaces standings.items paces.items) }
{
    let mut paces = Vec::new(alloc);
    for standing in standings {
        paces.push(Pace {
            standing,
            call: 0,
            gone: Gone::new(alloc),
        })?;
    }
    Ok(paces)
}

/// The calls of a peer; none where there is no such peer.
pub(crate) fn calls_of<'a>(rec: &'a Record, peer: u32) -> &'a [Call]
    ensures { result.now ≡ calls_of rec.now peer }
{
    match rec.peers.get(peer as usize) {
        Some(peer) => peer.calls.as_slice(),
        None => &[],
    }
}

/// The nodes of the slots of what an answer received at a peer; none where it is no message, or none that is kept.
pub(crate) fn slots<'m>(
    messages: &'m BTreeMap<(u64, u32), Message<'_>>,
    peer: u32,
    answer: &Answer,
) -> &'m [Option<NodeId>]
    ensures { result.now ≡ slots_for (slots_by (kept_at messages.now) peer) answer.now }
{
    match answer {
        Answer::Got(Receipt::Message { key, .. }) => slots_at(messages, peer, key),
        _ => &[],
    }
}

/// The nodes of the slots of the entry at a peer with a key; none where none is kept.
fn slots_at<'m>(
    messages: &'m BTreeMap<(u64, u32), Message<'_>>,
    peer: u32,
    key: &Key,
) -> &'m [Option<NodeId>]
    ensures { result.now ≡ slots_by (kept_at messages.now) peer key.now }
{
    match messages.get(&(key.stamp, key.origin)) {
        Some(message) => message.slots(peer, key.index),
        None => &[],
    }
}

/// The message of a call, if it is an accepted send, where the peer stands behind it. An error is want of memory.
fn message_by<'a>(
    alloc: Global,
    standing: &Standing,
    peer: u32,
    call: &'a Call,
) -> Result<Option<Message<'a>>, AllocError>
    ensures { IfOk result (λ m. m
        ≡ message_by peer standing.now.names standing.now.table call.now.command call.now.answer) }
{
    let (Command::Send(send), Answer::Sent(sent)) = (&call.command, &call.answer) else {
        return Ok(None);
    };
    let to = standing.named_all(alloc, peer, send.to.as_slice())?;
    let carried = standing.named_all(alloc, peer, send.with.as_slice())?;
    Ok(Some(Message::new(to, carried, &sent.places, &send.payload)))
}

/// The nodes that a call destroys, if it is a destruction, where the peer stands behind it. An error is want of memory.
fn doomed_by(
    alloc: Global,
    standing: &Standing,
    gone: &mut Gone,
    peer: u32,
    call: &Call,
) -> Result<Option<Items<Option<NodeId>>>, AllocError>
    ensures nodes { IfOk result (λ nodes. nodes
        ≡ doomed_by peer standing.now.names standing.now.table
        (is_gone gone.old) call.now.command call.now.answer) }
    ensures gone { gone.new ≡ gone.old }
{
    match &call.answer {
        Answer::Destroyed { .. } => {
            let numbers = destroy_numbers(&call.command);
            Ok(Some(standing.named_all(alloc, peer, numbers)?))
        }
        Answer::Reset { stamp: Some(_) } => { Ok(Some(standing.names.live(alloc, peer, gone)?)) }
        _ => Ok(None),
    }
}

/// The numbers of a NODES_DESTROY; none of any other command.
fn destroy_numbers(command: &Command) -> &[u64]
    ensures { result.now ≡ destroy_numbers command.now }
{
    match command {
        Command::Destroy { numbers } => numbers.as_slice(),
        _ => &[],
    }
}
