ghost use Rattle.std.specs.Prelude.{◌≡◌, map, Option, IfOk, OnOk};
ghost use Rattle.b1_model.specs.Names.{next_epoch, carried_by};
ghost use Rattle.b1_model.specs.Ledger.{changed, named};
ghost use Rattle.b1_model.specs.Legal.{last_after};
ghost use Rattle.b1_judge_facts.specs.Standing.{passed};

use crate::names::Names;
use crate::node::NodeId;
use crate::table::Table;
use b1_model::{Answer, Call, Command, Items, Key, Receipt, Refused};
use std::alloc::{AllocError, Global};

/// What a peer has made, holds and has received before one of its calls.
#[derive(Drop)]
pub(crate) struct Standing {
    /// Its own numbers.
    pub names: Names,
    /// Its given numbers.
    pub table: Table,
    /// How often it has flushed its queue.
    pub epoch: u64,
    /// The key of its last receipt in this epoch, release notices aside.
    pub last: Option<Key>,
}

impl Standing {
    /// Goes past a call, whose slots have these nodes, if it is a message. An error is want of memory.
    pub(crate) fn pass(&mut self, call: &Call, slots: &[Option<NodeId>]) -> Result<(), AllocError>
        ensures { OnOk result (self.new ≡ passed slots.now call.now self.old) }
    {
        self.names.add(self.epoch, carried_by(call))?;
        change(&mut self.table, call, slots)?;
        self.epoch = next_epoch(self.epoch, &call.answer)?;
        self.last = last_after(self.last, &call.answer);
        Ok(())
    }

    /// The same again. An error is want of memory.
    pub(crate) fn copy(&self, alloc: Global) -> Result<Standing, AllocError>
        ensures { IfOk result (λ standing. standing ≡ self.now) }
    {
        Ok(Standing {
            names: self.names.copy(alloc)?,
            table: self.table.copy(alloc)?,
            epoch: self.epoch,
            last: self.last,
        })
    }

    /// What a number names at a peer. Takes a time of log n.
    pub(crate) fn named(&self, peer: u32, number: u64) -> Option<NodeId>
        ensures { result ≡ named peer self.now.names self.now.table number }
    {
        if number % 4 == 0 {
            self.names.node(peer, number)
        } else {
            self.table.node(number)
        }
    }

    /// What numbers name at a peer. An error is want of memory.
    pub(crate) fn named_all(
        &self,
        alloc: Global,
        peer: u32,
        numbers: &[u64],
    ) -> Result<Items<Option<NodeId>>, AllocError>
        ensures { IfOk result (λ nodes. nodes
            ≡ map (named peer self.now.names self.now.table) numbers.now) }
    {
        let mut nodes = Vec::with_capacity(alloc, numbers.len())?;
        for number in numbers {
            nodes.push(self.named(peer, *number))?;
        }
        Ok(Items::from_vec(nodes))
    }
}

/// The carried numbers of a send whose begin was accepted.
pub(crate) fn carried_by(call: &Call) -> &[u64]
    ensures { result.now ≡ carried_by call.now.command call.now.answer }
{
    match (&call.command, &call.answer) {
        (Command::Send(send), Answer::Sent(_)) => send.with.as_slice(),
        (Command::Send(send), Answer::Refused(Refused { place: Some(_), .. })) => {
            send.with.as_slice()
        }
        _ => &[],
    }
}

/// What a call changes of its peer's table.
fn change(table: &mut Table, call: &Call, slots: &[Option<NodeId>]) -> Result<(), AllocError>
    ensures { OnOk result (table.new
        ≡ changed (λ _. slots.now) call.now.command call.now.answer table.old) }
{
    match (&call.command, &call.answer) {
        (_, Answer::Got(Receipt::Message { handles, .. })) => {
            table.receive_all(slots, handles.as_slice())
        }
        (_, Answer::Reset { .. }) => {
            table.clear();
            Ok(())
        }
        (Command::Release { number }, Answer::Done) => {
            table.release(*number);
            Ok(())
        }
        _ => Ok(()),
    }
}

/// The epoch after an answer. An error is want of memory.
fn next_epoch(epoch: u64, answer: &Answer) -> Result<u64, AllocError>
    ensures { IfOk result (λ next. next ≡ next_epoch epoch answer.now) }
{
    let Answer::Reset { .. } = answer else {
        return Ok(epoch);
    };
    match epoch.checked_add(1) {
        Some(next) => Ok(next),
        None => Err(AllocError),
    }
}

/// The key of the last receipt after an answer.
fn last_after(last: Option<Key>, answer: &Answer) -> Option<Key>
    ensures { result ≡ last_after last answer.now }
{
    match answer {
        Answer::Got(Receipt::Message { key, .. }) => Some(*key),
        Answer::Got(Receipt::Destroyed { key, .. }) => Some(*key),
        Answer::Reset { .. } => None,
        _ => last,
    }
}
