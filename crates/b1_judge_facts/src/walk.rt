ghost use Rattle.std.specs.Prelude.{◌≡◌, suc, ◌<◌, [], length, Option, IfOk, IsTrue};
ghost use Rattle.std.specs.Option.{option_copied};
ghost use Rattle.b1_model.specs.Names.{made, made as made_names, epoch_at, number_at, calls_of};
ghost use Rattle.b1_model.specs.Ledger.{is_below, line_number, table};
ghost use Rattle.b1_model.specs.Legal.{last_key, is_above, is_open_to, is_message_in, is_message, is_notice_of, is_notice, arrives, arrived, handle_number, own_number_of, notice_number};
ghost use Rattle.b1_judge_facts.specs.Walks.{at, is_late_at, doomed_node};
ghost use Rattle.b1_judge_facts.specs.Facts.{CarriesNone};
ghost use Rattle.b1_judge_facts.specs.Steps.{beside};

use crate::facts::Facts;
use crate::gather::calls_of;
use crate::message::Message;
use crate::node::NodeId;
use crate::standing::Standing;
use crate::table::Table;
use b1_ledger::keys_are_ordered_as_in_queues;
use b1_model::{INVALID, Key, Nums, Opening, Record, key_cmp};
use std::alloc::{AllocError, Global};
use std::marker::Model;

/// Where a walk along the calls of one peer stands: what the peer has made, holds and has received before its next
/// call.
#[derive(Drop)]
pub struct Walk<'a> {
    opening: &'a Opening,
    rec: &'a Record,
    peer: u32,
    call: usize,
    standing: Standing,
}

impl<'a> Model for Walk<'a> {
    ghost use Rattle.b1_judge_facts.specs.Facts.{Place};

    ghost Value = { Place };

    ghost use Rattle.std.specs.Prelude.{◌≡◌};
    ghost use Rattle.b1_judge_facts.specs.Standing.{standing as standing_at};

    ghost view = { λ w. record {
      wires = w.opening.now.wires;
      rec = w.rec.now;
      peer = w.peer;
      call = w.call;
    } };

    ghost invariant = { λ w. w.standing ≡ standing_at w.opening.now.wires w.rec.now w.peer w.call };
}

impl<'a> Walk<'a> {
    /// Before the first call of a peer. Takes a time in proportion to what the wires make and give at the peer. An error
    /// is want of memory.
    pub fn start(alloc: Global, facts: &Facts<'a>, peer: u32) -> Result<Walk<'a>, AllocError>
        requires { peer < length facts.now.rec.peers }
        ensures { IfOk result (λ walk. walk
            ≡ record { wires = facts.now.wires; rec = facts.now.rec; peer = peer; call = 0 }) }
    {
        let standing = facts.starts[peer as usize].copy(alloc)?;
        Ok(Walk {
            opening: facts.opening,
            rec: facts.rec,
            peer,
            call: 0,
            standing,
        })
    }

    /// Goes past the next call. Takes a time of log n for each number of the call, and for a flush one in proportion to
    /// what the peer holds. An error is want of memory.
    pub fn pass(self, facts: &Facts<'a>) -> Result<Walk<'a>, AllocError>
        requires wires { self.wires ≡ facts.now.wires }
        requires rec { self.rec ≡ facts.now.rec }
        requires call { self.call < length (calls_of self.rec self.peer) }
        ensures { IfOk result (λ walk. walk ≡ record self.entry { call = suc self.entry.call }) }
    {
        let Walk {
            opening,
            rec,
            peer,
            call,
            mut standing,
        } = self;
        let next = &calls_of(rec, peer)[call];
        standing.pass(next, facts.slots(peer, &next.answer))?;
        Ok(Walk {
            opening,
            rec,
            peer,
            call: call + 1,
            standing,
        })
    }

    /// Whose walk it is.
    pub fn peer(&self) -> u32
        ensures { result ≡ self.now.peer }
    {
        self.peer
    }

    /// How many calls lie behind.
    pub fn call(&self) -> usize
        ensures { result ≡ self.now.call }
    {
        self.call
    }

    /// The key of the last receipt in this epoch, release notices aside.
    pub fn last_key(&self) -> Option<Key>
        ensures { result ≡ last_key self.now.rec self.now.peer self.now.call }
    {
        self.standing.last
    }

    /// How often the peer has flushed its queue.
    pub fn epoch(&self) -> u64
        ensures { result ≡ epoch_at self.now.rec self.now.peer self.now.call }
    {
        self.standing.epoch
    }

    /// Whether the peer's table has no lines.
    pub fn holds_none(&self) -> bool
        ensures { IsTrue result → (at table self.now).lines ≡ [] }
    {
        self.standing.table.is_empty()
    }

    /// The number of a node's line in the peer's table. Takes a time of log n.
    pub fn line_number(&self, node: &NodeId) -> Option<u64>
        ensures { result ≡ line_number node.now (at table self.now).lines }
    {
        self.standing.table.number(node)
    }

    /// The own number of the peer's node at a place.
    pub fn number_at(&self, serial: u64) -> Option<u64>
        requires { CarriesNone self.now.rec self.now.peer self.now.call }
        ensures { result ≡ number_at (at made self.now) serial }
    {
        self.standing.names.number_at(serial)
    }

    /// The own number of a node of the peer.
    pub fn own_number(&self, node: Option<NodeId>) -> Option<u64>
        requires { CarriesNone self.now.rec self.now.peer self.now.call }
        ensures { result ≡ own_number_of (at made self.now) node }
    {
        match node {
            Some(node) => self.number_at(node.serial),
            None => None,
        }
    }

    /// Whether a message with a key is one of those that the peer may receive next.
    pub fn is_message(&self, facts: &Facts<'a>, key: &Key) -> bool
        requires wires { self.now.wires ≡ facts.now.wires }
        requires rec { self.now.rec ≡ facts.now.rec }
        ensures { result ≡ at is_message self.now key.now }
    {
        is_above(key, self.last_key())
            && self.is_message_in(facts, key, facts.message(key.stamp, key.origin))
    }

    /// Whether the place of a message that a key tells is an entry that the peer may receive.
    fn is_message_in(&self, facts: &Facts<'a>, key: &Key, message: Option<&Message<'a>>) -> bool
        requires wires { self.now.wires ≡ facts.now.wires }
        requires rec { self.now.rec ≡ facts.now.rec }
        ensures { result ≡ at is_message_in self.now key.now (option_copied message.entry) }
    {
        match message {
            Some(message) => {
                message.is_entry(self.peer, key.index)
                    && self.is_open_to(facts, key, message.to_at(key.index))
            }
            None => false,
        }
    }

    /// Whether a message to a node may be received.
    fn is_open_to(&self, facts: &Facts<'a>, key: &Key, node: Option<NodeId>) -> bool
        requires wires { self.now.wires ≡ facts.now.wires }
        requires rec { self.now.rec ≡ facts.now.rec }
        ensures { result ≡ at is_open_to self.now key.now node }
    {
        match node {
            Some(node) => node.epoch == self.epoch() && !facts.is_late(&node, key),
            None => false,
        }
    }

    /// Whether a destroy notice with a key is one of those that the peer may receive next.
    pub fn is_notice(&self, facts: &Facts<'a>, key: &Key) -> bool
        requires wires { self.now.wires ≡ facts.now.wires }
        requires rec { self.now.rec ≡ facts.now.rec }
        ensures { result ≡ at is_notice self.now key.now }
    {
        is_above(key, self.last_key()) && self.is_notice_of(facts.doomed_at(key))
    }

    /// Whether the end of a node concerns the peer: an own node of the present epoch, or a foreign one that it holds.
    fn is_notice_of(&self, node: Option<NodeId>) -> bool
        ensures { result ≡ at is_notice_of self.now node }
    {
        match node {
            Some(node) => {
                if node.owner == self.peer {
                    node.epoch == self.epoch()
                } else {
                    self.line_number(&node).is_some()
                }
            }
            None => false,
        }
    }

    /// The number that the destroy notice with a key has at the peer.
    pub fn notice_number(&self, facts: &Facts<'a>, key: &Key) -> Option<u64>
        requires wires { self.now.wires ≡ facts.now.wires }
        requires rec { self.now.rec ≡ facts.now.rec }
        requires none { CarriesNone self.now.rec self.now.peer self.now.call }
        ensures { result ≡ notice_number self.now.peer (at made self.now) (at table self.now)
            (doomed_node self.now key.now) }
    {
        let node = facts.doomed_at(key)?;
        if node.owner == self.peer {
            self.number_at(node.serial)
        } else {
            self.line_number(&node)
        }
    }

    /// The handles with which a message arrives at the peer, where it carries these nodes and has this key. Takes a time
    /// of log n for each. An error is want of memory.
    pub fn arrived(
        &self,
        alloc: Global,
        facts: &Facts<'a>,
        key: &Key,
        carried: &[Option<NodeId>],
    ) -> Result<Nums, AllocError>
        requires wires { self.now.wires ≡ facts.now.wires }
        requires rec { self.now.rec ≡ facts.now.rec }
        requires none { CarriesNone self.now.rec self.now.peer self.now.call }
        ensures { IfOk result (λ numbers. numbers
            ≡ arrived (is_late_at self.now key.now) self.now.peer (at made self.now) carried.now
            (at table self.now)) }
    {
        let mut made = Table::new(alloc);
        let mut numbers = Vec::with_capacity(alloc, carried.len())?;
        for node in carried {
            let number = self.arrives(facts, key, &made, *node);
            self.standing
                .table
                .receive_beside(&mut made, number, *node)?;
            numbers.push(number)?;
        }
        Ok(Nums::from_vec(numbers))
    }

    /// The number with which the node of a slot arrives, where earlier slots made lines beside the table.
    fn arrives(&self, facts: &Facts<'a>, key: &Key, made: &Table, node: Option<NodeId>) -> u64
        requires wires { self.now.wires ≡ facts.now.wires }
        requires rec { self.now.rec ≡ facts.now.rec }
        requires none { CarriesNone self.now.rec self.now.peer self.now.call }
        ensures { result ≡ arrives (is_late_at self.now key.now) self.now.peer
            (at made_names self.now) (beside (at table self.now) made.now) node }
    {
        match node {
            Some(node) => {
                if facts.is_late(&node, key) {
                    INVALID
                } else {
                    self.handle_number(made, &node)
                }
            }
            None => INVALID,
        }
    }

    /// The number by which the peer gets to know a node, where earlier slots made lines beside its table.
    fn handle_number(&self, made: &Table, node: &NodeId) -> u64
        requires none { CarriesNone self.now.rec self.now.peer self.now.call }
        ensures { result ≡ handle_number self.now.peer (at made_names self.now)
            (beside (at table self.now) made.now) node.now }
    {
        if node.owner == self.peer {
            self.number_at(node.serial).unwrap_or(INVALID)
        } else {
            self.standing.table.number_beside(made, node)
        }
    }
}

/// Whether a key is above the last one, if there is one.
fn is_above(key: &Key, last: Option<Key>) -> bool
    ensures { result ≡ is_above key.now last }
{
    match last {
        Some(last) => is_below(&last, key),
        None => true,
    }
}

/// Whether the first key is below the second.
fn is_below(a: &Key, b: &Key) -> bool
    ensures { result ≡ is_below a.now b.now }
{
    keys_are_ordered_as_in_queues();
    key_cmp(a, b).is_lt()
}
