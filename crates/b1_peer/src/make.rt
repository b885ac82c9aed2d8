ghost use Rattle.std.specs.Prelude.{◌≡◌, ◌≢◌, ◌<◌, ◌-◌, ◌^◌, ◌==◌, ℕ, [], true, false, length, map, replicate, slice_get, IfOk, OnOk, IfSome};
ghost use Rattle.std.specs.List.{list_any};
ghost use Rattle.b1_model.specs.Opening.{IsOpening};
ghost use Rattle.b1_model.specs.MachineParts.{is_live, node_at, record_or_none};
ghost use Rattle.b1_model.specs.MachineTables.{count_of, node_named, with_made};
ghost use Rattle.b1_model.specs.Names.{is_own};
ghost use Rattle.b1_model.specs.MachineStep.{peer_before, wire_made, wire_counted, wire_held as with_wire_held};

use crate::state::PeerState;
use b1_handles::HandleTable;
use b1_model::{NodeRef, Opening};
use b1_nodes::NodeTable;
use b1_peer_dead::DeadList;
use b1_peer_pool::Store;
use b1_peer_queue::Mailbox;
use b1_pool::PoolKind;
use b1_queue::QueueKind;
use std::alloc::{AllocError, Global};

/// The users of an opening's peers. An error is want of memory.
fn users_of(alloc: Global, opening: &Opening) -> Result<Vec<u32>, AllocError>
    ensures { IfOk result (λ users. users.items ≡ map (λ spec. spec.user) opening.now.peers) }
{
    let mut users = Vec::new(alloc);
    let mut left = opening.peers.as_slice();
    while let [spec, rest @ ..] = left {
        users.push(spec.user)?;
        left = rest;
    }
    Ok(users)
}

impl<Q: QueueKind, P: PoolKind> PeerState<Q, P> {
    /// The peer `me` of an opening, before any wire: an empty queue, a pool of zero bytes that is free, no node and no
    /// handle. An error is want of memory.
    pub fn make(alloc: Global, me: u32, opening: &Opening) -> Result<Self, AllocError>
        requires opening { IsOpening opening.now }
        requires me { me < length opening.now.peers }
        ensures part { IfOk result (λ p.
            IfSome (slice_get opening.now.peers me) (λ spec. p.part
            ≡ peer_before opening.now me spec)) }
        ensures bytes { IfOk result (λ p. p.bytes ≡ replicate p.part.pool 0) }
        ensures users { IfOk result (λ p. (user : ℕ)
            → list_any (λ u. u == user) p.users
            ≡ list_any (λ spec. spec.user == user) opening.now.peers) }
    {
        let Some(spec) = opening.peers.get(me as usize) else {
            unreachable!()
        };
        let users = users_of(alloc, opening)?;
        let peers = opening.peers.len() as u32;
        Ok(PeerState {
            me,
            peers,
            epoch: 0,
            clock: opening.first_clock,
            mail: Mailbox::make(alloc, spec.limits, spec.user, &users)?,
            store: Store::make(alloc, spec.pool)?,
            nodes: NodeTable::make(alloc, me, peers)?,
            handles: HandleTable::make(alloc),
            dead: DeadList::make(alloc)?,
            alloc,
        })
    }

    /// The node that a number names: a node of this peer for a multiple of 4, made where it isn't known yet, or a held
    /// one for a given number; `None` where the number is neither. Fewer than 2^32 - 1 nodes may have been made. An
    /// error is want of memory; the peer is of no more use then.
    pub fn wire_name(&mut self, number: u64) -> Result<Option<NodeRef>, AllocError>
        requires few { length self.old.part.nodes < 2 ^ 32 - 1 }
        ensures node { IfOk result (λ node. node ≡ node_named self.new.part number) }
        ensures made { OnOk result (self.new
            ≡ record self.old { part = wire_made number self.old.part }) }
    {
        if number % 4 == 0 {
            self.make_node(number)?;
        }
        Ok(self.name(number))
    }

    /// Makes the node of an own number, where it isn't known yet. An error is want of memory.
    fn make_node(&mut self, number: u64) -> Result<(), AllocError>
        requires few { length self.old.part.nodes < 2 ^ 32 - 1 }
        requires own { is_own number ≡ true }
        ensures { OnOk result (self.new
            ≡ record self.old {
              part = record self.old.part
                  { nodes = with_made self.old.part.peers number self.old.part.nodes };
            }) }
    {
        if self.nodes.find(number).is_some() {
            return Ok(());
        }
        let most = self.nodes.len() as usize + 1;
        let Some(most) = most.checked_add(self.handles.len()) else {
            return Err(AllocError);
        };
        self.mail.reserve(most)?;
        self.nodes.reserve(1)?;
        self.nodes.create(number);
        Ok(())
    }

    /// Counts one more reference of the peer `to`, another one than this, to a live node of this peer. The queue must be
    /// empty, and the count below 2^63.
    pub fn wire_count(&mut self, serial: u32, to: u32)
        requires made { serial < length self.old.part.nodes }
        requires other { to ≢ self.old.part.me }
        requires peer { to < self.old.part.peers }
        requires live { is_live (node_at self.old.part serial).state ≡ true }
        requires unused { self.old.part.queue ≡ [] }
        requires fits { count_of (node_at self.old.part serial) to < 2 ^ 63 }
        ensures { self.new ≡ record self.old {
          part = wire_counted (record {
            owner = self.old.part.me;
            serial = serial;
          }) to self.old.part;
        } }
    {
        self.nodes.attach(serial, to);
    }

    /// Another peer's node is held once more, under the next number where it wasn't held. It must not be dead and be held
    /// less than 2^63 times; fewer than 2^60 numbers may have been given. An error is want of memory; the peer is of no
    /// more use then.
    pub fn wire_held(&mut self, node: NodeRef) -> Result<(), AllocError>
        requires other { node.owner ≢ self.old.part.me }
        requires few { self.old.part.given < 2 ^ 60 }
        requires not_dead { (record_or_none node self.old.part.handles).dead ≡ false }
        requires fits { (record_or_none node self.old.part.handles).held < 2 ^ 63 }
        ensures { OnOk result (self.new
            ≡ record self.old { part = with_wire_held node self.old.part }) }
    {
        let Some(records) = self.handles.len().checked_add(1) else {
            return Err(AllocError);
        };
        let Some(most) = records.checked_add(self.nodes.len() as usize) else {
            return Err(AllocError);
        };
        let Some(items) = records.checked_add(self.mail.len()) else {
            return Err(AllocError);
        };
        self.mail.reserve(most)?;
        self.dead.reserve(items)?;
        self.dead.reserve_singles(records)?;
        self.handles.wire(node)?;
        Ok(())
    }

    /// The node that a number names: one of this peer for a multiple of 4, else a held one; `None` where it names nothing.
    pub(crate) fn name(&self, number: u64) -> Option<NodeRef>
        ensures { result ≡ node_named self.now.part number }
    {
        if number % 4 != 0 {
            return self.handles.node_of(number);
        }
        let serial = self.nodes.find(number)?;
        Some(NodeRef {
            owner: self.me,
            serial,
        })
    }
}
