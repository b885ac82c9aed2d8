ghost use Rattle.std.specs.Prelude.{◌≡◌, ◌≢◌, ◌&&◌, ◌-◌, ◌<◌, ◌≤◌, ◌^◌, [], AllPairs, length, Some, None, IfOk, OnOk, true};
ghost use Rattle.b1_model.specs.declared.parts.NodeState.TheVariants.{Dying, Destroyed};
ghost use Rattle.b1_model.specs.Names.{is_own};
ghost use Rattle.b1_model.specs.MachineParts.{is_live, is_dying};
ghost use Rattle.b1_model.specs.MachineTables.{count_of, serial_of, with_made, with_node, with_nodes, in_state, uncounted, is_unheld, notice_taken as with_notice_taken};
ghost use Rattle.b1_nodes.specs.Nodes.{node_in, attach_answer, attached as with_attached, holders as with_reference, AllMade, AreNodes};

use crate::counts::add_rooms;
use crate::index::Index;
use crate::node::Node;
use crate::nodes::{lower_at, mark_taken, node_at, push_node, raise_at};
use crate::serials::{destroy_all, doom_all, holders_of};
use b1_model::{Attach, MOST_PEERS, NodeState, Nums, PeerSet};
use std::alloc::{AllocError, Global};
use std::marker::Model;

/// A peer's own nodes, by their serials: a node's place in the order in which they were made, from 0.
#[derive(Debug, Drop)]
pub struct NodeTable {
    owner: u32,
    peers: u32,
    nodes: Vec<Node>,
    index: Index,
    late: PeerSet,
    rooms: Vec<Nums>,
    alloc: Global,
}

impl Model for NodeTable {
    ghost use Rattle.b1_model.specs.declared.limits.TheConstants.{MOST_PEERS};
    ghost use Rattle.std.specs.Prelude.{◌≡◌, ◌+◌, ◌<◌, ◌≤◌, ◌^◌, All, length, replicate, vec_len};
    ghost use Rattle.std.specs.Vec.{vec_capacity};
    ghost use Rattle.b1_nodes.specs.Nodes.{Nodes, AreNodes};
    ghost use Rattle.b1_nodes.specs.Index.{IsIndex};

    ghost Value = { Nodes };

    ghost view = { λ t. record {
      owner = t.owner;
      peers = t.peers;
      nodes = t.nodes.items;
      late = t.late;
      spare = vec_len t.rooms;
    } };

    ghost invariant = { λ t. record {
      few_peers : t.peers ≤ MOST_PEERS;
      few_nodes : length t.nodes.items < 2 ^ 32;
      nodes : AreNodes t.peers t.nodes.items;
      rooms : All (λ r. r ≡ replicate t.peers 0) t.rooms.items;
      capacity : vec_len t.nodes + vec_len t.rooms ≤ vec_capacity t.nodes;
      index : IsIndex t.index t.nodes.items;
    } };
}

impl NodeTable {
    /// A table of no nodes and no spare, of the peer `owner` among `peers` peers, at most `MOST_PEERS`. An error is want of
    /// memory.
    pub fn make(alloc: Global, owner: u32, peers: u32) -> Result<NodeTable, AllocError>
        requires few { peers ≤ MOST_PEERS }
        ensures { IfOk result (λ t. t
            ≡ record { owner = owner; peers = peers; nodes = []; late = []; spare = 0 }) }
    {
        Ok(NodeTable {
            owner,
            peers,
            nodes: Vec::new(alloc),
            index: Index::new(alloc),
            late: PeerSet::new(),
            rooms: Vec::new(alloc),
            alloc,
        })
    }

    /// Makes room for `n` more nodes. An error is want of memory, and leaves every node. Each node that was made since the
    /// last call is taken into the index, in a time of log n.
    pub fn reserve(&mut self, n: usize) -> Result<(), AllocError>
        ensures kept { self.new ≡ record self.old { spare = self.new.spare } }
        ensures enough { OnOk result (n ≤ self.new.spare) }
        ensures spare { self.old.spare ≤ self.new.spare }
    {
        self.index.learn(&self.nodes)?;
        self.nodes.reserve(n)?;
        add_rooms(&mut self.rooms, self.alloc, self.peers, n)
    }

    /// Makes a live node, and answers its serial. `number` is its own number.
    pub fn create(&mut self, number: u64) -> u32
        requires spare { 1 ≤ self.old.spare }
        requires own { is_own number ≡ true }
        requires unknown { serial_of number self.old.nodes ≡ None }
        requires few { length self.old.nodes < 2 ^ 32 - 1 }
        ensures serial { result ≡ length self.old.nodes }
        ensures found { serial_of number self.new.nodes ≡ Some result }
        ensures created { self.new
            ≡ record self.old {
              nodes = with_made self.old.peers number self.old.nodes;
              spare = self.old.spare - 1;
            } }
    {
        let serial = self.nodes.len() as u32;
        let Some(room) = self.rooms.pop() else {
            unreachable!()
        };
        push_node(
            &mut self.nodes,
            Node::new(number, self.peers, room.into_vec()),
        );
        serial
    }

    /// How many nodes were made.
    pub fn len(&self) -> u32
        ensures len { result ≡ length self.now.nodes }
        ensures nodes { AreNodes self.now.peers self.now.nodes }
    {
        self.nodes.len() as u32
    }

    /// A node's own number.
    pub fn number(&self, serial: u32) -> u64
        requires { serial < length self.now.nodes }
        ensures number { result ≡ (node_in self.now.nodes serial).number }
        ensures own { is_own result ≡ true }
        ensures found { serial_of result self.now.nodes ≡ Some serial }
    {
        node_at(&self.nodes, serial).number()
    }

    /// The serial of the node with an own number; `None` where there is none. It takes a time of log n for n nodes, and
    /// where no node that was made before the last `reserve` has the number, it goes through those made since.
    pub fn find(&self, number: u64) -> Option<u32>
        ensures { result ≡ serial_of number self.now.nodes }
    {
        self.index.find(&self.nodes, number)
    }

    /// A node's life.
    pub fn state(&self, serial: u32) -> NodeState
        requires { serial < length self.now.nodes }
        ensures { result ≡ (node_in self.now.nodes serial).state }
    {
        node_at(&self.nodes, serial).state()
    }

    /// Marks that a node's own notice was taken.
    pub fn take_notice(&mut self, serial: u32)
        requires { serial < length self.old.nodes }
        ensures { self.new
            ≡ record self.old { nodes = with_node serial with_notice_taken self.old.nodes } }
    {
        mark_taken(&mut self.nodes, serial);
    }

    /// Whether a node's own notice was taken.
    pub fn notice_taken(&self, serial: u32) -> bool
        requires { serial < length self.now.nodes }
        ensures { result ≡ (node_in self.now.nodes serial).taken }
    {
        node_at(&self.nodes, serial).is_taken()
    }

    /// Counts a reference of `dest` to a node that isn't destroyed, where `dest` isn't the owner itself. At a dying node
    /// `dest` is then late.
    pub fn attach(&mut self, serial: u32, dest: u32) -> Attach
        requires made { serial < length self.old.nodes }
        requires peer { dest < self.old.peers }
        requires fits { count_of (node_in self.old.nodes serial) dest < 2 ^ 63 }
        ensures answer { result ≡ attach_answer serial dest self.old }
        ensures attached { self.new ≡ with_attached serial dest self.old }
    {
        match node_at(&self.nodes, serial).state() {
            NodeState::Destroyed { stamp } => return Attach::Void { stamp },
            _ if dest == self.owner => return Attach::Own,
            NodeState::Dying => self.late.insert(dest),
            NodeState::Live => {}
        }
        raise_at(&mut self.nodes, serial, dest);
        Attach::Counted
    }

    /// Takes back `k` references of a holder. Whether the node is live and no peer has a reference now.
    pub fn detach(&mut self, serial: u32, holder: u32, k: u64) -> bool
        requires made { serial < length self.old.nodes }
        requires some { 1 ≤ k }
        requires enough { k ≤ count_of (node_in self.old.nodes serial) holder }
        ensures unheld { result ≡ (is_live (node_in self.new.nodes serial).state
            && is_unheld (node_in self.new.nodes serial)) }
        ensures detached { self.new
            ≡ record self.old { nodes = with_node serial (uncounted holder k) self.old.nodes } }
    {
        lower_at(&mut self.nodes, serial, holder, k)
    }

    /// Begins the destruction of live nodes, and answers the peers that have a reference to one of them. No peer is late
    /// afterwards.
    pub fn dying(&mut self, serials: &[u32]) -> PeerSet
        requires live { AllMade (λ n. is_live n.state) self.old.nodes serials.now }
        requires distinct { AllPairs ◌≢◌ serials.now }
        ensures holders { result ≡ with_reference self.old.peers self.old.nodes serials.now }
        ensures doomed { self.new
            ≡ record self.old {
              nodes = with_nodes serials.now (in_state Dying) self.old.nodes;
              late = [];
            } }
    {
        let holders = holders_of(&self.nodes, self.peers, serials);
        doom_all(&mut self.nodes, serials);
        self.late = PeerSet::new();
        holders
    }

    /// The peers that attached to a dying node since they were last asked for.
    pub fn late(&mut self) -> PeerSet
        ensures late { result ≡ self.old.late }
        ensures emptied { self.new ≡ record self.old { late = [] } }
    {
        std::mem::replace(&mut self.late, PeerSet::new())
    }

    /// Destroys dying nodes with a stamp.
    pub fn stamped(&mut self, serials: &[u32], stamp: u64)
        requires dying { AllMade (λ n. is_dying n.state) self.old.nodes serials.now }
        requires none_late { self.old.late ≡ [] }
        ensures { self.new ≡ record self.old {
          nodes = with_nodes serials.now
              (in_state (Destroyed stamp)) self.old.nodes;
        } }
    {
        destroy_all(&mut self.nodes, serials, stamp);
    }
}
