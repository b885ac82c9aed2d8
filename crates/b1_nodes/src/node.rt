ghost use Rattle.std.specs.Prelude.{◌≡◌, ◌<◌, ◌≤◌, ◌^◌, true, false, length, replicate};
ghost use Rattle.b1_model.specs.MachineParts.{is_destroyed, is_live as is_living};
ghost use Rattle.b1_model.specs.MachineTables.{count_of, counted, uncounted, in_state, notice_taken as with_notice_taken, is_unheld as has_no_count};
ghost use Rattle.b1_model.specs.declared.parts.NodeState.TheVariants.{Live, Dying, Destroyed};

use crate::counts::{are_zero, count_in, lower_in, raise_in};
use b1_model::NodeState;
use std::marker::Model;

/// A node at its owner.
#[derive(Debug, Drop)]
pub struct Node {
    number: u64,
    state: NodeState,
    peers: u32,
    counts: Vec<u64>,
    taken: bool,
}

impl Model for Node {
    ghost use Rattle.std.specs.Prelude.{◌≡◌, ◌≤◌, false, length};
    ghost use Rattle.b1_model.specs.MachineParts.{NodePart, is_destroyed};
    ghost use Rattle.b1_nodes.specs.Counts.{padded};

    ghost Value = { NodePart };

    ghost view = { λ n. record {
      number = n.number;
      state = n.state;
      counts = padded n.peers n.counts.items;
      taken = n.taken;
    } };

    ghost invariant = { λ n. record {
      few : length n.counts.items ≤ n.peers;
      full : is_destroyed n.state ≡ false → length n.counts.items ≡ n.peers;
    } };
}

impl Node {
    /// A live node with no reference, whose own notice wasn't taken. `counts` are as many zeros as there are peers.
    pub fn new(number: u64, peers: u32, counts: Vec<u64>) -> Self
        requires { counts.items ≡ replicate peers 0 }
        ensures { result ≡ record {
          number = number;
          state = Live;
          counts = replicate peers 0;
          taken = false;
        } }
    {
        Node {
            number,
            state: NodeState::Live,
            peers,
            counts,
            taken: false,
        }
    }

    /// Its own number.
    pub fn number(&self) -> u64
        ensures { result ≡ self.now.number }
    {
        self.number
    }

    /// Its life.
    pub fn state(&self) -> NodeState
        ensures { result ≡ self.now.state }
    {
        self.state
    }

    /// Whether it is live.
    pub fn is_live(&self) -> bool
        ensures { result ≡ is_living self.now.state }
    {
        self.state == NodeState::Live
    }

    /// Whether its own notice was taken.
    pub fn is_taken(&self) -> bool
        ensures { result ≡ self.now.taken }
    {
        self.taken
    }

    /// How many references a peer has.
    pub fn count(&self, peer: u32) -> u64
        ensures { result ≡ count_of self.now peer }
    {
        count_in(&self.counts, peer)
    }

    /// Whether no peer has a reference.
    pub fn is_unheld(&self) -> bool
        ensures { result ≡ has_no_count self.now }
    {
        are_zero(&self.counts)
    }

    /// Counts one more reference of a peer.
    pub fn raise(&mut self, peer: u32)
        requires kept { is_destroyed self.old.state ≡ false }
        requires peer { peer < length self.old.counts }
        requires fits { count_of self.old peer < 2 ^ 63 }
        ensures { self.new ≡ counted peer self.old }
    {
        raise_in(&mut self.counts, peer);
    }

    /// Counts `k` fewer references of a peer. A destroyed node without references gives up the room of its counts.
    pub fn lower(&mut self, peer: u32, k: u64)
        requires some { 1 ≤ k }
        requires enough { k ≤ count_of self.old peer }
        ensures { self.new ≡ uncounted peer k self.old }
    {
        self.lower_count(peer, k);
        self.forget_zeros();
    }

    /// Counts `k` fewer references of a peer.
    fn lower_count(&mut self, peer: u32, k: u64)
        requires some { 1 ≤ k }
        requires enough { k ≤ count_of self.old peer }
        ensures { self.new ≡ uncounted peer k self.old }
    {
        lower_in(&mut self.counts, peer, k);
    }

    /// Begins its destruction.
    pub fn doom(&mut self)
        requires { is_destroyed self.old.state ≡ false }
        ensures { self.new ≡ in_state Dying self.old }
    {
        self.state = NodeState::Dying;
    }

    /// Destroys it with a stamp. Where it has no references, it gives up the room of its counts.
    pub fn destroy(&mut self, stamp: u64)
        ensures { self.new ≡ in_state (Destroyed stamp) self.old }
    {
        self.end(stamp);
        self.forget_zeros();
    }

    /// Destroys it with a stamp.
    fn end(&mut self, stamp: u64)
        ensures { self.new ≡ in_state (Destroyed stamp) self.old }
    {
        self.state = NodeState::Destroyed { stamp };
    }

    /// Marks that its own notice was taken.
    pub fn take_notice(&mut self)
        ensures { self.new ≡ with_notice_taken self.old }
    {
        self.taken = true;
    }

    /// Whether it is destroyed.
    fn is_ended(&self) -> bool
        ensures { result ≡ is_destroyed self.now.state }
    {
        matches!(self.state, NodeState::Destroyed { .. })
    }

    /// Gives up the room of the counts, where it is destroyed and they are all 0.
    fn forget_zeros(&mut self)
        ensures { self.new ≡ self.old }
    {
        if self.is_ended() && self.is_unheld() {
            self.forget();
        }
    }

    /// Gives up the room of the counts, which are all 0.
    fn forget(&mut self)
        requires destroyed { is_destroyed self.old.state ≡ true }
        requires unheld { has_no_count self.old ≡ true }
        ensures { self.new ≡ self.old }
    {
        self.counts = Vec::new(*self.counts.allocator());
    }
}
