ghost use Rattle.std.specs.Prelude.{◌≡◌, ◌+◌, ◌++◌, ◌≤◌, ◌<◌, ◌^◌, ◌-◌, ◌||◌, filter, filter_map, find, length, map, Some, None, MatchResult, vec_len, vec_capacity};
ghost use Rattle.b1_model.specs.Names.{is_given};
ghost use Rattle.b1_model.specs.MachineTables.{node_named};
ghost use Rattle.b1_model.specs.MachineSend.{first_reason, is_unknown, dead_reason, send_refusal};
ghost use Rattle.b1_peer.specs.Answers.{Begins};

use crate::begin::{has_odd, held_dead, make_all, own_dead, room_for_nodes};
use crate::state::PeerState;
use b1_model::{
    Begun, MOST_DESTINATIONS, MOST_HANDLES, MOST_PAYLOAD, NodeRef, NodeRefs, Reason, SendCmd,
};
use b1_nodes::overflow;
use b1_peer_dead::put_last;
use b1_pool::PoolKind;
use b1_queue::QueueKind;

impl<Q: QueueKind, P: PoolKind> PeerState<Q, P> {
    /// The first refusal of a SEND at its sender, want of memory aside. It takes no memory.
    pub fn may_send(&self, cmd: &SendCmd) -> Result<(), Reason>
        ensures { MatchResult result (λ _. send_refusal self.now.part cmd.now
            ≡ None) (λ r. send_refusal self.now.part cmd.now ≡ Some r) }
    {
        match self.send_refused(cmd) {
            None => Ok(()),
            Some(reason) => Err(reason),
        }
    }

    /// Begins a SEND at its sender: makes nodes for unknown own carried numbers, and answers the nodes that its numbers
    /// name. Fewer than 2^32 - `MOST_HANDLES` nodes may have been made. A refusal is that of `may_send`, or want of memory, and makes
    /// nothing.
    pub fn begin_send(&mut self, cmd: &SendCmd) -> Result<Begun, Reason>
        requires few { length self.old.part.nodes < 2 ^ 32 - MOST_HANDLES }
        ensures begins { Begins self.old.part cmd.now result self.new.part }
        ensures rest { self.new ≡ record self.old { part = self.new.part } }
    {
        if let Some(reason) = self.send_refused(cmd) {
            return Err(reason);
        }
        let Ok(mut to) = Vec::with_capacity(self.alloc, cmd.to.len()) else {
            return Err(Reason::Memory);
        };
        let Ok(mut with) = Vec::with_capacity(self.alloc, cmd.with.len()) else {
            return Err(Reason::Memory);
        };
        if room_for_nodes(
            &mut self.mail,
            &mut self.nodes,
            &self.handles,
            cmd.with.len(),
        )
        .is_err()
        {
            return Err(Reason::Memory);
        }
        make_all(&mut self.nodes, cmd.with.as_slice());
        self.name_all(cmd.to.as_slice(), &mut to);
        self.name_all(cmd.with.as_slice(), &mut with);
        Ok(Begun {
            to: NodeRefs::from_vec(to),
            with: NodeRefs::from_vec(with),
        })
    }

    /// Why a SEND is refused at its sender, want of memory aside.
    fn send_refused(&self, cmd: &SendCmd) -> Option<Reason>
        ensures { result ≡ send_refusal self.now.part cmd.now }
    {
        let to = cmd.to.as_slice();
        let with = cmd.with.as_slice();
        if to.is_empty()
            || to.len() > MOST_DESTINATIONS
            || with.len() > MOST_HANDLES
            || has_odd(to)
            || has_odd(with)
        {
            return Some(Reason::Invalid);
        }
        let len = cmd.payload.len() as u64;
        if len > MOST_PAYLOAD as u64 {
            return Some(Reason::Size { len });
        }
        if let Some(reason) = overflow(self.clock) {
            return Some(reason);
        }
        if let Some(number) = self.first_unknown(to) {
            return Some(Reason::Unknown { number });
        }
        if let Some(number) = self.first_unknown_given(with) {
            return Some(Reason::Unknown { number });
        }
        self.first_dead(with)
    }

    /// The first number that names nothing.
    fn first_unknown(&self, numbers: &[u64]) -> Option<u64>
        ensures { result ≡ find (is_unknown self.now.part) numbers.now }
    {
        let mut left = numbers;
        while let [number, rest @ ..] = left {
            if self.name(*number).is_none() {
                return Some(*number);
            }
            left = rest;
        }
        None
    }

    /// The first given number that names nothing.
    fn first_unknown_given(&self, numbers: &[u64]) -> Option<u64>
        ensures { result ≡ find (is_unknown self.now.part) (filter is_given numbers.now) }
    {
        let mut left = numbers;
        while let [number, rest @ ..] = left {
            if *number % 4 == 2 && self.name(*number).is_none() {
                return Some(*number);
            }
            left = rest;
        }
        None
    }

    /// The refusal of the first number whose node is dead.
    fn first_dead(&self, numbers: &[u64]) -> Option<Reason>
        ensures { result ≡ first_reason (map (dead_reason self.now.part) numbers.now) }
    {
        let mut left = numbers;
        while let [number, rest @ ..] = left {
            if let Some(reason) = self.dead(*number) {
                return Some(reason);
            }
            left = rest;
        }
        None
    }

    /// The refusal of a carried number: an own node that is destroyed, or a held node whose destroy notice was taken.
    fn dead(&self, number: u64) -> Option<Reason>
        ensures { result ≡ dead_reason self.now.part number }
    {
        if number % 4 == 0 {
            own_dead(&self.nodes, self.me, number)
        } else {
            held_dead(&self.handles, number)
        }
    }

    /// Puts the nodes that numbers name behind others, in their order. There must be room for them.
    fn name_all(&self, numbers: &[u64], named: &mut Vec<NodeRef>)
        requires room { vec_len named.old + length numbers.now ≤ vec_capacity named.old }
        ensures { named.new.items ≡ named.old.items
            ++ filter_map (node_named self.now.part) numbers.now }
    {
        let mut left = numbers;
        while let [number, rest @ ..] = left {
            if let Some(node) = self.name(*number) {
                put_last(named, node);
            }
            left = rest;
        }
    }
}
