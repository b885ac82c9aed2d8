use b1_handles::HandleTable;
use b1_nodes::NodeTable;
use b1_peer_dead::DeadList;
use b1_peer_pool::Store;
use b1_peer_queue::Mailbox;
use b1_pool::PoolKind;
use b1_queue::QueueKind;
use std::alloc::Global;
use std::marker::Model;

/// A peer: its clock, its queue, its pool, its nodes, its records of other peers' nodes, and the references that it is to
/// give up.
#[derive(Drop)]
pub struct PeerState<Q: QueueKind, P: PoolKind> {
    pub(crate) me: u32,
    pub(crate) peers: u32,
    pub(crate) epoch: u64,
    pub(crate) clock: u64,
    pub(crate) mail: Mailbox<Q>,
    pub(crate) store: Store<P>,
    pub(crate) nodes: NodeTable,
    pub(crate) handles: HandleTable,
    pub(crate) dead: DeadList,
    pub(crate) alloc: Global,
}

impl<Q: QueueKind, P: PoolKind> Model for PeerState<Q, P> {
    ghost use Rattle.b1_peer.specs.Seen.{PeerSeen};
    ghost use Rattle.b1_peer.specs.State.{seen_of, IsPeer};

    ghost Value = { PeerSeen };

    ghost view = { λ p. seen_of (record {
      me = p.me;
      peers = p.peers;
      epoch = p.epoch;
      clock = p.clock;
      mail = p.mail;
      store = p.store;
      nodes = p.nodes;
      handles = p.handles;
      dead = p.dead;
    }) };

    ghost invariant = { λ p. IsPeer (record {
      me = p.me;
      peers = p.peers;
      epoch = p.epoch;
      clock = p.clock;
      mail = p.mail;
      store = p.store;
      nodes = p.nodes;
      handles = p.handles;
      dead = p.dead;
    }) };
}
