use b1_heap::IndexedHeap;
use b1_peer::PeerState;
use b1_poolx::SizedPool;

/// A peer of the bus, with the kinds of its queue and its pool.
pub type Peer = PeerState<IndexedHeap, SizedPool>;

/// The bus, with the kinds of its queues and pools.
pub type Bus = b1_locks::Bus<IndexedHeap, SizedPool>;

/// A driver of it.
pub type Driver = b1_locks::Driver<IndexedHeap, SizedPool>;

/// The bus's table of locks.
pub(crate) type Board = b1_locks::Board<IndexedHeap, SizedPool>;

/// A seat of that table.
pub(crate) type Place = b1_locks::Place<IndexedHeap, SizedPool>;
