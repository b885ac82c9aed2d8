ghost use Rattle.std.specs.Prelude.{◌≡◌};
ghost use Rattle.b1_model.specs.Keys.{compare_keys};

use crate::lists::Items;
use std::cmp::Ordering;

/// A node, by its owner and its serial: its place among the owner's nodes in the order in which they were made,
/// from 0.
#[derive(Clone, Copy, Debug, PartialEq, Eq)]
pub struct NodeRef {
    /// The peer that owns the node.
    pub owner: u32,
    /// The node's place among its owner's nodes.
    pub serial: u32,
}

/// The place of an entry in a peer's queue: ordered by stamp, then by origin, then by index.
#[derive(Clone, Copy, Debug, PartialEq, Eq)]
pub struct Key {
    /// Odd while the entry is staged, even once it is committed.
    pub stamp: u64,
    /// The peer whose command made the entry; 4,294,967,295 for a release notice.
    pub origin: u32,
    /// The place in the command's list of destinations or of destroyed nodes; the serial of a release notice's node.
    pub index: u32,
}

/// What a peer takes from others at most: entries in its queue, bytes of their slices, handles that they carry.
#[derive(Clone, Copy, Debug, PartialEq, Eq)]
pub struct Limits {
    /// Entries.
    pub entries: u32,
    /// Bytes of slices.
    pub bytes: u32,
    /// Carried handles.
    pub handles: u32,
}

/// How a peer is made.
#[derive(Clone, Copy, Debug, PartialEq, Eq)]
pub struct PeerSpec {
    /// The user whom the peer's messages are charged to.
    pub user: u32,
    /// The pool's size in bytes: a multiple of 8, from 8 to 4,194,304.
    pub pool: u32,
    /// What the peer takes at most.
    pub limits: Limits,
}

/// One reference that stands before the first command: `to` holds what `number` names at `from`.
#[derive(Clone, Copy, Debug, PartialEq, Eq)]
pub struct Wire {
    /// The peer that gives the reference.
    pub from: u32,
    /// The peer that gets it, another than `from`.
    pub to: u32,
    /// An own number of `from`, whose node is made where it isn't known, or a given number that `from` holds.
    pub number: u64,
}

/// The peers of a bus, numbered from 0.
pub type Peers = Items<PeerSpec>;

/// The references that stand before the first command, in the order in which they are given.
pub type Wires = Items<Wire>;

/// A bus before the first command.
#[derive(Debug, Drop)]
pub struct Opening {
    /// Every peer's first clock: even, from 0 to 2^62.
    pub first_clock: u64,
    /// The peers, 1 to 64.
    pub peers: Peers,
    /// The wiring.
    pub wires: Wires,
}

/// How two keys stand in a queue's order: by stamp, then by origin, then by index.
pub fn key_cmp(a: &Key, b: &Key) -> Ordering
    ensures { result ≡ compare_keys a.now b.now }
{
    a.stamp
        .cmp(&b.stamp)
        .then(a.origin.cmp(&b.origin))
        .then(a.index.cmp(&b.index))
}
