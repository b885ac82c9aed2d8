use crate::answers::Answer;
use crate::commands::Command;
use crate::lists::Items;

/// A command that ended, with its answer.
#[derive(Debug, Drop)]
pub struct Call {
    /// The command, with its references resolved.
    pub command: Command,
    /// Its answer.
    pub answer: Answer,
}

/// The calls of one peer, in their order.
pub type Calls = Items<Call>;

/// What one peer did.
#[derive(Debug, Drop)]
pub struct PeerCalls {
    /// How often the peer's queue was flushed.
    pub epoch: u64,
    /// The peer's clock, even.
    pub clock: u64,
    /// The peer's calls.
    pub calls: Calls,
}

/// What each peer did, in the order of their numbers.
pub type PeerLists = Items<PeerCalls>;

/// What happened on a bus.
#[derive(Debug, Drop)]
pub struct Record {
    /// What each peer did.
    pub peers: PeerLists,
}

/// A call that has a stamp: a send or a destruction.
#[derive(Clone, Copy, Debug, PartialEq, Eq)]
pub struct Stamp {
    /// The stamp.
    pub stamp: u64,
    /// The peer whose call it is.
    pub origin: u32,
    /// The call's place in that peer's list, from 0.
    pub call: u64,
}

/// Stamped calls.
pub type Stamps = Items<Stamp>;
