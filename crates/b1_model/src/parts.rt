use crate::answers::{Front, Receipt};
use crate::lists::Items;
use crate::naming::NodeRef;

/// A node's life.
#[derive(Clone, Copy, Debug, PartialEq, Eq)]
pub enum NodeState {
    /// It takes messages.
    Live,
    /// A destruction of it has begun.
    Dying,
    /// It was destroyed with this stamp.
    Destroyed { stamp: u64 },
}

/// What the owner of a carried node answers where a message that carries it goes to a peer.
#[derive(Clone, Copy, Debug, PartialEq, Eq)]
pub enum Attach {
    /// The peer's count of references to the node has risen by one.
    Counted,
    /// The peer owns the node itself.
    Own,
    /// The node was destroyed with this stamp.
    Void { stamp: u64 },
}

/// A carried handle in a queued message.
#[derive(Clone, Copy, Debug, PartialEq, Eq)]
pub enum Slot {
    /// Nothing is known of it yet.
    Unattached,
    /// It is a counted reference.
    Attached,
    /// It is the receiver's own node.
    Own,
    /// Its node is destroyed.
    Void,
}

/// The slots of one message, one for each carried handle.
pub type Slots = Items<Slot>;

/// Nodes, in their order.
pub type NodeRefs = Items<NodeRef>;

/// References that are to be dropped: each node with how many of it.
pub type Drops = Items<(NodeRef, u64)>;

/// The serials of the nodes that a destruction destroys, in its order.
pub type Doomed = Items<u32>;

/// What a SEND's begin found: the node of each destination, and of each carried handle.
#[derive(Debug, Drop)]
pub struct Begun {
    /// The node of each destination.
    pub to: NodeRefs,
    /// The node of each carried handle.
    pub with: NodeRefs,
}

/// What a RECV took, or the front that it found, and how many entries for nobody it removed before.
#[derive(Debug, Drop)]
pub struct Received {
    /// What was taken, or why nothing was.
    pub front: Result<Receipt, Front>,
    /// How many entries were removed before.
    pub removed: u64,
}

/// One item of a peer's list of references to be given up, with the peer's clock.
#[derive(Debug, Drop)]
pub struct Dead {
    /// The references.
    pub drops: Drops,
    /// The peer's clock, which the drops bring to the owners.
    pub clock: u64,
}

/// One reference to be dropped after a release, with the holder's clock.
#[derive(Clone, Copy, Debug, PartialEq, Eq)]
pub struct Owed {
    /// The node.
    pub node: NodeRef,
    /// The holder's clock.
    pub clock: u64,
}

/// What a destruction's visit of one peer found: the peer's clock, and whether a notice was staged there.
#[derive(Clone, Copy, Debug, PartialEq, Eq)]
pub struct Visited {
    /// The peer's clock.
    pub clock: u64,
    /// Whether a notice was staged.
    pub staged: bool,
}
