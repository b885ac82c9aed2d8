use crate::lists::{Bytes, Nums};
use crate::naming::NodeRef;
use crate::parts::{NodeRefs, Slots};

/// What a peer's queue holds under a key.
#[derive(Debug, Drop)]
pub enum Entry {
    /// A message to a node of this peer.
    Message {
        /// The peer that sent it.
        origin: u32,
        /// The sender's user, whom it is charged to.
        user: u32,
        /// The place in the list of destinations.
        index: u32,
        /// The destination node's serial.
        serial: u32,
        /// Where its slice begins in the pool, in bytes.
        offset: u32,
        /// The payload's length in bytes.
        len: u32,
        /// The carried nodes.
        with: NodeRefs,
        /// What each carried handle is, once the message is committed.
        slots: Slots,
        /// The buffer for the receipt's handles.
        handles: Nums,
        /// The buffer for the receipt's payload.
        payload: Bytes,
    },
    /// An own node is being destroyed, or was.
    OwnNotice {
        /// The node's serial.
        serial: u32,
        /// The place in the list of destroyed nodes.
        index: u32,
    },
    /// Another peer's node, which this peer has a record of, is being destroyed, or was.
    ForeignNotice {
        /// The node.
        node: NodeRef,
        /// The place in the list of destroyed nodes.
        index: u32,
    },
    /// No foreign handle of an own node is left.
    ReleaseNotice {
        /// The node's serial.
        serial: u32,
    },
}

/// What a message is charged at its destination.
#[derive(Clone, Copy, Debug, PartialEq, Eq)]
pub struct Charge {
    /// Entries in the queue.
    pub entries: u32,
    /// Bytes of its slice.
    pub bytes: u32,
    /// Carried handles.
    pub handles: u32,
}
