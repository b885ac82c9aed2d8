ghost use Rattle.std.specs.Prelude.{◌≡◌};
ghost use Rattle.b1_model.specs.Errno.{errno_of};

use crate::lists::{Bytes, Items, Nums};
use crate::naming::{Key, Limits};

/// A quantity that a quota limits.
#[derive(Clone, Copy, Debug, PartialEq, Eq)]
pub enum Quantity {
    /// Entries in the queue.
    Entries,
    /// Bytes of slices.
    Bytes,
    /// Carried handles.
    Handles,
}

/// What a RECV finds where it can't take a message.
#[derive(Clone, Copy, Debug, PartialEq, Eq)]
pub enum Front {
    /// The queue is empty.
    Absent,
    /// The first entry isn't committed yet: its origin, and its odd stamp.
    Staged { origin: u32, stamp: u64 },
}

/// Why a command, or a destination of a SEND, is refused.
#[derive(Clone, Copy, Debug)]
pub enum Reason {
    /// ENXIO: a number or an offset isn't known in the caller's own tables.
    Unknown {
        number: u64,
    },
    /// EAGAIN: the front of the queue is absent or staged.
    Again(Front),
    /// ENOMEM: want of memory.
    Memory,
    /// EINVAL: the command's own form.
    Invalid,
    /// EXFULL: no free slice of the destination's pool fits; the length asked and the greatest free length.
    Full {
        asked: u32,
        largest: u32,
    },
    /// EOVERFLOW: the clock looked at is 2^62 or more.
    Overflow {
        clock: u64,
    },
    /// EMSGSIZE: the payload is longer than 65,536 bytes; its length.
    Size {
        len: u64,
    },
    /// ESHUTDOWN: this peer has disconnected.
    Shutdown,
    /// EHOSTUNREACH: the node is dying, destroyed, or dead at the sender.
    Gone {
        owner: u32,
        serial: u32,
    },
    /// EDQUOT: a quantity that the destination would be charged fails its limit.
    Quota {
        what: Quantity,
        own: u64,
        others: u64,
        limit: u32,
        asked: u32,
    },
}

/// A refused command: why, and the destination whose refusal it is, if it is one's.
#[derive(Clone, Copy, Debug)]
pub struct Refused {
    /// Why.
    pub reason: Reason,
    /// The place in the list of destinations, from 0.
    pub place: Option<u32>,
}

/// What a RECV takes.
#[derive(Debug, Drop)]
pub enum Receipt {
    /// A message: its key, the own number of its destination, the offset of its slice in bytes, the handles by their
    /// numbers here (2^64 - 1 for one that is gone), and the bytes.
    Message {
        key: Key,
        number: u64,
        offset: u32,
        handles: Nums,
        payload: Bytes,
    },
    /// A node was destroyed: the notice's key, and the node's own or given number.
    Destroyed {
        key: Key,
        number: u64,
    },
    /// No foreign handle of an own node is left: the notice's stamp, and the node's own number.
    Released {
        stamp: u64,
        number: u64,
    },
}

/// What each destination answered, in their order: `None` where it accepted the message.
pub type Places = Items<Option<Reason>>;

/// An accepted SEND.
#[derive(Debug, Drop)]
pub struct Sent {
    /// The message's stamp, even.
    pub stamp: u64,
    /// What each destination answered.
    pub places: Places,
}

/// The answer of a command.
#[derive(Debug, Drop)]
pub enum Answer {
    /// Of a SEND.
    Sent(Sent),
    /// Of a RECV.
    Got(Receipt),
    /// Of a HANDLE_RELEASE, a SLICE_RELEASE, or a PEER_RESET without flush.
    Done,
    /// Of a NODES_DESTROY: the destruction's stamp, even.
    Destroyed {
        stamp: u64,
    },
    /// Of a PEER_RESET with flush or a PEER_DISCONNECT: the destruction's stamp, `None` where no node was live.
    Reset {
        stamp: Option<u64>,
    },
    /// Of a PEER_QUERY.
    Info {
        user: u32,
        pool: u32,
        limits: Limits,
    },
    /// Of any command.
    Refused(Refused),
}

/// What an attempt of an AWAIT came to.
#[derive(Clone, Copy, Debug, PartialEq, Eq)]
pub enum Tried {
    /// It took a receipt, the last of the calls.
    Got,
    /// The peer has disconnected: the refusal is the last of the calls.
    Shut,
    /// It waits: no call was added.
    Waiting {
        /// What the queue's front was.
        front: Front,
        /// How many entries that were for nobody left the queue.
        removed: u64,
    },
}

/// The Linux error number of a reason.
pub fn errno(reason: &Reason) -> u32
    ensures { result ≡ errno_of reason.now }
{
    match reason {
        Reason::Unknown { .. } => 6,
        Reason::Again(_) => 11,
        Reason::Memory => 12,
        Reason::Invalid => 22,
        Reason::Full { .. } => 54,
        Reason::Overflow { .. } => 75,
        Reason::Size { .. } => 90,
        Reason::Shutdown => 108,
        Reason::Gone { .. } => 113,
        Reason::Quota { .. } => 122,
    }
}
