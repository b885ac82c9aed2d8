ghost use Rattle.std.specs.Prelude.{◌≡◌};
ghost use Rattle.b1_model.specs.MachineParts.{is_odd};
ghost use Rattle.b1_peer.specs.Fronts.{kind_by, kind_of, front_goes};

use crate::state::PeerState;
use b1_model::{Entry, Key, NodeRef};
use b1_pool::PoolKind;
use b1_queue::QueueKind;

/// What stands at the front of a queue.
#[derive(Clone, Copy)]
pub enum Kind {
    /// Nothing.
    Absent,
    /// An entry that isn't committed.
    Staged { origin: u32, stamp: u64 },
    /// A message for an own node.
    Message { serial: u32 },
    /// The destroy notice of an own node.
    Own { serial: u32 },
    /// The destroy notice of another peer's node.
    Foreign { node: NodeRef },
    /// The release notice of an own node.
    Release { serial: u32 },
}

/// What an entry under a key is.
fn entry_kind(key: Key, entry: &Entry) -> Kind
    ensures { result ≡ kind_by (is_odd key.stamp) key entry.now }
{
    if key.stamp % 2 == 1 {
        return Kind::Staged {
            origin: key.origin,
            stamp: key.stamp,
        };
    }
    match entry {
        Entry::Message { serial, .. } => Kind::Message { serial: *serial },
        Entry::OwnNotice { serial, .. } => Kind::Own { serial: *serial },
        Entry::ForeignNotice { node, .. } => Kind::Foreign { node: *node },
        Entry::ReleaseNotice { serial } => Kind::Release { serial: *serial },
    }
}

impl<Q: QueueKind, P: PoolKind> PeerState<Q, P> {
    /// What stands at the front of the queue.
    pub(crate) fn front_kind(&self) -> Kind
        ensures { result ≡ kind_of self.now.part.queue }
    {
        match self.mail.front() {
            None => Kind::Absent,
            Some((key, entry)) => entry_kind(key, entry),
        }
    }

    /// Whether the front is committed, and for nobody: a message for an own node whose destroy notice was taken, or the
    /// destroy notice of another peer's node that isn't held.
    pub(crate) fn is_front_for_nobody(&self) -> bool
        ensures { result ≡ front_goes self.now.part }
    {
        match self.front_kind() {
            Kind::Message { serial } => self.nodes.notice_taken(serial),
            Kind::Foreign { node } => !self.handles.is_held(node),
            _ => false,
        }
    }
}
