use crate::answers::{Answer, Places, Reason, Refused};
use crate::commands::Command;
use crate::lists::Items;
use crate::naming::NodeRef;
use crate::parts::{Attach, Begun, Dead, Doomed, Owed, Received, Slots, Visited};
use crate::peers::PeerSet;

/// The event that a driver does next. Where no peer stands, it is at the driver's own peer.
#[derive(Clone, Copy, Debug)]
pub enum Action {
    /// No command is open.
    Rest,
    /// A SEND's checks at the sender.
    Begin,
    /// A message is staged for a destination.
    Stage {
        peer: u32,
        place: u32,
    },
    /// A staged message is taken back.
    Unstage {
        peer: u32,
        place: u32,
    },
    /// A carried node's owner counts a reference for a destination.
    Attach {
        peer: u32,
        serial: u32,
        dest: u32,
    },
    /// A SEND gets its stamp.
    Stamp,
    /// A recipient's clock is raised to the stamp.
    Sync {
        peer: u32,
        stamp: u64,
    },
    /// A staged message is committed.
    Commit {
        peer: u32,
        place: u32,
        stamp: u64,
    },
    /// A destruction's staged notices are committed.
    CommitNotices {
        peer: u32,
        stamp: u64,
    },
    /// The front is taken.
    Recv,
    /// An item of the list of references to be given up is taken.
    Reap,
    /// A handle is given up once.
    Release,
    /// A node's owner takes references back.
    DropRefs {
        peer: u32,
        serial: u32,
        holder: u32,
        k: u64,
        clock: u64,
    },
    /// A destruction's checks, and its own notices.
    BeginDestroy,
    /// A destruction's notices are staged at a holder.
    Visit {
        peer: u32,
    },
    /// A destruction gets its stamp, or finds holders that came late.
    StampDestroy,
    /// The peer's queue and handles are given up.
    Flush,
    /// A command that needs no other peer and no phase.
    Local,
}

/// What an event answered.
#[derive(Debug, Drop)]
pub enum Outcome {
    /// The nodes that a SEND's numbers name.
    Begin(Result<Begun, Reason>),
    /// The clock collected.
    Stage(Result<u64, Reason>),
    /// Nothing.
    Unstage,
    /// What the owner of a carried node answers.
    Attach(Attach),
    /// The stamp.
    Stamp(u64),
    /// Nothing.
    Sync,
    /// Whether the staged message was there.
    Commit(bool),
    /// Nothing.
    CommitNotices,
    /// What was taken, and whether references are to be given up.
    Recv {
        got: Received,
        dead: bool,
    },
    /// The item, and whether more are to be given up.
    Reap {
        got: Option<Dead>,
        dead: bool,
    },
    /// The reference to be dropped.
    Release(Result<Owed, Reason>),
    /// Nothing.
    DropRefs,
    /// The peers to be visited, and the doomed nodes.
    BeginDestroy {
        got: Result<PeerSet, Reason>,
        doomed: Doomed,
    },
    /// What the visit found.
    Visit(Visited),
    /// The stamp, or the holders that came late.
    StampDestroy(Result<u64, PeerSet>),
    /// Whether references are to be given up.
    Flush {
        dead: bool,
    },
    /// The call's answer.
    Local(Answer),
}

/// References that a driver is to drop: `amount` of `holder`'s references to a node, with the holder's clock.
#[derive(Clone, Copy, Debug, PartialEq, Eq)]
pub struct OwedDrop {
    /// The node.
    pub node: NodeRef,
    /// The peer whose references they are.
    pub holder: u32,
    /// How many.
    pub amount: u64,
    /// The clock that the drop brings to the owner.
    pub clock: u64,
}

/// The slots of a SEND, a list for each destination.
pub type SlotLists = Items<Slots>;

/// What a SEND that staged all its messages has.
#[derive(Debug, Drop)]
pub struct Sending {
    /// The nodes of its destinations and of its carried handles.
    pub begun: Begun,
    /// What each destination answered.
    pub places: Places,
    /// The greatest clock collected, 0 where none was.
    pub collected: u64,
    /// What each carried handle is at each destination.
    pub slots: SlotLists,
}

/// What an open destruction has.
#[derive(Debug, Drop)]
pub struct Destruction {
    /// The serials of the doomed nodes.
    pub doomed: Doomed,
    /// The greatest clock collected, 0 where none was.
    pub collected: u64,
    /// The peers where a notice was staged.
    pub staged: PeerSet,
}

/// How far an open command is.
#[derive(Debug, Drop)]
pub enum Phase {
    /// Its first event is next.
    Starting,
    /// A SEND stages: the next place is the number of places done.
    Staging {
        begun: Begun,
        places: Places,
        collected: u64,
    },
    /// A refused SEND takes back what it staged, from `place` on.
    Unstaging {
        begun: Begun,
        places: Places,
        refused: Refused,
        place: u32,
    },
    /// A SEND attaches: the next is the handle `slot` for the destination `place`.
    Attaching {
        sending: Sending,
        place: u32,
        slot: u32,
    },
    /// A SEND's stamp is next.
    Stamping {
        sending: Sending,
    },
    /// A SEND syncs its recipients, from `place` on.
    Syncing {
        sending: Sending,
        stamp: u64,
        place: u32,
    },
    /// A SEND commits, from `place` on; what it owes is dropped first.
    Committing {
        sending: Sending,
        stamp: u64,
        place: u32,
    },
    /// A HANDLE_RELEASE owes its drop.
    Dropping,
    /// A RECV, or a flushed PEER_RESET or PEER_DISCONNECT, gives references up.
    Reaping {
        answer: Answer,
    },
    /// A destruction visits the holders that are left.
    Visiting {
        destruction: Destruction,
        left: PeerSet,
    },
    /// A destruction's stamp is next.
    Dooming {
        destruction: Destruction,
    },
    /// A destruction syncs the peers where a notice was staged, from the place `at` of their list on.
    SyncingNotices {
        destruction: Destruction,
        stamp: u64,
        at: u32,
    },
    /// A destruction's commit at its own peer is next.
    CommittingOwn {
        destruction: Destruction,
        stamp: u64,
    },
    /// A destruction commits at the peers where a notice was staged, from the place `at` of their list on.
    CommittingNotices {
        destruction: Destruction,
        stamp: u64,
        at: u32,
    },
    /// A PEER_RESET's or PEER_DISCONNECT's flush is next.
    Flushing {
        stamp: Option<u64>,
    },
}

/// An open command.
#[derive(Debug, Drop)]
pub struct Doing {
    /// The command.
    pub command: Command,
    /// How far it is.
    pub phase: Phase,
}
