use b1_model::{Answer, Begun, Command, PeerSet, Places, Reason, Refused, Sending, SlotLists};

/// How far an open SEND is.
#[derive(Drop)]
pub enum SendStage {
    /// It stages; the slots stand ready for when all destinations answered.
    Staging {
        begun: Begun,
        places: Vec<Option<Reason>>,
        slots: SlotLists,
        collected: u64,
    },
    /// It is refused, and takes back what it staged, from `place` on.
    Unstaging {
        begun: Begun,
        places: Places,
        refused: Refused,
        place: u32,
    },
    /// It attaches the handle of this number for the destination `place`.
    Attaching {
        sending: Sending,
        place: u32,
        handle: usize,
    },
    /// Its stamp is next.
    Stamping {
        sending: Sending,
    },
    /// It syncs from `place` on.
    Syncing {
        sending: Sending,
        stamp: u64,
        place: u32,
    },
    /// It commits from `place` on.
    Committing {
        sending: Sending,
        stamp: u64,
        place: u32,
    },
}

/// Where a SEND stands after an event.
#[derive(Drop)]
pub enum SendAfter {
    Goes(SendStage),
    Ends(Answer),
}

/// What a destruction's visits found: the greatest clock, and the peers where a notice was staged.
#[derive(Drop)]
pub struct Visits {
    pub collected: u64,
    pub staged: PeerSet,
}

/// How far an open destruction is. Its doomed nodes stand beside it.
#[derive(Drop)]
pub enum DestroyStage {
    /// It visits the holders that are left.
    Visiting {
        visits: Visits,
        left: PeerSet,
    },
    /// Its stamp is next.
    Dooming {
        visits: Visits,
    },
    /// It syncs from this place of the peers on.
    SyncingNotices {
        visits: Visits,
        stamp: u64,
        place: usize,
    },
    /// Its commit at its own peer is next.
    CommittingOwn {
        visits: Visits,
        stamp: u64,
    },
    /// It commits from this place of the peers on.
    CommittingNotices {
        visits: Visits,
        stamp: u64,
        place: usize,
    },
}

/// How far an open command is.
#[derive(Drop)]
pub enum Stage {
    Starting,
    Sending(SendStage),
    Dropping,
    Reaping(Answer),
    Destroying(DestroyStage),
    Flushing(Option<u64>),
}

/// Where a command stands after an event.
#[derive(Drop)]
pub enum After {
    Goes(Stage),
    Ends(Answer),
}

/// An open command.
#[derive(Drop)]
pub struct Open {
    pub command: Command,
    pub stage: Stage,
}
