ghost use Rattle.b1_inv.specs.Kept.{BeginsWith};
ghost use Rattle.b1_inv_record.specs.Kept.{KeptFromRight};
ghost use Rattle.b1_inv_record.specs.Entries.{CommittedHasCall, EntryIsSomewhere, GoneBelowQueue, NoticesBelowStamp, PendingAboveTaken, PendingIsStaged, QueuedIsPresent};
ghost use Rattle.b1_inv_record.specs.Right.{EntriesRight};

/// A step keeps own notices that are still staged below the stamp of their destruction, and every bus begins so.
pub fn notices_stay_below_stamps()
    ensures opening_NoticesBelowStamp { BeginsWith (λ _. NoticesBelowStamp) }
    ensures kept_NoticesBelowStamp { KeptFromRight (λ _. NoticesBelowStamp) }
{}

/// A step leaves every queued message for a node of the epoch of its peer's part, and every bus begins so.
pub fn queued_messages_stay_present()
    ensures opening_QueuedIsPresent { BeginsWith QueuedIsPresent }
    ensures kept_QueuedIsPresent { KeptFromRight QueuedIsPresent }
{}

/// A step leaves a staged message at each node of the present epoch where a SEND still waits, and every bus begins so.
pub fn waiting_places_stay_staged()
    ensures opening_PendingIsStaged { BeginsWith PendingIsStaged }
    ensures kept_PendingIsStaged { KeptFromRight PendingIsStaged }
{}

/// A step leaves all that was taken or removed at RECVs, of any epoch, before all that is queued, and not above the
/// peer's clock, and every bus begins so.
pub fn what_has_left_stays_behind()
    ensures opening_GoneBelowQueue { BeginsWith GoneBelowQueue }
    ensures kept_GoneBelowQueue { KeptFromRight GoneBelowQueue }
{}

/// A step leaves what a peer took in a node's epoch at most at the clock that a SEND has collected that still waits
/// there, and every bus begins so.
pub fn waiting_places_stay_above()
    ensures opening_PendingAboveTaken { BeginsWith PendingAboveTaken }
    ensures kept_PendingAboveTaken { KeptFromRight PendingAboveTaken }
{}

/// A step leaves every committed message an entry of a stamped send of the record, and every bus begins so.
pub fn committed_messages_stay_called()
    ensures opening_CommittedHasCall { BeginsWith CommittedHasCall }
    ensures kept_CommittedHasCall { KeptFromRight CommittedHasCall }
{}

/// A step leaves each accepted place of a send of the record with the node that it names, and where that is of its
/// peer's present epoch, its message queued, awaited, received, or cut off by the node's end; every bus begins so.
pub fn entries_stay_somewhere()
    ensures opening_EntryIsSomewhere { BeginsWith EntryIsSomewhere }
    ensures kept_EntryIsSomewhere { KeptFromRight EntryIsSomewhere }
{}

/// A step keeps all that says where each entry of the record is, and every bus begins so.
pub fn entries_stay_right()
    ensures opening_EntriesRight { BeginsWith EntriesRight }
    ensures kept_EntriesRight { KeptFromRight EntriesRight }
{}
