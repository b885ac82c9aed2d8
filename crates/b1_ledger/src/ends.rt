ghost use Rattle.b1_ledger.specs.Ends.{DestructionAddsItsNotices, DestructionAddsNoMessage};
ghost use Rattle.b1_ledger.specs.Ends.{DestructionKeepsOtherNotices, DestructionMakesLate};
ghost use Rattle.b1_ledger.specs.Ends.{EntriesBehindNotice, MessagesBehindMessage};
ghost use Rattle.b1_ledger.specs.Ends.{NothingBehindFlush, NoticesBehindMessage};
ghost use Rattle.b1_ledger.specs.Ends.{PlainCallKeepsOthers, QuietCallChangesNothing};
ghost use Rattle.b1_ledger.specs.Ends.{SendAddsItsPlaces, SendKeepsNotices, SendKeepsOtherKeys};

/// What each peer may receive next after a call without a stamp: the others the same as before, and its own peer too,
/// where the call is no receipt, no release and no flush.
pub fn next_after_a_plain_call()
    ensures all { QuietCallChangesNothing }
    ensures others { PlainCallKeepsOthers }
{}

/// What a peer may receive next after a message: the messages above it, and the notices above it of nodes that
/// concerned the peer before or stood in a slot of the message.
pub fn next_after_a_message()
    ensures messages { MessagesBehindMessage }
    ensures notices { NoticesBehindMessage }
{}

/// What a peer may receive next after a destroy notice: what is above it.
pub fn next_after_a_notice()
    ensures { EntriesBehindNotice }
{}

/// What each peer may receive next after a send: what it could before, and the send's accepted places at the owners of
/// their nodes, in the nodes' epochs.
pub fn next_after_a_send()
    ensures others { SendKeepsOtherKeys }
    ensures notices { SendKeepsNotices }
    ensures own { SendAddsItsPlaces }
{}

/// What each peer may receive next after a destruction, its own peer where the destruction is no flush: the messages
/// whose nodes aren't destroyed before them, the notices that it could before, and the destruction's at the peers that
/// its nodes concern.
pub fn next_after_a_destruction()
    ensures messages { DestructionMakesLate }
    ensures no_message { DestructionAddsNoMessage }
    ensures others { DestructionKeepsOtherNotices }
    ensures own { DestructionAddsItsNotices }
{}

/// Behind a flush that is its peer's last call there is nothing to receive.
pub fn nothing_behind_a_flush()
    ensures { NothingBehindFlush }
{}
