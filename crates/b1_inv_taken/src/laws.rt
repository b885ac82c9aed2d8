ghost use Rattle.b1_inv.specs.Kept.{BeginsWith};
ghost use Rattle.b1_inv_record.specs.Kept.{KeptFromRight};
ghost use Rattle.b1_inv_record.specs.Names.{OldNodesDestroyed};
ghost use Rattle.b1_inv_record.specs.Destructions.{TakenHasReceipt};
ghost use Rattle.b1_inv_record.specs.Holders.{OwnSlotsPresent};

/// A step keeps the nodes of earlier epochs destroyed, and every bus begins so.
pub fn old_nodes_stay_destroyed()
    ensures opening_OldNodesDestroyed { BeginsWith OldNodesDestroyed }
    ensures kept_OldNodesDestroyed { KeptFromRight OldNodesDestroyed }
{}

/// A step keeps each notice that its peer took in the epoch of its part among the receipts of that epoch, and every bus
/// begins so.
pub fn taken_notices_stay_received()
    ensures opening_TakenHasReceipt { BeginsWith TakenHasReceipt }
    ensures kept_TakenHasReceipt { KeptFromRight TakenHasReceipt }
{}

/// A step keeps the own slots of queued messages to nodes of the epoch of the queue's part, and every bus begins so.
pub fn own_slots_stay_present()
    ensures opening_OwnSlotsPresent { BeginsWith OwnSlotsPresent }
    ensures kept_OwnSlotsPresent { KeptFromRight OwnSlotsPresent }
{}
