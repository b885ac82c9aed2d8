ghost use Rattle.std.specs.Prelude.{ℕ, Option};
ghost use Rattle.b1_model.specs.declared.naming.Opening.{Opening};
ghost use Rattle.b1_model.specs.declared.commands.Command.{Command};
ghost use Rattle.b1_model.specs.MachineParts.{State};
ghost use Rattle.b1_model.specs.MachineStep.{Step};
ghost use Rattle.b1_inv.specs.Kept.{BeginsWith};
ghost use Rattle.b1_inv_record.specs.Kept.{KeptFromRight};
ghost use Rattle.b1_inv_record.specs.Destructions.{ForeignNoticeRight};
ghost use Rattle.b1_inv_record.specs.Numbers.{DestroysOwn};
ghost use Rattle.b1_inv_destroys.specs.OwnNotices.{OwnKeyed, OwnOnce, OwnUntaken, TakenDestroyed, OwnPresent, OwnStaged, DoomedPresent};

/// Every NODES_DESTROY that destroys names own numbers alone, and every bus begins so.
pub fn destructions_stay_own()
    ensures opening_DestroysOwn { BeginsWith (λ _. DestroysOwn) }
    ensures kept_DestroysOwn { (o : Opening) (s : State) (p : ℕ) (c : Option Command) (t : State)
        → DestroysOwn s → Step o s p c t → DestroysOwn t }
{}

/// A step keeps the committed notices of other peers' nodes under the keys of the record's destructions, and dead
/// records of destroyed nodes without a queued notice; every bus begins so.
pub fn notices_of_others_stay_right()
    ensures opening_ForeignNoticeRight { BeginsWith ForeignNoticeRight }
    ensures kept_ForeignNoticeRight { KeptFromRight ForeignNoticeRight }
{}

/// A step keeps own notices staged at their places until the commit at their own peer, and committed ones under the
/// keys of the record's destructions; one of a node at most, none of a node whose notice was taken or that isn't of
/// the part's epoch; and nodes whose notice was taken destroyed. Every bus begins so.
pub fn own_notices_stay_right()
    ensures opening_OwnKeyed { BeginsWith OwnKeyed }
    ensures kept_OwnKeyed { KeptFromRight OwnKeyed }
    ensures opening_OwnOnce { BeginsWith (λ _. OwnOnce) }
    ensures kept_OwnOnce { KeptFromRight (λ _. OwnOnce) }
    ensures opening_OwnUntaken { BeginsWith (λ _. OwnUntaken) }
    ensures kept_OwnUntaken { KeptFromRight (λ _. OwnUntaken) }
    ensures opening_TakenDestroyed { BeginsWith (λ _. TakenDestroyed) }
    ensures kept_TakenDestroyed { KeptFromRight (λ _. TakenDestroyed) }
    ensures opening_OwnPresent { BeginsWith OwnPresent }
    ensures kept_OwnPresent { KeptFromRight OwnPresent }
    ensures opening_OwnStaged { BeginsWith (λ _. OwnStaged) }
    ensures kept_OwnStaged { KeptFromRight (λ _. OwnStaged) }
{}

/// A step keeps open destructions to nodes of their peer's epoch, and every bus begins so.
pub fn doomed_nodes_stay_present()
    ensures opening_DoomedPresent { BeginsWith DoomedPresent }
    ensures kept_DoomedPresent { KeptFromRight DoomedPresent }
{}
