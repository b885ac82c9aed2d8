ghost use Rattle.std.specs.Prelude.{◌≡◌, ℕ, true};
ghost use Rattle.std.specs.Prelude.{Option as Maybe};
ghost use Rattle.b1_model.specs.declared.naming.NodeRef.{NodeRef};
ghost use Rattle.b1_model.specs.declared.naming.Opening.{Opening};
ghost use Rattle.b1_model.specs.declared.commands.Command.{Command};
ghost use Rattle.b1_model.specs.MachineParts.{State};
ghost use Rattle.b1_model.specs.MachineCounts.{is_live_in, NoneNotified, OnlyLiveNotified, ReleaseDue};
ghost use Rattle.b1_model.specs.MachineStep.{Step};
ghost use Rattle.b1_inv.specs.Sound.{IsSound};
ghost use Rattle.b1_inv.specs.Kept.{BeginsWith};
ghost use Rattle.b1_inv_record.specs.Right.{IsRight};

/// Release notices come and go exactly when they are due. Where a bus begins none is queued, and in a right state only
/// live nodes have one. A live node's notice comes exactly at the drop that takes the last reference to it back, with its
/// owner's clock; it goes exactly when an attach counts a reference again, when the node's destruction begins, or when the
/// owner takes it, and it is taken only where nobody has a reference.
pub fn release_notices_are_due()
    ensures opening { BeginsWith (λ _. NoneNotified) }
    ensures live { (o : Opening) (s : State) → IsSound o s → IsRight o s → OnlyLiveNotified s }
    ensures due { (o : Opening) (s : State) (p : ℕ) (c : Maybe Command) (t : State) → IsSound o s
        → IsRight o s
        → (step : Step o s p c t) (node : NodeRef) (is_live : is_live_in s node ≡ true)
        → ReleaseDue step node is_live }
{}
