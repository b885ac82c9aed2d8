ghost use Rattle.std.specs.Prelude.{ℕ};
ghost use Rattle.std.specs.Prelude.{Option as Maybe};
ghost use Rattle.b1_model.specs.declared.naming.Opening.{Opening};
ghost use Rattle.b1_model.specs.declared.commands.Command.{Command};
ghost use Rattle.b1_model.specs.Opening.{IsOpening};
ghost use Rattle.b1_model.specs.MachineParts.{State};
ghost use Rattle.b1_model.specs.MachineStep.{Reached, Step};
ghost use Rattle.b1_inv.specs.Sound.{IsSound};
ghost use Rattle.b1_inv.specs.Kept.{BeginsWith};
ghost use Rattle.b1_inv_record.specs.Right.{PartsRight};
ghost use Rattle.b1_inv_slices.specs.Slices.{ReceivedKept, SlicesUsed};

/// The published slices of a pool are those that its peer received and hasn't given back, in the epoch of its part, with
/// the lengths of payload and handles; and each other slice is free, or a queued message's. Every bus begins so, steps
/// keep it, and so it is of every reached state.
pub fn slices_stay_right()
    ensures opening { BeginsWith (λ _. ReceivedKept) }
    ensures kept { (o : Opening) (s : State) (p : ℕ) (c : Maybe Command) (t : State) → IsSound o s
        → PartsRight s → ReceivedKept s → Step o s p c t → ReceivedKept t }
    ensures reached { (o : Opening) (s : State) → IsOpening o → Reached o s → ReceivedKept s }
    ensures used { (o : Opening) (s : State) → IsOpening o → Reached o s → SlicesUsed s }
{}
