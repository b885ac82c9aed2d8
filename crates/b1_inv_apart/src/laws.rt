ghost use Rattle.b1_model.specs.declared.naming.Opening.{Opening};
ghost use Rattle.b1_model.specs.MachineStep.{opening_state};
ghost use Rattle.b1_inv.specs.Apart.{OwnNoticesApart};
ghost use Rattle.b1_inv.specs.Notices.{NoticesRight};
ghost use Rattle.b1_inv.specs.Kept.{KeptBySteps};

/// In an opening no notice is staged, and a step keeps the staged notices of each peer's own nodes at places of their
/// own, where its notices are right afterwards.
pub fn own_notices_stay_apart()
    ensures opening { (o : Opening) → NoticesRight (opening_state o)
        → OwnNoticesApart (opening_state o) }
    ensures kept { KeptBySteps (λ o t. NoticesRight t → OwnNoticesApart t) }
{}
