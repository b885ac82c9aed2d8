ghost use Rattle.b1_model.specs.declared.naming.Opening.{Opening};
ghost use Rattle.b1_model.specs.MachineStep.{opening_state};
ghost use Rattle.b1_inv.specs.Receipts.{ReceiptsRight};
ghost use Rattle.b1_inv.specs.Kept.{KeptBySteps};

/// Every bus begins with its receipts right, and a step keeps them so: nodes have own numbers, and each destroy notice
/// that a driver received has an even number, an own one or a given one.
pub fn receipts_stay_right()
    ensures opening { (o : Opening) → ReceiptsRight (opening_state o) }
    ensures kept { KeptBySteps (λ o t. ReceiptsRight t) }
{}
