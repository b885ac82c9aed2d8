ghost use Rattle.std.specs.Prelude.{List};
ghost use Rattle.b1_model.specs.declared.naming.Opening.{Opening};
ghost use Rattle.b1_model.specs.Opening.{IsOpening};
ghost use Rattle.b1_model.specs.MachineStep.{Label};
ghost use Rattle.b1_model.specs.MachineOrder.{Late};

/// In whatever order steps follow a valid opening: a send or a destruction that begins after something was received
/// has a later stamp than what was received, where a peer takes part in both.
pub fn receipts_come_before_sends()
    ensures { (o : Opening) (steps : List Label) → IsOpening o → Late o steps }
{}
