ghost use Rattle.std.specs.Prelude.{◌≡◌, ℕ, None};
ghost use Rattle.b1_model.specs.declared.naming.Opening.{Opening};
ghost use Rattle.b1_model.specs.Opening.{IsOpening};
ghost use Rattle.b1_model.specs.MachineParts.{DriverPart, State};
ghost use Rattle.b1_model.specs.MachineStep.{Reached};
ghost use Rattle.b1_inv.specs.Words.{IsDriver};
ghost use Rattle.b1_serial_bus.specs.Parts.{Bus};
ghost use Rattle.b1_serial_rest.specs.Standing.{bus_of};
ghost use Rattle.b1_serial_rest.specs.Rest.{BoxesRight, AtRest};

/// A reached state in which no command is open is at rest, for the serial bus that its parts show, where the boxes of that
/// bus are right: nothing is staged, owed or to be given up, no node is dying, and the owners' counts are what lines and
/// boxed slots have.
pub fn a_reached_state_without_open_commands_is_at_rest()
    ensures { (o : Opening) (t : State) (bus : Bus) → IsOpening o → Reached o t
        → ((p : ℕ) (d : DriverPart) → IsDriver t p d → d.doing ≡ None)
        → bus ≡ bus_of t → BoxesRight bus → AtRest o t bus }
{}
