ghost use Rattle.std.specs.Prelude.{◌≡◌, ℕ, false, Some, slice_get};
ghost use Rattle.b1_model.specs.declared.naming.Opening.{Opening};
ghost use Rattle.b1_model.specs.Opening.{IsOpening};
ghost use Rattle.b1_model.specs.declared.commands.Command.{Command};
ghost use Rattle.b1_model.specs.declared.commands.Command.TheVariants as cmd;
ghost use Rattle.b1_model.specs.declared.commands.SendCmd.{SendCmd};
ghost use Rattle.b1_model.specs.MachineParts.{State};
ghost use Rattle.b1_model.specs.MachineStep.{Reached};
ghost use Rattle.b1_model.specs.Script.{resolved};
ghost use Rattle.b1_schedule.specs.Shortage.{Shortage};
ghost use Rattle.b1_serial_bus.specs.Parts.{Part, Bus};
ghost use Rattle.b1_serial_bus.specs.Commands.{after_command_of};
ghost use Rattle.b1_serial_rest.specs.Rest.{AtRest};
ghost use Rattle.b1_serial_rest.specs.Whole.{RunsWhole};

/// A SEND of a peer that hasn't disconnected, whole and with no other driver's step in between, leads the machine from
/// rest to rest, wherever memory is wanting: the serial bus then is that after the command. It may be refused at its
/// begin or at a destination, with CONTINUE or without, or be sent to those that accepted it.
pub fn a_send_keeps_rest()
    ensures runs { (o : Opening) (s : State) (bus : Bus) (p : ℕ) (y : Part) (command : Command)
        (c : SendCmd) (m : Shortage) → IsOpening o → Reached o s
        → AtRest o s bus → slice_get bus p ≡ Some y → y.shut ≡ false
        → resolved command y.calls ≡ cmd.Send c
        → (t : State) × RunsWhole o m p command s t
        × AtRest o t (after_command_of m p command bus) }
{}
