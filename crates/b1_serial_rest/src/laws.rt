ghost use Rattle.std.specs.Prelude.{◌≡◌, ℕ, Bool, true, false, Some, slice_get};
ghost use Rattle.b1_model.specs.declared.naming.Opening.{Opening};
ghost use Rattle.b1_model.specs.Opening.{IsOpening};
ghost use Rattle.b1_model.specs.declared.commands.Command.{Command};
ghost use Rattle.b1_model.specs.declared.commands.Command.TheVariants as cmd;
ghost use Rattle.b1_model.specs.MachineParts.{DriverPart, State};
ghost use Rattle.b1_model.specs.MachineStep.{Step, stepped, opening_state};
ghost use Rattle.b1_model.specs.Script.{resolved};
ghost use Rattle.b1_schedule.specs.Shortage.{Shortage};
ghost use Rattle.b1_schedule.specs.Schedule.{beginning, with_step};
ghost use Rattle.b1_inv.specs.Words.{IsDriver};
ghost use Rattle.b1_serial_bus.specs.Parts.{Part, Bus};
ghost use Rattle.b1_serial_bus.specs.Commands.{after_command, after_command_of};
ghost use Rattle.b1_serial_bus.specs.Opening.{opened};
ghost use Rattle.b1_serial_rest.specs.Rest.{AtRest};
ghost use Rattle.b1_serial_rest.specs.Alone.{is_alone};
ghost use Rattle.b1_serial_rest.specs.Unheld.{is_unheld};

/// Before the first command the machine is at rest, and it stands for the serial bus before its first command.
pub fn a_bus_begins_at_rest()
    ensures opening { (o : Opening) → IsOpening o → AtRest o (opening_state o) (opened o) }
{}

/// A SLICE_RELEASE, a PEER_QUERY, a PEER_RESET without flush, and any command of a peer that has disconnected, is one step
/// of the machine, which leads from rest to rest: the serial bus then is that after the command. A schedule's step does the
/// same, with the command's references resolved.
pub fn a_command_alone_keeps_rest()
    ensures done { (o : Opening) (s : State) (bus : Bus) (p : ℕ) (y : Part)
        (command : Command) (m : Shortage) (memory : Bool)
        → AtRest o s bus → slice_get bus p ≡ Some y → is_alone command y ≡ true
        → (t : State) × (stepped o memory p (Some command) s ≡ Some t)
        × AtRest o t (after_command m command y bus) }
    ensures kept { (o : Opening) (s : State) (bus : Bus) (p : ℕ) (y : Part)
        (command : Command) (m : Shortage) (t : State)
        → AtRest o s bus → slice_get bus p ≡ Some y → is_alone command y ≡ true
        → Step o s p (Some command) t → AtRest o t (after_command m command y bus) }
    ensures scheduled { (o : Opening) (s : State) (bus : Bus) (p : ℕ) (y : Part) (d : DriverPart)
        (command : Command) (m : Shortage)
        → AtRest o s bus → slice_get bus p ≡ Some y → IsDriver s p d
        → is_alone (resolved command y.calls) y ≡ true
        → AtRest o (with_step o m p (beginning (Some command) d) d s)
        (after_command_of m p command bus) }
{}

/// A HANDLE_RELEASE of a number that no line has is one step of the machine, which leads from rest to rest: the serial
/// bus then is that after the command.
pub fn a_refused_release_keeps_rest()
    ensures kept { (o : Opening) (s : State) (bus : Bus) (p : ℕ) (y : Part) (number : ℕ)
        (m : Shortage) (t : State)
        → AtRest o s bus → slice_get bus p ≡ Some y → y.shut ≡ false → is_unheld y number ≡ true
        → Step o s p (Some (cmd.Release number)) t
        → AtRest o t (after_command m (cmd.Release number) y bus) }
{}
