ghost use Rattle.std.specs.Prelude.{◌≡◌, ℕ, true, false, not, nat_lt, List, Some, slice_get};
ghost use Rattle.b1_model.specs.declared.naming.Opening.{Opening};
ghost use Rattle.b1_model.specs.Opening.{IsOpening};
ghost use Rattle.b1_model.specs.declared.commands.Command.{Command};
ghost use Rattle.b1_model.specs.declared.commands.Command.TheVariants as cmd;
ghost use Rattle.b1_model.specs.MachineParts.{DriverPart, State};
ghost use Rattle.b1_model.specs.MachineDriver.{is_flushing};
ghost use Rattle.b1_model.specs.MachineStep.{Reached};
ghost use Rattle.b1_model.specs.Script.{resolved};
ghost use Rattle.b1_schedule.specs.Shortage.{Shortage};
ghost use Rattle.b1_schedule.specs.Schedule.{removed_by};
ghost use Rattle.b1_inv.specs.Words.{IsDriver};
ghost use Rattle.b1_serial_bus.specs.Parts.{Part, Bus, at_peer};
ghost use Rattle.b1_serial_bus.specs.Receive.{is_empty, cleared, waits};
ghost use Rattle.b1_serial_bus.specs.Commands.{after_command_of};
ghost use Rattle.b1_serial_rest.specs.Rest.{AtRest};
ghost use Rattle.b1_serial_rest.specs.Alone.{is_alone};
ghost use Rattle.b1_serial_rest.specs.Whole.{RunsWhole};

/// A SLICE_RELEASE, a PEER_QUERY, a PEER_RESET without flush, and any command of a peer that has disconnected, is run whole
/// by a schedule, and leads from rest to rest: the serial bus then is that after the command.
pub fn a_small_command_runs_to_rest()
    ensures { (o : Opening) (s : State) (bus : Bus) (p : ℕ) (y : Part) (command : Command)
        (m : Shortage) → IsOpening o → Reached o s → AtRest o s bus → slice_get bus p ≡ Some y
        → is_alone (resolved command y.calls) y ≡ true
        → (t : State) × RunsWhole o m p command s t
        × AtRest o t (after_command_of m p command bus) }
{}

/// A HANDLE_RELEASE, refused or accepted, is run whole by a schedule, and leads from rest to rest: the serial bus then is
/// that after the command.
pub fn a_release_runs_to_rest()
    ensures { (o : Opening) (s : State) (bus : Bus) (p : ℕ) (y : Part) (command : Command)
        (number : ℕ) (m : Shortage) → IsOpening o → Reached o s → AtRest o s bus
        → slice_get bus p ≡ Some y → y.shut ≡ false
        → resolved command y.calls ≡ cmd.Release number
        → (t : State) × RunsWhole o m p command s t
        × AtRest o t (after_command_of m p command bus) }
{}

/// A RECV, and an AWAIT that doesn't wait, is run whole by a schedule, and leads from rest to rest: the serial bus then is
/// that after the command. An AWAIT that waits leads to rest too: the peer's box then is without what was for nobody, and
/// the attempt removed something where there was something in the box.
pub fn a_receive_runs_to_rest()
    ensures received { (o : Opening) (s : State) (bus : Bus) (p : ℕ) (y : Part) (m : Shortage)
        → IsOpening o → Reached o s → AtRest o s bus → slice_get bus p ≡ Some y → y.shut ≡ false
        → (t : State) × RunsWhole o m p cmd.Recv s t
        × AtRest o t (after_command_of m p cmd.Recv bus) }
    ensures awaited { (o : Opening) (s : State) (bus : Bus) (p : ℕ) (y : Part) (m : Shortage)
        → IsOpening o → Reached o s → AtRest o s bus → slice_get bus p ≡ Some y → y.shut ≡ false
        → waits y ≡ false
        → (t : State) × RunsWhole o m p cmd.Await s t
        × AtRest o t (after_command_of m p cmd.Await bus) }
    ensures waited { (o : Opening) (s : State) (bus : Bus) (p : ℕ) (y : Part) (m : Shortage)
        → IsOpening o → Reached o s → AtRest o s bus → slice_get bus p ≡ Some y
        → waits y ≡ true
        → (t : State) × RunsWhole o m p cmd.Await s t × AtRest o t (at_peer y.me cleared bus)
        × ((e : DriverPart) → IsDriver t p e → nat_lt 0 (removed_by e) ≡ not (is_empty y.box)) }
{}

/// A NODES_DESTROY, refused or accepted, is run whole by a schedule, and leads from rest to rest: the serial bus then is that
/// after the command.
pub fn a_destruction_runs_to_rest()
    ensures { (o : Opening) (s : State) (bus : Bus) (p : ℕ) (y : Part) (command : Command)
        (numbers : List ℕ) (m : Shortage) → IsOpening o → Reached o s → AtRest o s bus
        → slice_get bus p ≡ Some y → y.shut ≡ false
        → resolved command y.calls ≡ cmd.Destroy numbers
        → (t : State) × RunsWhole o m p command s t
        × AtRest o t (after_command_of m p command bus) }
{}

/// A PEER_RESET with flush, and a PEER_DISCONNECT, refused or accepted, is run whole by a schedule, and leads from rest to
/// rest: the serial bus then is that after the command.
pub fn a_reset_runs_to_rest()
    ensures { (o : Opening) (s : State) (bus : Bus) (p : ℕ) (y : Part) (command : Command)
        (m : Shortage) → IsOpening o → Reached o s → AtRest o s bus → slice_get bus p ≡ Some y
        → y.shut ≡ false → is_flushing (resolved command y.calls) ≡ true
        → (t : State) × RunsWhole o m p command s t
        × AtRest o t (after_command_of m p command bus) }
{}
