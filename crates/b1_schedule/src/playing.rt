ghost use Rattle.std.specs.Prelude.{◌≡◌, ◌+◌, ℕ, true, false, ◌∷◌, [], Some, None, slice_get};
ghost use Rattle.std.specs.Prelude.{Option as Maybe, Bool as Bit, List as Listed};
ghost use Rattle.b1_model.specs.declared.naming.Opening.{Opening};
ghost use Rattle.b1_model.specs.declared.commands.Command.{Command};
ghost use Rattle.b1_model.specs.declared.commands.Command.TheVariants as cmd;
ghost use Rattle.b1_model.specs.MachineParts.{DriverPart, State};
ghost use Rattle.b1_model.specs.MachineOrder.{next_command, no_command_open};
ghost use Rattle.b1_model.specs.MachineStep.{Step, opening_state, record_of_state};
ghost use Rattle.b1_step.specs.Fixed.{IsNumbered};
ghost use Rattle.b1_inv.specs.Sends.{SendsRight};
ghost use Rattle.b1_schedule.specs.Shortage.{shortage_of};
ghost use Rattle.b1_schedule.specs.Schedule.{beginning, drain_after, ending, has_step, round_after, round_end, waiting_peers, IsPlay, IsStall};
ghost use Rattle.b1_schedule.specs.Schedule.Stage.{Draining, Finished, Round, Stalled, Turning};
ghost use Rattle.b1_schedule.specs.Played.{PlayedTo};

/// The schedule of a script goes on from the opening with each turn that is left.
pub fn turns_are_played()
    ensures start { (o : Opening) (lists : Listed (Listed Command)) (turns : Listed ℕ)
        → PlayedTo o lists turns (opening_state o) (Turning turns) }
    ensures step { (o : Opening) (lists : Listed (Listed Command)) (turns : Listed ℕ) (s : State)
        (p : ℕ) (rest : Listed ℕ) (c : Maybe Command) (t : State) → SendsRight s
        → (step : Step o s p c t) → c ≡ beginning (next_command lists p step.driver) step.driver
        → PlayedTo o lists turns s (Turning (p ∷ rest)) → PlayedTo o lists turns t (Turning rest) }
    ensures idle { (o : Opening) (lists : Listed (Listed Command)) (turns : Listed ℕ) (s : State)
        (p : ℕ) (rest : Listed ℕ) (d : DriverPart) → slice_get s.drivers p ≡ Some d
        → has_step lists p d ≡ false → PlayedTo o lists turns s (Turning (p ∷ rest))
        → PlayedTo o lists turns s (Turning rest) }
    ensures over { (o : Opening) (lists : Listed (Listed Command)) (turns : Listed ℕ) (s : State)
        → PlayedTo o lists turns s (Turning []) → PlayedTo o lists turns s (Round 0 false) }
{}

/// A round goes on with each step of its peer, passes by a peer that has none, and ends behind the last peer.
pub fn rounds_are_played()
    ensures step { (o : Opening) (lists : Listed (Listed Command)) (turns : Listed ℕ) (s : State)
        (p : ℕ) (gained : Bit) (c : Maybe Command) (t : State) → SendsRight s
        → (step : Step o s p c t) → c ≡ beginning (next_command lists p step.driver) step.driver
        → PlayedTo o lists turns s (Round p gained)
        → PlayedTo o lists turns t (round_after p gained (ending step.driver step.new_driver)) }
    ensures passed { (o : Opening) (lists : Listed (Listed Command)) (turns : Listed ℕ) (s : State)
        (p : ℕ) (gained : Bit) (d : DriverPart) → slice_get s.drivers p ≡ Some d
        → has_step lists p d ≡ false → PlayedTo o lists turns s (Round p gained)
        → PlayedTo o lists turns s (Round (p + 1) gained) }
    ensures end { (o : Opening) (lists : Listed (Listed Command)) (turns : Listed ℕ) (s : State)
        (p : ℕ) (gained : Bit) → slice_get s.drivers p ≡ None
        → PlayedTo o lists turns s (Round p gained)
        → PlayedTo o lists turns s (round_end lists s gained) }
{}

/// A pass of the drain goes on with each step of its peer, passes by a peer that has disconnected, and ends behind the
/// last peer: another pass begins where it gained.
pub fn passes_are_played()
    ensures step { (o : Opening) (lists : Listed (Listed Command)) (turns : Listed ℕ) (s : State)
        (p : ℕ) (gained : Bit) (c : Maybe Command) (t : State) → SendsRight s
        → (step : Step o s p c t) → step.driver.shut ≡ false
        → c ≡ beginning (Some cmd.Await) step.driver → PlayedTo o lists turns s (Draining p gained)
        → PlayedTo o lists turns t (drain_after p gained (ending step.driver step.new_driver)) }
    ensures passed { (o : Opening) (lists : Listed (Listed Command)) (turns : Listed ℕ) (s : State)
        (p : ℕ) (gained : Bit) (d : DriverPart) → slice_get s.drivers p ≡ Some d → d.shut ≡ true
        → PlayedTo o lists turns s (Draining p gained)
        → PlayedTo o lists turns s (Draining (p + 1) gained) }
    ensures again { (o : Opening) (lists : Listed (Listed Command)) (turns : Listed ℕ) (s : State)
        (p : ℕ) → slice_get s.drivers p ≡ None → PlayedTo o lists turns s (Draining p true)
        → PlayedTo o lists turns s (Draining 0 false) }
    ensures end { (o : Opening) (lists : Listed (Listed Command)) (turns : Listed ℕ) (s : State)
        (p : ℕ) → slice_get s.drivers p ≡ None → PlayedTo o lists turns s (Draining p false)
        → PlayedTo o lists turns s Finished }
{}

/// Where the schedule ends and no command is open, the record is what is played; where it stalls and the record shows no
/// want of memory, the schedule without any stalls there.
pub fn a_play_ends()
    ensures finished { (o : Opening) (lists : Listed (Listed Command)) (turns : Listed ℕ)
        (s : State) → IsNumbered o s → no_command_open s ≡ true → PlayedTo o lists turns s Finished
        → IsPlay o lists turns (record_of_state s) }
    ensures stalled { (o : Opening) (lists : Listed (Listed Command)) (turns : Listed ℕ) (s : State)
        → IsNumbered o s → no_command_open s ≡ true
        → ((p k : ℕ) (place : Maybe ℕ) → shortage_of (record_of_state s) p k place ≡ false)
        → PlayedTo o lists turns s Stalled
        → IsStall o lists turns (waiting_peers lists s) (record_of_state s) }
{}
