ghost use Rattle.std.specs.Prelude.{◌≡◌, ℕ, List, Some, slice_get};
ghost use Rattle.b1_model.specs.declared.naming.Opening.{Opening};
ghost use Rattle.b1_model.specs.declared.commands.Command.{Command};
ghost use Rattle.b1_model.specs.declared.records.Record.{Record};
ghost use Rattle.b1_model.specs.Names.{calls_of};
ghost use Rattle.b1_model.specs.Opening.{IsOpening};
ghost use Rattle.b1_model.specs.Script.{Script, commands_of};
ghost use Rattle.b1_model.specs.MachineParts.{DriverPart, State};
ghost use Rattle.b1_model.specs.MachineStep.{Reached, record_of_state};
ghost use Rattle.b1_inv.specs.Sound.{IsSound};
ghost use Rattle.b1_schedule.specs.Shortage.{Shortage};
ghost use Rattle.b1_schedule.specs.Schedule.{Finished, moves, start_of, IsPlay, IsStall};
ghost use Rattle.b1_play_commands.specs.Following.{AllInPlace, Follows};

/// Whatever moves of a schedule led to a state: each driver's calls are the commands of its list in their order, with
/// the references resolved and with answers of the commands' kinds, an AWAIT as a RECV; behind the last command stand
/// only RECVs with receipts; and an open command is the next one of its list, in a phase of its own. Where the schedule
/// has finished, the record of the state has all commands of the script.
pub fn a_play_follows_its_script()
    ensures drivers { (o : Opening) (lists : List (List Command)) (turns : List ℕ) (m : Shortage)
        (count : ℕ) → IsOpening o → ((s : State) → Reached o s → IsSound o s)
        → (p : ℕ) (d : DriverPart)
        → slice_get (moves o lists m count (start_of o turns)).state.drivers p ≡ Some d
        → Follows (commands_of lists p) d }
    ensures recorded { (o : Opening) (lists : List (List Command)) (turns : List ℕ) (m : Shortage)
        (count : ℕ) → IsOpening o → ((s : State) → Reached o s → IsSound o s)
        → (p : ℕ) → AllInPlace (commands_of lists p)
        (calls_of (record_of_state (moves o lists m count (start_of o turns)).state) p) }
    ensures finished { (o : Opening) (lists : List (List Command)) (turns : List ℕ) (m : Shortage)
        (count : ℕ) → IsOpening o → ((s : State) → Reached o s → IsSound o s)
        → (moves o lists m count (start_of o turns)).stage ≡ Finished
        → Script o lists (record_of_state (moves o lists m count (start_of o turns)).state) }
{}

/// What is played is a record of the script: it has all commands of each list. What stalls has a part of each list, from
/// its first command on.
pub fn what_is_played_is_scripted()
    ensures played { (o : Opening) (lists : List (List Command)) (turns : List ℕ) (r : Record)
        → IsOpening o → ((s : State) → Reached o s → IsSound o s)
        → IsPlay o lists turns r → Script o lists r }
    ensures stalled { (o : Opening) (lists : List (List Command)) (turns : List ℕ)
        (waiting : List ℕ) (r : Record) → IsOpening o → ((s : State) → Reached o s → IsSound o s)
        → IsStall o lists turns waiting r → (p : ℕ)
        → AllInPlace (commands_of lists p) (calls_of r p) }
{}
