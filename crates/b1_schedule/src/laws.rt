ghost use Rattle.std.specs.Prelude.{◌≡◌, ℕ, List, true, false, Some};
ghost use Rattle.std.specs.Prelude.{Option as Maybe};
ghost use Rattle.b1_model.specs.declared.naming.Opening.{Opening};
ghost use Rattle.b1_model.specs.declared.commands.Command.{Command};
ghost use Rattle.b1_model.specs.declared.records.Record.{Record};
ghost use Rattle.b1_model.specs.MachineParts.{State};
ghost use Rattle.b1_model.specs.MachineOrder.{no_command_open};
ghost use Rattle.b1_model.specs.MachineStep.{Step, stepped, record_of_state};
ghost use Rattle.b1_step.specs.Fixed.{IsNumbered};
ghost use Rattle.b1_inv.specs.Sends.{SendsRight};
ghost use Rattle.b1_schedule.specs.Shortage.{Shortage, is_short, shortage_of, no_shortage};
ghost use Rattle.b1_schedule.specs.Agreement.{AllAgree};
ghost use Rattle.b1_schedule.specs.Schedule.{IsPlay, IsStall};

/// A step takes nothing back of where memory was wanting, and the bit that the state afterwards shows leads to that
/// state.
pub fn a_step_shows_its_shortage()
    ensures before { (o : Opening) (s : State) (p : ℕ) (c : Maybe Command) (t : State)
        (m : Shortage) → SendsRight s → Step o s p c t → AllAgree m t → AllAgree m s }
    ensures step { (o : Opening) (s : State) (p : ℕ) (c : Maybe Command) (t : State) (m : Shortage)
        → SendsRight s → (step : Step o s p c t) → AllAgree m t
        → stepped o (is_short m step.driver c) p c s ≡ Some t }
{}

/// Where no command is open, the record of a state shows where memory was wanting.
pub fn a_record_shows_its_shortage()
    ensures shown { (o : Opening) (s : State) → IsNumbered o s → no_command_open s ≡ true
        → AllAgree (shortage_of (record_of_state s)) s }
    ensures nowhere { (o : Opening) (s : State) → IsNumbered o s → no_command_open s ≡ true
        → ((p k : ℕ) (place : Maybe ℕ) → shortage_of (record_of_state s) p k place ≡ false)
        → AllAgree no_shortage s }
{}

/// What is played of a script is one record for the places that it refuses for memory. So where it refuses none, it is a
/// function of the script alone; and a script that stalls where memory is wanting nowhere is played to its end only where
/// the record refuses some place for memory.
pub fn a_schedule_has_one_end()
    ensures one { (o : Opening) (lists : List (List Command)) (turns : List ℕ) (r : Record)
        (q : Record) → IsPlay o lists turns r → IsPlay o lists turns q
        → ((p k : ℕ) (place : Maybe ℕ) → shortage_of r p k place ≡ shortage_of q p k place)
        → r ≡ q }
    ensures stalled { (o : Opening) (lists : List (List Command)) (turns : List ℕ) (r : Record)
        (waiting : List ℕ) (q : Record) → IsPlay o lists turns r → IsStall o lists turns waiting q
        → ((p k : ℕ) (place : Maybe ℕ) → shortage_of r p k place ≡ false) → ⊥ }
{}
