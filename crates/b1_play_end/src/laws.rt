ghost use Rattle.std.specs.Prelude.{ℕ, List};
ghost use Rattle.b1_model.specs.declared.naming.Opening.{Opening};
ghost use Rattle.b1_model.specs.declared.commands.Command.{Command};
ghost use Rattle.b1_model.specs.declared.records.Record.{Record};
ghost use Rattle.b1_model.specs.Opening.{IsOpening};
ghost use Rattle.b1_model.specs.MachineOrder.{DrainedOf, Stuck};
ghost use Rattle.b1_schedule.specs.Schedule.{IsPlay, IsStall};

/// The state in which a schedule ends is drained: no command is open, all have ended, and the queue of every peer that
/// hasn't disconnected is empty.
pub fn a_finished_play_is_drained()
    ensures { (o : Opening) (lists : List (List Command)) (turns : List ℕ) (r : Record)
        → IsOpening o → (play : IsPlay o lists turns r) → DrainedOf lists play.state }
{}

/// The state in which a schedule stalls is stuck: no command is open, and each peer whose commands aren't at their end
/// stands at an AWAIT with an empty queue, and hasn't disconnected.
pub fn a_stalled_play_is_stuck()
    ensures { (o : Opening) (lists : List (List Command)) (turns : List ℕ) (waiting : List ℕ)
        (r : Record) → IsOpening o → (stall : IsStall o lists turns waiting r)
        → Stuck lists stall.state }
{}
