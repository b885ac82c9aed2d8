ghost use Rattle.std.specs.Prelude.{ℕ, List};
ghost use Rattle.b1_model.specs.declared.naming.Opening.{Opening};
ghost use Rattle.b1_model.specs.declared.commands.Command.{Command};
ghost use Rattle.b1_model.specs.declared.records.Record.{Record};
ghost use Rattle.b1_model.specs.Opening.{IsOpening};
ghost use Rattle.b1_model.specs.Legal.{Legal, Whole};
ghost use Rattle.b1_schedule.specs.Schedule.{IsPlay, IsStall};

/// The record of every play is legal and whole, and that of every stall is legal, whatever the turns are and wherever
/// memory was wanting.
pub fn plays_are_legal()
    ensures legal { (o : Opening) (lists : List (List Command)) (turns : List ℕ) (r : Record)
        → IsOpening o → IsPlay o lists turns r → Legal o r }
    ensures whole { (o : Opening) (lists : List (List Command)) (turns : List ℕ) (r : Record)
        → IsOpening o → IsPlay o lists turns r → Whole o r }
    ensures stalled { (o : Opening) (lists : List (List Command)) (turns waiting : List ℕ)
        (r : Record) → IsOpening o → IsStall o lists turns waiting r → Legal o r }
{}
