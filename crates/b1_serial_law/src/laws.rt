ghost use Rattle.std.specs.Prelude.{◌≡◌, ℕ, List, []};
ghost use Rattle.b1_model.specs.declared.naming.Opening.{Opening};
ghost use Rattle.b1_model.specs.declared.commands.Command.{Command};
ghost use Rattle.b1_model.specs.declared.records.Record.{Record};
ghost use Rattle.b1_model.specs.Opening.{IsOpening};
ghost use Rattle.b1_schedule.specs.Shortage.{shortage_of};
ghost use Rattle.b1_schedule.specs.Schedule.{IsPlay, IsStall};
ghost use Rattle.b1_serial_bus.specs.Report.{IsSerial, IsSerialStall};
ghost use Rattle.b1_serial_law.specs.Ample.{ample_record, IsAmple, StallsAmple};

/// What is played without turns is what the plain serial bus makes of the script, with memory wanting at the places that
/// the record shows; so it is a function of the script alone where it shows none, and a script that stalls on the serial
/// bus where memory is wanting nowhere is played only to a record that shows some. What stalls is the serial bus's stall.
pub fn plays_without_turns_are_serial()
    ensures played { (o : Opening) (lists : List (List Command)) (turns : List ℕ) (r : Record)
        → IsOpening o → turns ≡ [] → IsPlay o lists turns r
        → IsSerial o lists (shortage_of r) r }
    ensures alone { (o : Opening) (lists : List (List Command)) (turns : List ℕ) (r : Record)
        → IsOpening o → turns ≡ [] → IsPlay o lists turns r → IsAmple r
        → r ≡ ample_record o lists }
    ensures unstalled { (o : Opening) (lists : List (List Command)) (turns : List ℕ) (r : Record)
        → IsOpening o → turns ≡ [] → IsPlay o lists turns r → StallsAmple o lists → IsAmple r → ⊥ }
    ensures stalled { (o : Opening) (lists : List (List Command)) (turns waiting : List ℕ)
        (r : Record) → IsOpening o → turns ≡ [] → IsStall o lists turns waiting r
        → IsSerialStall o lists waiting r }
{}
