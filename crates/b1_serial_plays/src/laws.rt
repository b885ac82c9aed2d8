ghost use Rattle.std.specs.Prelude.{ℕ, List, []};
ghost use Rattle.b1_model.specs.declared.naming.Opening.{Opening};
ghost use Rattle.b1_model.specs.declared.commands.Command.{Command};
ghost use Rattle.b1_model.specs.declared.records.Record.{Record};
ghost use Rattle.b1_model.specs.Opening.{IsOpening};
ghost use Rattle.b1_schedule.specs.Shortage.{shortage_of};
ghost use Rattle.b1_schedule.specs.Schedule.{IsPlay, IsStall};
ghost use Rattle.b1_serial_bus.specs.Report.{IsSerial, IsSerialStall};
ghost use Rattle.b1_serial_plays.specs.Commands.{CommandsKeepRest};

/// Where every whole command leads from rest to rest as on the serial bus, whole scripts without turns run so: through
/// their rounds and their drain to the serial bus's record, with memory wanting at the places that the record shows; and
/// a stall is the serial bus's stall, with the peers that wait and its record.
pub fn scripts_run_as_their_commands_do()
    ensures played { (o : Opening) (lists : List (List Command)) (r : Record) → IsOpening o
        → CommandsKeepRest o → IsPlay o lists [] r → IsSerial o lists (shortage_of r) r }
    ensures stalled { (o : Opening) (lists : List (List Command)) (waiting : List ℕ) (r : Record)
        → IsOpening o → CommandsKeepRest o → IsStall o lists [] waiting r
        → IsSerialStall o lists waiting r }
{}
