ghost use Rattle.std.specs.Prelude.{ℕ, List};
ghost use Rattle.b1_model.specs.declared.naming.Opening.{Opening};
ghost use Rattle.b1_model.specs.declared.commands.Command.{Command};
ghost use Rattle.b1_model.specs.declared.version.Version.{Version};
ghost use Rattle.b1_model.specs.declared.records.Record.{Record};
ghost use Rattle.b1_model.specs.Opening.{IsOpening};
ghost use Rattle.b1_model.specs.MachineParts.{State};
ghost use Rattle.b1_model.specs.Names.{calls_of};
ghost use Rattle.b1_model.specs.Script.{commands_of};
ghost use Rattle.b1_model.specs.MachineStep.{Reached, record_of_state};
ghost use Rattle.b1_play_commands.specs.Following.{AllInPlace};
ghost use Rattle.b1_schedule.specs.Schedule.{IsPlay, IsStall};
ghost use Rattle.b1_report.specs.Report.{EachSpelled};
ghost use Rattle.b1_play_report.specs.Limits.{AreTold};

/// What is played of a script can be reported in a version that can tell its commands, and so can what stalls, and every
/// reached state whose calls are the script's commands in their places: a PEER_RESET without flush stands in a report of
/// version 2 alone, no call is an AWAIT, the answer of a flush is that of a PEER_RESET or a PEER_DISCONNECT, and each
/// destroy notice has an even number.
pub fn what_is_played_is_spelled()
    ensures played { (version : Version) (o : Opening) (lists : List (List Command))
        (turns : List ℕ) (r : Record) → IsOpening o → AreTold version lists
        → IsPlay o lists turns r → EachSpelled version r.peers }
    ensures stalled { (version : Version) (o : Opening) (lists : List (List Command))
        (turns : List ℕ) (waiting : List ℕ) (r : Record) → IsOpening o → AreTold version lists
        → IsStall o lists turns waiting r → EachSpelled version r.peers }
    ensures reached { (version : Version) (o : Opening) (lists : List (List Command)) (s : State)
        → IsOpening o → AreTold version lists → Reached o s
        → ((p : ℕ) → AllInPlace (commands_of lists p) (calls_of (record_of_state s) p))
        → EachSpelled version (record_of_state s).peers }
{}
