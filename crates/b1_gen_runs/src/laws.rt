ghost use Rattle.std.specs.Prelude.{◌≡◌, ◌<◌, ℕ, Some, length, slice_get};
ghost use Rattle.b1_model.specs.declared.records.Call.{Call};
ghost use Rattle.b1_model.specs.Names.{calls_of};
ghost use Rattle.b1_model.specs.MachineParts.{State};
ghost use Rattle.b1_model.specs.MachineStep.{record_of_state};
ghost use Rattle.b1_model.specs.MachineOrder.{Stuck};
ghost use Rattle.b1_play_commands.specs.Following.{AllInPlace};
ghost use Rattle.b1_gen.specs.declared.counting.Quantity.TheVariants.{Sends, Entries, Receipts, Bytes};
ghost use Rattle.b1_gen.specs.Counted.{total};
ghost use Rattle.b1_gen.specs.Generated.{generated, peer_count, commands_of};
ghost use Rattle.b1_gen_runs.specs.Counts.{sends_due, messages_due, bytes_due};
ghost use Rattle.b1_gen_runs.specs.Runs.{IsRun, IsWholeRun, IsSentToAll};

/// Whatever the order of the steps of a generated script, as long as memory is wanting nowhere: each SEND that stands in
/// the record was sent, and all its destinations have accepted it.
pub fn generated_sends_are_accepted()
    ensures { (number p k : ℕ) (s : State) (c : Call) → IsRun number s
        → slice_get (calls_of (record_of_state s) p) k ≡ Some c → IsSentToAll c.command c.answer }
{}

/// No order of the steps of a generated script leads to a state in which no command is open and each peer whose commands
/// aren't at their end waits at an AWAIT with an empty queue, as long as memory is wanting nowhere.
pub fn generated_scripts_never_stall()
    ensures { (number : ℕ) (s : State) → IsRun number s → Stuck (generated number).commands s → ⊥ }
{}

/// Whatever the order of the steps of a generated script, as long as memory is wanting nowhere: once all commands have
/// ended and every queue is empty, each peer's calls are its commands in their places and no more, so that nothing was
/// left to be drained; and the counts of SENDs, of entries, of receipts and of their bytes are those that the number
/// alone gives.
pub fn generated_counts()
    ensures calls { (number p : ℕ) (s : State) → IsWholeRun number s → p < peer_count number
        → length (calls_of (record_of_state s) p) ≡ length (commands_of number p) }
    ensures placed { (number p : ℕ) (s : State) → IsWholeRun number s → p < peer_count number
        → AllInPlace (commands_of number p) (calls_of (record_of_state s) p) }
    ensures sends { (number : ℕ) (s : State) → IsWholeRun number s
        → total Sends (record_of_state s) ≡ sends_due number }
    ensures entries { (number : ℕ) (s : State) → IsWholeRun number s
        → total Entries (record_of_state s) ≡ messages_due number }
    ensures receipts { (number : ℕ) (s : State) → IsWholeRun number s
        → total Receipts (record_of_state s) ≡ messages_due number }
    ensures bytes { (number : ℕ) (s : State) → IsWholeRun number s
        → total Bytes (record_of_state s) ≡ bytes_due number }
{}
