ghost use Rattle.std.specs.Prelude.{ℕ};
ghost use Rattle.std.specs.Prelude.{Option as Maybe};
ghost use Rattle.b1_model.specs.declared.naming.Opening.{Opening};
ghost use Rattle.b1_model.specs.declared.commands.Command.{Command};
ghost use Rattle.b1_model.specs.Opening.{IsOpening};
ghost use Rattle.b1_model.specs.MachineParts.{State};
ghost use Rattle.b1_model.specs.MachineStep.{Step, Reached, opening_state};
ghost use Rattle.b1_inv.specs.Sound.{IsSound};

/// Whatever list of steps led to a state from a valid opening, in whatever order: open commands have the shape of their
/// phase, what is staged has its open command, stamps and keys are new where they are given, notices are queued as their
/// destruction says, each at a place of its own, counts of references are the fresh counts, clocks and counts are
/// bounded, and each destroy notice that was received names a node.
pub fn every_reached_state_is_sound()
    ensures opening { (o : Opening) → IsOpening o → IsSound o (opening_state o) }
    ensures step { (o : Opening) (s : State) (p : ℕ) (c : Maybe Command) (t : State) → IsSound o s
        → Step o s p c t → IsSound o t }
    ensures reached { (o : Opening) (s : State) → IsOpening o → Reached o s → IsSound o s }
{}
