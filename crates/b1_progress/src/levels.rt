ghost use Rattle.std.specs.Prelude.{◌+◌, ◌≤◌, ℕ, None, Some};
ghost use Rattle.std.specs.Prelude.{Option as Maybe};
ghost use Rattle.b1_model.specs.declared.naming.Opening.{Opening};
ghost use Rattle.b1_model.specs.declared.commands.Command.{Command};
ghost use Rattle.b1_model.specs.declared.commands.Command.TheVariants as cmd;
ghost use Rattle.b1_model.specs.MachineParts.{State};
ghost use Rattle.b1_model.specs.MachineStep.{Step, opening_state};
ghost use Rattle.b1_inv.specs.Sound.{IsSound};
ghost use Rattle.b1_progress.specs.Level.{gain_after, gain_so_far, level, AttemptsAnswered, IsAttempt};

/// Every open attempt to receive has its answer.
pub fn attempts_are_answered()
    ensures starts { (o : Opening) → AttemptsAnswered (opening_state o) }
    ensures goes_on { (o : Opening) (s : State) (p : ℕ) (c : Maybe Command) (t : State)
        → IsSound o s → Step o s p c t → AttemptsAnswered s → AttemptsAnswered t }
{}

/// No event of an attempt to receive raises the level, and what the attempt gains lowers it.
pub fn an_attempt_lowers_the_level()
    ensures begins { (o : Opening) (s : State) (p : ℕ) (t : State) → IsSound o s
        → (step : Step o s p (Some cmd.Await) t)
        → level t + gain_after step.driver step.new_driver ≤ level s }
    ensures goes_on { (o : Opening) (s : State) (p : ℕ) (t : State) → IsSound o s
        → (step : Step o s p None t) → IsAttempt step.driver
        → level t + gain_after step.driver step.new_driver ≤ level s + gain_so_far step.driver }
{}
