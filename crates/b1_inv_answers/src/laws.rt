ghost use Rattle.std.specs.Prelude.{ℕ, Option};
ghost use Rattle.b1_model.specs.declared.naming.Opening.{Opening};
ghost use Rattle.b1_model.specs.declared.commands.Command.{Command};
ghost use Rattle.b1_model.specs.Opening.{IsOpening};
ghost use Rattle.b1_model.specs.MachineParts.{State};
ghost use Rattle.b1_model.specs.MachineStep.{Reached, Step};
ghost use Rattle.b1_inv.specs.Kept.{BeginsWith};
ghost use Rattle.b1_inv.specs.Sound.{IsSound};
ghost use Rattle.b1_inv_answers.specs.Answers.{AnswersFit};

/// Each call has an answer of its command's kind, a SEND that was accepted one with a place for each destination, of which
/// one is accepted, and without CONTINUE all; and each open command is in a phase of its own. Every bus begins so, a step
/// keeps it, and so it is of every reached state.
pub fn answers_fit_their_commands()
    ensures opening { BeginsWith (λ _. AnswersFit) }
    ensures kept { (o : Opening) (s : State) (p : ℕ) (c : Option Command) (t : State) → IsSound o s
        → AnswersFit s → Step o s p c t → AnswersFit t }
    ensures reached { (o : Opening) (s : State) → IsOpening o → Reached o s → AnswersFit s }
{}
