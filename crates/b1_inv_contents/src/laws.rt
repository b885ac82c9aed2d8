ghost use Rattle.std.specs.Prelude.{ℕ, Option};
ghost use Rattle.b1_model.specs.declared.naming.Opening.{Opening};
ghost use Rattle.b1_model.specs.declared.commands.Command.{Command};
ghost use Rattle.b1_model.specs.Legal.{Legal};
ghost use Rattle.b1_model.specs.MachineParts.{State};
ghost use Rattle.b1_model.specs.MachineStep.{Step, record_of_state};
ghost use Rattle.b1_inv.specs.Sound.{IsSound};
ghost use Rattle.b1_inv_record.specs.Right.{IsRight};
ghost use Rattle.b1_inv_legal.specs.Fronts.{FrontIsNext, FrontIsSent, SlotsArrive};

/// Whatever a peer takes next has what was sent, by the record: a message its destination's number, its payload and its
/// handles, each of which arrives as a number exactly where its node wasn't destroyed before the send; and a destroy
/// notice its node's number.
pub fn receipts_have_what_was_sent()
    ensures arrive { (o : Opening) (s : State) → IsSound o s → IsRight o s → SlotsArrive o s }
    ensures sent { (o : Opening) (s : State) → IsSound o s → IsRight o s → FrontIsSent o s }
{}

/// A step keeps the record legal, where whatever a peer takes next is its next entry by the record.
pub fn right_fronts_keep_records_legal()
    ensures { (o : Opening) (s : State) (p : ℕ) (c : Option Command) (t : State) → IsSound o s
        → IsRight o s → FrontIsNext o s → Step o s p c t → Legal o (record_of_state t) }
{}
