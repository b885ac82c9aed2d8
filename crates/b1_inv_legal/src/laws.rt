ghost use Rattle.std.specs.Prelude.{ℕ, Option};
ghost use Rattle.b1_model.specs.declared.naming.Opening.{Opening};
ghost use Rattle.b1_model.specs.declared.commands.Command.{Command};
ghost use Rattle.b1_model.specs.Legal.{Legal};
ghost use Rattle.b1_model.specs.Opening.{IsOpening};
ghost use Rattle.b1_model.specs.MachineParts.{State};
ghost use Rattle.b1_model.specs.MachineStep.{Step, opening_state, record_of_state};
ghost use Rattle.b1_inv.specs.Sound.{IsSound};
ghost use Rattle.b1_inv_record.specs.Right.{IsRight};
ghost use Rattle.b1_inv_legal.specs.Fronts.{FrontIsNext, FrontIsSent, SlotsArrive};

/// A step keeps the record legal, where whatever a peer takes next is its next entry by the record, and has what was
/// sent; and every bus begins with a legal record.
pub fn records_stay_legal()
    ensures opening_Legal { (o : Opening) → IsOpening o
        → Legal o (record_of_state (opening_state o)) }
    ensures kept_Legal { (o : Opening) (s : State) (p : ℕ) (c : Option Command) (t : State)
        → IsSound o s → IsRight o s → FrontIsNext o s → FrontIsSent o s → Step o s p c t
        → Legal o (record_of_state t) }
{}

/// Whatever a peer takes next has what was sent: a message its destination's own number and its payload, with the
/// handles as they arrive, and a destroy notice the number of its node.
pub fn what_is_taken_was_sent()
    ensures { (o : Opening) (s : State) → IsSound o s → IsRight o s → SlotsArrive o s
        → FrontIsSent o s }
{}
