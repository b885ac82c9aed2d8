ghost use Rattle.std.specs.Prelude.{◌≡◌, ℕ, true, None, Option};
ghost use Rattle.b1_model.specs.declared.naming.Key.{Key};
ghost use Rattle.b1_model.specs.declared.naming.Opening.{Opening};
ghost use Rattle.b1_model.specs.declared.commands.Command.{Command};
ghost use Rattle.b1_model.specs.Legal.{is_candidate, Whole};
ghost use Rattle.b1_model.specs.MachineParts.{PeerPart, DriverPart, State};
ghost use Rattle.b1_model.specs.MachineOrder.{Drained};
ghost use Rattle.b1_model.specs.MachineStep.{Step, record_of_state};
ghost use Rattle.b1_inv.specs.Words.{IsPeer, IsDriver};
ghost use Rattle.b1_inv.specs.Sound.{IsSound};
ghost use Rattle.b1_ledger.specs.Growth.{calls_len};
ghost use Rattle.b1_inv_record.specs.Right.{IsRight};
ghost use Rattle.b1_inv_legal.specs.Fronts.{FrontIsNext};
ghost use Rattle.b1_inv_next.specs.Queued.{Queued};
ghost use Rattle.b1_inv_next.specs.Shown.{ShowsRightFront, TakesFront};

/// Whatever a peer takes is its next entry by the record, in key and kind. For whatever a peer may receive next stands
/// in its queue, or a staged entry below it does.
pub fn fronts_are_next()
    ensures next { (o : Opening) (s : State) → IsSound o s → IsRight o s → FrontIsNext o s }
    ensures queued { (o : Opening) (s : State) (p : ℕ) (d : DriverPart) (x : PeerPart) (key : Key)
        → IsSound o s → IsRight o s → IsDriver s p d → IsPeer s p x → d.doing ≡ None
        → is_candidate o.wires (record_of_state s) p (calls_len (record_of_state s) p) key ≡ true
        → Queued x key }
{}

/// A RECV that takes nothing shows a front that is right after it: a staged entry of an open command, or none, where
/// nothing is left to receive. Every other one takes the front.
pub fn fronts_are_right()
    ensures shown { (o : Opening) (s : State) (p : ℕ) (c : Option Command) (t : State)
        (step : Step o s p c t) → IsSound o s → IsRight o s → ShowsRightFront step }
    ensures taken { (o : Opening) (s : State) (p : ℕ) (c : Option Command) (t : State)
        (step : Step o s p c t) → IsSound o s → TakesFront step }
{}

/// Where a state is drained, nothing is left to receive.
pub fn drained_records_are_whole()
    ensures { (o : Opening) (s : State) → IsSound o s → IsRight o s → Drained s
        → Whole o (record_of_state s) }
{}
