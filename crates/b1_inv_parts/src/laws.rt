ghost use Rattle.std.specs.Prelude.{ℕ};
ghost use Rattle.std.specs.Prelude.{Option as Maybe};
ghost use Rattle.b1_model.specs.declared.naming.Opening.{Opening};
ghost use Rattle.b1_model.specs.declared.commands.Command.{Command};
ghost use Rattle.b1_model.specs.Opening.{IsOpening};
ghost use Rattle.b1_model.specs.MachineParts.{State};
ghost use Rattle.b1_model.specs.MachineStep.{Reached, Step};
ghost use Rattle.b1_inv.specs.Sound.{IsSound};
ghost use Rattle.b1_inv.specs.Kept.{BeginsWith};
ghost use Rattle.b1_inv_record.specs.Kept.{KeptFromRight};
ghost use Rattle.b1_inv_record.specs.Right.{PartsRight};

/// A step keeps each peer's part right by itself, and every bus begins so: the keys of its queue ascend, its entries are
/// for nodes that were made, its slices cover its pool and each queued message has its own, its records are needed and
/// marked where a destroy notice is queued, and its release notices are of live nodes to which nobody has a reference.
/// Steps need no other group for it, so it is so of every reached state.
pub fn parts_stay_right()
    ensures opening { BeginsWith (λ _. PartsRight) }
    ensures kept { KeptFromRight (λ _. PartsRight) }
    ensures alone { (o : Opening) (s : State) (p : ℕ) (c : Maybe Command) (t : State) → IsSound o s
        → PartsRight s → Step o s p c t → PartsRight t }
    ensures reached { (o : Opening) (s : State) → IsOpening o → Reached o s → PartsRight s }
{}
