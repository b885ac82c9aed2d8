ghost use Rattle.std.specs.Prelude.{◌≡◌, ◌⊎◌, ℕ, List, Option};
ghost use Rattle.b1_model.specs.declared.naming.NodeRef.{NodeRef};
ghost use Rattle.b1_model.specs.declared.naming.Opening.{Opening};
ghost use Rattle.b1_model.specs.declared.commands.Command.{Command};
ghost use Rattle.b1_model.specs.declared.events.Action.TheVariants as act;
ghost use Rattle.b1_model.specs.Opening.{IsOpening};
ghost use Rattle.b1_model.specs.MachineParts.{State};
ghost use Rattle.b1_model.specs.MachineStep.{Label, Leads, Reached, Step};
ghost use Rattle.b1_step.specs.Rights.{Has};
ghost use Rattle.b1_inv.specs.Words.{IsMade};
ghost use Rattle.b1_inv_record.specs.Holders.{to_visit};
ghost use Rattle.b1_legal_runs.specs.Runs.{NoticeComes, NoFlush, Attaches};

/// Between two flushes of its queue a peer gets at most one destroy notice of a node: where a step brought one, and no
/// step of a list behind it is a flush of that peer, no step behind these brings another.
pub fn notices_come_once()
    ensures { (o : Opening) (s u v w : State) (p r : ℕ) (c d : Option Command) (steps : List Label)
        (q : ℕ) (node : NodeRef) → IsOpening o → Reached o s → IsMade s node
        → Step o s p c u → NoticeComes q node s u
        → (run : Leads o u steps v) → NoFlush q o u steps v run
        → Step o v r d w → NoticeComes q node v w → ⊥ }
{}

/// Behind the stamp of a destruction its owner visits again only whom an attach made a holder of a dying node since the
/// destruction began, or since the visits before.
pub fn attaches_bring_visits()
    ensures { (o : Opening) (s u v w : State) (p r : ℕ) (c d : Option Command) (steps : List Label)
        (other : ℕ) → IsOpening o → Reached o s
        → (first : Step o s p c u) → (run : Leads o u steps v) → (stamp : Step o v r d w)
        → (first.action ≡ act.BeginDestroy) ⊎ (first.action ≡ act.StampDestroy)
        → stamp.at ≡ first.at → stamp.action ≡ act.StampDestroy
        → Has (to_visit stamp.new_driver) other → Attaches first.at other o u steps v run }
{}
