ghost use Rattle.std.specs.Prelude.{◌≢◌, ◌<◌, ℕ, None};
ghost use Rattle.b1_model.specs.declared.naming.Opening.{Opening};
ghost use Rattle.b1_model.specs.MachineParts.{PeerPart, DriverPart, State};
ghost use Rattle.b1_model.specs.MachineStep.{Step};
ghost use Rattle.b1_inv.specs.Words.{IsPeer, IsDriver};
ghost use Rattle.b1_inv.specs.Sound.{IsSound};
ghost use Rattle.b1_progress.specs.Work.{work};

/// Where only one driver steps, its open command ends: each step that leaves it open leaves less work.
pub fn a_command_ends()
    ensures { (o : Opening) (s : State) (p : ℕ) (t : State) (d : DriverPart) (e : DriverPart)
        (x : PeerPart) (y : PeerPart) → IsSound o s → Step o s p None t → IsDriver s p d
        → IsDriver t p e → IsPeer s p x → IsPeer t p y → e.doing ≢ None → work e y < work d x }
{}
