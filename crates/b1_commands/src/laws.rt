ghost use Rattle.std.specs.Prelude.{◌≡◌, None};
ghost use Rattle.b1_model.specs.declared.naming.Opening.{Opening};
ghost use Rattle.b1_model.specs.declared.commands.Command.{Command};
ghost use Rattle.b1_model.specs.Opening.{IsOpening};
ghost use Rattle.b1_model.specs.MachineParts.{DriverPart};
ghost use Rattle.b1_commands.specs.Done.{Comes, HasEnded};

/// A command that has begun at a driver without an open command, and that is no longer open, has added one call to the
/// driver's list, with an answer of its kind; but an attempt that could not take its front has added none, and stands
/// among the driver's facts.
pub fn commands_are_answered()
    ensures { (o : Opening) (d : DriverPart) (c : Command) (e : DriverPart) → IsOpening o
        → d.doing ≡ None → Comes o d c e → e.doing ≡ None → HasEnded d c e }
{}
