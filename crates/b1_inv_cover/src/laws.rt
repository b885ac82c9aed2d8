ghost use Rattle.std.specs.Prelude.{List, Option, ℕ};
ghost use Rattle.b1_model.specs.declared.commands.Command.{Command};
ghost use Rattle.b1_model.specs.declared.naming.Opening.{Opening};
ghost use Rattle.b1_model.specs.MachineParts.{State};
ghost use Rattle.b1_model.specs.MachineStep.{Label, Leads, Reached, Step};
ghost use Rattle.b1_model.specs.Opening.{IsOpening};
ghost use Rattle.b1_step.specs.Laws.{EachStep};
ghost use Rattle.b1_inv.specs.Sound.{IsSound};
ghost use Rattle.b1_inv_cover.specs.Bounded.{ClocksBounded};
ghost use Rattle.b1_inv_cover.specs.Given.{GivenRises, NumbersStay};
ghost use Rattle.b1_inv.specs.Kept.{BeginsWith};
ghost use Rattle.b1_inv_record.specs.Right.{ClocksCover};

/// Every bus begins with its clocks covering what they should, and a step keeps them so: so it is of every reached state. Every committed entry and every
/// stamp in a peer's calls is at most that peer's clock; the clocks of the recipients and of the holders that a stamped
/// command has synced are at least its stamp; a stamp is above all that its command collected; a staged key is at most one
/// above the clock of its peer and what its command has collected; and an owed drop has its SEND's stamp, or a clock of
/// the driver's own peer.
pub fn clocks_cover()
    ensures opening { BeginsWith (λ _. ClocksCover) }
    ensures kept { (o : Opening) (s : State) (p : ℕ) (c : Option Command) (t : State) → IsSound o s
        → ClocksCover s
        → Step o s p c t → ClocksCover t }
    ensures reached { (o : Opening) (s : State) → IsOpening o → Reached o s → ClocksCover s }
{}

/// In every reached state all clocks and stamps are even, and at most 2^62 and two for each peer.
pub fn clocks_stay_bounded()
    ensures sound { (o : Opening) (s : State) → IsSound o s → ClocksBounded s }
    ensures reached { (o : Opening) (s : State) → IsOpening o → Reached o s → ClocksBounded s }
{}

/// A step never lowers a peer's count of given numbers, and a number that a handle record has anew after it is one of those
/// from the old count up to the new one. So over every list of steps a number of a peer's that names a node before and
/// after them names the same node.
pub fn given_numbers_are_new()
    ensures step { EachStep (λ o s p c t step. GivenRises s t) }
    ensures node { (o : Opening) (s : State) (steps : List Label) (t : State) → IsSound o s
        → Leads o s steps t → NumbersStay s t }
    ensures reached { (o : Opening) (s : State) (steps : List Label) (t : State) → IsOpening o
        → Reached o s → Leads o s steps t → NumbersStay s t }
{}
