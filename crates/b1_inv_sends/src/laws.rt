ghost use Rattle.b1_inv.specs.Sends.{SendsRight};
ghost use Rattle.b1_inv.specs.Stages.{StagesRight};
ghost use Rattle.b1_inv.specs.References.{SlotsRight};
ghost use Rattle.b1_inv.specs.Kept.{BeginsWith, KeptBySteps};

/// A step keeps open SENDs in the shape of their phase, and every bus begins so.
pub fn sends_stay_right()
    ensures opening { BeginsWith (λ o s. SendsRight s) }
    ensures kept { KeptBySteps (λ o t. SendsRight t) }
{}

/// A step leaves each staged message with the open SEND that waits at its place, and each place staged once, and every
/// bus begins so.
pub fn stages_stay_right()
    ensures opening { BeginsWith StagesRight }
    ensures kept { KeptBySteps StagesRight }
{}

/// A step keeps the slots of committed messages right, and every bus begins so.
pub fn slots_stay_right()
    ensures opening { BeginsWith (λ o s. SlotsRight s) }
    ensures kept { KeptBySteps (λ o t. SlotsRight t) }
{}
