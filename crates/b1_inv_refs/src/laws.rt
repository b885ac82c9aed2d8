ghost use Rattle.b1_inv.specs.Numbers.{NumbersRight};
ghost use Rattle.b1_inv.specs.References.{FlightsRight, ReferencesRight};
ghost use Rattle.b1_inv.specs.Kept.{BeginsWith, KeptBySteps};

/// A step keeps given numbers right, and every bus begins so: a record has a number of its own while it is held.
pub fn numbers_stay_right()
    ensures opening { BeginsWith (λ o s. NumbersRight s) }
    ensures kept { KeptBySteps (λ o t. NumbersRight t) }
{}

/// A step keeps flights right, and every bus begins so: records are of other peers' made nodes, and a record's flight
/// is how often the queue carries its node.
pub fn flights_stay_right()
    ensures opening { BeginsWith (λ o s. FlightsRight s) }
    ensures kept { KeptBySteps (λ o t. FlightsRight t) }
{}

/// A step keeps references right, and every bus begins so: each owner's count of a peer's references to a node is the
/// fresh count.
pub fn references_stay_right()
    ensures opening { BeginsWith (λ o s. ReferencesRight s) }
    ensures kept { KeptBySteps (λ o t. ReferencesRight t) }
{}
