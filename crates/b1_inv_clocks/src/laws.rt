ghost use Rattle.b1_inv.specs.Clocks.{ClocksRight};
ghost use Rattle.b1_inv.specs.Kept.{BeginsWith, KeptBySteps};

/// Every bus begins with its clocks right, and a step keeps them so: the clocks of peers, the clocks collected, the fixed
/// stamps, the clocks of owed drops and the stamps of destroyed nodes are even, and at most 2^62 and two for each driver
/// that can get no stamp any more.
pub fn clocks_stay_right()
    ensures opening { BeginsWith (λ o s. ClocksRight s) }
    ensures kept { KeptBySteps (λ o t. ClocksRight t) }
{}
