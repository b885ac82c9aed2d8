ghost use Rattle.b1_inv.specs.Notices.{NoticesRight};
ghost use Rattle.b1_inv.specs.Stamps.{StampsRight};
ghost use Rattle.b1_inv.specs.Kept.{BeginsWith, KeptBySteps};

/// Every bus begins with its destructions and notices right, and a step keeps them so: each open destruction has the
/// shape of its phase, the nodes that are dying are those that it dooms, and each staged notice is of one that has not
/// committed it yet.
pub fn notices_stay_right()
    ensures opening { BeginsWith (λ o s. NoticesRight s) }
    ensures kept { KeptBySteps (λ o t. NoticesRight t) }
{}

/// Every bus begins with its stamps right, and a step keeps them so: no fixed stamp is above its peer's clock, and each
/// committed entry has a stamp that its driver gave it.
pub fn stamps_stay_right()
    ensures opening { BeginsWith (λ o s. StampsRight s) }
    ensures kept { KeptBySteps (λ o t. StampsRight t) }
{}
