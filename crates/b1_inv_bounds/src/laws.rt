ghost use Rattle.b1_inv.specs.Bounds.{BoundsRight};
ghost use Rattle.b1_inv.specs.Kept.{BeginsWith, KeptBySteps};

/// A step keeps the bounds of nodes, given numbers, held handles and counts by the wires and the calls, and every bus
/// begins so.
pub fn bounds_stay_right()
    ensures opening { BeginsWith BoundsRight }
    ensures kept { KeptBySteps BoundsRight }
{}
