ghost use Rattle.b1_inv.specs.Kept.{BeginsWith};
ghost use Rattle.b1_inv_record.specs.Kept.{KeptFromRight};
ghost use Rattle.b1_inv_record.specs.Holders.{SeenCollected, SeenTravels};
ghost use Rattle.b1_inv_record.specs.Right.{HoldersRight, NamesRight};

/// What a peer took while a node stood in its table is at most the clock of the node's owner, or the peer still holds the
/// node, or is to give references to it up, or its driver owes a drop with a clock as high: a step keeps it so for every
/// node that isn't destroyed, and every bus begins so.
pub fn what_holders_took_travels()
    ensures opening_SeenTravels { BeginsWith SeenTravels }
    ensures kept_SeenTravels { KeptFromRight SeenTravels }
{}

/// What a peer took while a node stood in its table that is dying now is at most the clock of the node's owner, or what
/// the destruction has collected, or the destruction is still to visit the peer: a step keeps it so, and every bus begins
/// so.
pub fn what_holders_took_is_collected()
    ensures opening_SeenCollected { BeginsWith SeenCollected }
    ensures kept_SeenCollected { KeptFromRight SeenCollected }
{}

/// All that is said of names, tables and epochs of the record against the parts of peers: a step keeps it, and every bus
/// begins so.
pub fn names_stay_right()
    ensures opening_NamesRight { BeginsWith NamesRight }
    ensures kept_NamesRight { KeptFromRight NamesRight }
{}

/// All that is said of the holders of nodes that end: a step keeps it, and every bus begins so.
pub fn holders_stay_right()
    ensures opening_HoldersRight { BeginsWith HoldersRight }
    ensures kept_HoldersRight { KeptFromRight HoldersRight }
{}
