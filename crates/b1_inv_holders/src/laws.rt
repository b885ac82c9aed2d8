ghost use Rattle.b1_inv.specs.Kept.{BeginsWith};
ghost use Rattle.b1_inv_record.specs.Kept.{KeptFromRight};
ghost use Rattle.b1_inv_record.specs.Holders.{HolderCovered, VoidRight};

/// Every bus begins with the holders of nodes that aren't live covered, and a step keeps them so: a peer that holds such a
/// node, or has an entry with a counted reference to it, has its destroy notice queued, or the notice has left the queue,
/// or the node is dying and the peer is still to be visited. No bus begins with a void slot, and a step leaves every void
/// slot right: its node is destroyed, the open SEND has collected the stamp of that destruction, and a committed message
/// has a later one.
pub fn holders_of_ended_nodes()
    ensures opening_HolderCovered { BeginsWith (λ _. HolderCovered) }
    ensures kept_HolderCovered { KeptFromRight (λ _. HolderCovered) }
    ensures opening_VoidRight { BeginsWith (λ _. VoidRight) }
    ensures kept_VoidRight { KeptFromRight (λ _. VoidRight) }
{}
