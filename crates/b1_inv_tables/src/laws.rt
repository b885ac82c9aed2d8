ghost use Rattle.b1_inv.specs.Kept.{BeginsWith};
ghost use Rattle.b1_inv_record.specs.Kept.{KeptFromRight};
ghost use Rattle.b1_inv_record.specs.Names.{TableIsLines};

/// A step keeps the table at the end of each peer's calls the numbered records of its part, each node held as often, and
/// as many numbers given; in the gap of a reset it is empty; and every bus begins so.
pub fn tables_stay_lines()
    ensures opening_TableIsLines { BeginsWith TableIsLines }
    ensures kept_TableIsLines { KeptFromRight TableIsLines }
{}
