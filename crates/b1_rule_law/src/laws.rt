ghost use Rattle.b1_rule_law.specs.Keeps.{CloseSettles, JoinKeeps, MakeKeeps, SplitKeeps, StoreKeeps, TakeKeeps};

/// Whatever the threads do, the parts that the seats of the table of locks know, with the peers' states at home or as they
/// were found, are at every moment a state that steps have led to: a table is made so, each kind of step keeps it so, and
/// where one seat has all drivers' parts no lock is taken.
pub fn every_step_keeps_the_rule()
    ensures make { MakeKeeps }
    ensures split { SplitKeeps }
    ensures join { JoinKeeps }
    ensures take { TakeKeeps }
    ensures store { StoreKeeps }
    ensures close { CloseSettles }
{}
