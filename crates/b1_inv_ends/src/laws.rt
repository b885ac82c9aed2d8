ghost use Rattle.std.specs.Prelude.{ℕ, Option};
ghost use Rattle.b1_model.specs.declared.naming.Opening.{Opening};
ghost use Rattle.b1_model.specs.declared.commands.Command.{Command};
ghost use Rattle.b1_model.specs.MachineParts.{State};
ghost use Rattle.b1_model.specs.MachineStep.{Step};
ghost use Rattle.b1_inv.specs.Sound.{IsSound};
ghost use Rattle.b1_inv_ends.specs.Notices.{NoticesOnce, OneNotice};
ghost use Rattle.b1_inv_ends.specs.Refused.{QueuesNeedAll, RefusedLeavesNothing};
ghost use Rattle.b1_inv_ends.specs.Holders.{HoldersServed, LateByAttach};
ghost use Rattle.b1_inv.specs.Kept.{BeginsWith};
ghost use Rattle.b1_inv_record.specs.Kept.{KeptFromRight};
ghost use Rattle.b1_inv_record.specs.Right.{DestructionsRight, IsRight};

/// A step keeps all that is said of destructions and their notices: which nodes are destroyed, what open destructions
/// doom, and where each notice is or was taken. Every bus begins so.
pub fn destructions_stay_right()
    ensures opening_DestructionsRight { BeginsWith DestructionsRight }
    ensures kept_DestructionsRight { KeptFromRight DestructionsRight }
{}

/// Once all commits of a node's destruction are done, each holder of the node has its notice committed in its queue, or
/// has taken it in the epoch of its part.
pub fn holders_are_told()
    ensures { (o : Opening) (s : State) → IsSound o s → IsRight o s → HoldersServed o s }
{}

/// A peer comes into a late set only by an attach for it to a dying node; a destruction's begin and its stamp leave the
/// set empty; and behind a stamp's event just those are visited that were in it.
pub fn late_holders_are_visited()
    ensures { (o : Opening) (s : State) (p : ℕ) (c : Option Command) (t : State) → IsSound o s
        → IsRight o s → (step : Step o s p c t) → LateByAttach step }
{}

/// No queue has two destroy notices of one node. One comes to a queue that has none of its node only while the node isn't
/// destroyed; it leaves only behind the node's destruction, or by a flush of its queue; and a destroyed node stays so.
pub fn each_notice_comes_once()
    ensures once { (o : Opening) (s : State) → IsSound o s → IsRight o s → NoticesOnce s }
    ensures steps { (o : Opening) (s : State) (p : ℕ) (c : Option Command) (t : State) → IsSound o s
        → IsRight o s → (step : Step o s p c t) → OneNotice step }
{}

/// A refused SEND leaves nothing. A staged message is of an open SEND that waits at its place, a committed one of an
/// accepted place of a sent one; a driver at rest has nothing staged and owes nothing. Each slice that isn't published is
/// a queued message's, and each record that is neither held nor marked is of a node that a queued message carries.
pub fn a_refused_send_leaves_nothing()
    ensures entries { (o : Opening) (s : State) → IsSound o s → IsRight o s
        → RefusedLeavesNothing s }
    ensures needed { (o : Opening) (s : State) → IsSound o s → IsRight o s → QueuesNeedAll s }
{}
