//! The work of one event: the driver's next, at the peer where it is.

ghost use Rattle.std.specs.Prelude.{◌<◌, length};
ghost use Rattle.b1_model.specs.MachineDriver.{next_action};
ghost use Rattle.b1_event.specs.Events.{Allowed, Does, HasStock, HasUsers};

use crate::destroys::{begin_destroy, commit_notices, flush, stamp_destroy, visit};
use crate::receives::{drop_refs, local, reap, recv, release};
use crate::sends::{attach, begin, commit, stage, stamp, sync, unstage};
use b1_driver::DriverState;
use b1_model::{Action, Opening};
use b1_peer::PeerState;
use b1_pool::PoolKind;
use b1_queue::QueueKind;

/// Does the next event of a driver whose command is open, at the peer `at` where it is. What the event needs of the two
/// parts holds in every reached state in which it is next.
pub fn do_event<Q: QueueKind, P: PoolKind>(
    opening: &Opening,
    driver: &mut DriverState,
    at: &mut PeerState<Q, P>,
)
    requires allowed { Allowed driver.old.part (next_action driver.old.part) at.old.part }
    requires stock { HasStock (next_action driver.old.part) at.old.part driver.old }
    requires known { driver.old.part.me < length opening.now.peers }
    requires users { HasUsers opening.now at.old.users }
    ensures { Does opening.now driver.old at.old driver.new at.new }
{
    match driver.next() {
        Action::Rest => unreachable!(),
        Action::Begin => begin(driver, at),
        Action::Stage { peer, place } => stage(opening, peer, place, driver, at),
        Action::Unstage { peer, place } => unstage(peer, place, driver, at),
        Action::Attach { peer, serial, dest } => attach(peer, serial, dest, driver, at),
        Action::Stamp => stamp(driver, at),
        Action::Sync { peer, stamp } => sync(peer, stamp, driver, at),
        Action::Commit { peer, place, stamp } => commit(peer, place, stamp, driver, at),
        Action::CommitNotices { peer, stamp } => commit_notices(peer, stamp, driver, at),
        Action::Recv => recv(driver, at),
        Action::Reap => reap(driver, at),
        Action::Release => release(driver, at),
        Action::DropRefs {
            peer,
            serial,
            holder,
            k,
            clock,
        } => drop_refs(peer, serial, holder, k, clock, driver, at),
        Action::BeginDestroy => begin_destroy(driver, at),
        Action::Visit { peer } => visit(peer, driver, at),
        Action::StampDestroy => stamp_destroy(driver, at),
        Action::Flush => flush(driver, at),
        Action::Local => local(driver, at),
    }
}
