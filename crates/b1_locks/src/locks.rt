ghost use Rattle.std.specs.Prelude.{◌≡◌, ◌<◌};
ghost use Rattle.b1_rule.specs.Plays.{resting, Took};
ghost use Rattle.b1_rule.specs.Rule.{holding};
ghost use Rattle.b1_locks.specs.Locks.{HasStepped, Rests};

use crate::bus::{Bus, Place};
use b1_driver::DriverState;
use b1_pool::PoolKind;
use b1_queue::QueueKind;
use b1_rule::{Becoming, Store, Take};
use std::sync::Wait;

impl<Q: QueueKind, P: PoolKind> Bus<Q, P> {
    /// Takes the lock of a peer, with the peer's state. Waits while the lock is taken.
    pub(crate) fn lock<R: Wait>(&self, rt: &R, seat: &mut Place<Q, P>, peer: usize)
        requires table { seat.old.table_id ≡ self.now.table }
        requires rests { Rests seat.old.me }
        requires peer { peer < self.now.table.words }
        ensures table { seat.new.table_id ≡ seat.old.table_id }
        ensures took { Took seat.old.me peer seat.new.me }
    {
        for _ in rt.forever() {
            if self.table.shared.compare_exchange::<Take>(seat, peer, 0, 1) == 0 {
                return;
            }
            self.table.shared.park(rt, peer, 1);
        }
        unreachable!()
    }

    /// Gives the lock of a peer back, with the peer's state: one step of the machine. Then it wakes one driver that
    /// waits for this lock.
    pub(crate) fn unlock<J: Becoming>(
        &self,
        seat: &mut Place<Q, P>,
        peer: usize,
        driver: &DriverState,
    )
        requires table { seat.old.table_id ≡ self.now.table }
        requires becoming { J.part ≡ holding driver.now }
        requires peer { peer < self.now.table.words }
        requires stepped { HasStepped seat.old.me peer (holding driver.now) }
        ensures table { seat.new.table_id ≡ seat.old.table_id }
        ensures rests { seat.new.me ≡ resting seat.old.me.0.opening (holding driver.now) }
    {
        self.table.shared.store::<Store<J>>(seat, peer, 0);
        self.table.shared.wake_one(peer);
    }
}
