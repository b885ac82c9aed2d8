ghost use Rattle.std.specs.Prelude.{◌≤◌, ⊤};
ghost use Rattle.std.specs.Borrow.{sem, follows_so};
ghost use mathlib.Core.Option.{none};
ghost use Rattle.b1_locks.specs.Faces.{IsOf};
ghost use Rattle.b1_locks.specs.Calls.{HasReceived, HasTried};
ghost use Rattle.b1_locks.specs.contracts.driver.Driver.{the_row};

use crate::answers::{received, tried};
use crate::bus::Bus;
use crate::driver::Driver;
use b1_edge::Gate;
use b1_model::{Command, Reason, Receipt, Tried};
use b1_pool::PoolKind;
use b1_queue::QueueKind;
use std::sync::Wait;

impl<Q: QueueKind, P: PoolKind> Driver<Q, P> {
    /// RECV: takes the front of the queue. The receipt stays in the list of calls. Refusals: Shutdown, Again where the
    /// front is absent or staged. Takes no memory.
    pub fn recv<R: Wait, G: Gate>(
        &mut self,
        rt: &R,
        bus: &Bus<Q, P>,
        gate: &G,
    ) -> Result<&Receipt, Reason>
        requires own { IsOf self.old bus.now }
        requires spare { 1 ≤ self.old.own.spare }
        ensures* call { sem 𝓛 (follows_so (the_row Q.row P.row Q.QueueKind P.PoolKind)
            (the_row Q.row P.row Q.QueueKind P.PoolKind) self.entry.ghost_name none (λ _ _. ⊤)
            (HasReceived self.old result)) }
    {
        self.add_call(rt, bus, gate, Command::Recv);
        received(self.last_answer())
    }

    /// Tries a RECV: where the front is absent or staged it waits, which is no call, and leaves the list and the spare
    /// as they were. Takes no memory.
    pub fn attempt<R: Wait, G: Gate>(&mut self, rt: &R, bus: &Bus<Q, P>, gate: &G) -> Tried
        requires own { IsOf self.old bus.now }
        requires spare { 1 ≤ self.old.own.spare }
        ensures { HasTried self.old result self.new }
    {
        let before = self.calls().len();
        self.finish_command(rt, bus, gate, Command::Await);
        if self.calls().len() > before {
            return tried(self.last_answer());
        }
        match self.hand.state.attempted() {
            Some((front, removed)) => Tried::Waiting { front, removed },
            None => unreachable!(),
        }
    }
}
