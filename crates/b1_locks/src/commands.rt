ghost use Rattle.std.specs.Prelude.{◌≡◌, ◌≤◌};
ghost use Rattle.b1_model.specs.declared.commands.Command.TheVariants as command;
ghost use Rattle.b1_edge.specs.Ports.{destroyed_answer, done_answer, with_call};
ghost use Rattle.b1_locks.specs.Faces.{IsOf};
ghost use Rattle.b1_locks.specs.Calls.{info_answer, reset_answer, Did};

use crate::answers::{destroyed, done, info, reset};
use crate::bus::Bus;
use crate::driver::Driver;
use b1_edge::Gate;
use b1_model::{Command, Limits, Nums, PeerSpec, Reason};
use b1_pool::PoolKind;
use b1_queue::QueueKind;
use std::sync::Wait;

// Each command adds exactly one call to the list: itself, with the answer that it returns. It takes no memory.
impl<Q: QueueKind, P: PoolKind> Driver<Q, P> {
    /// HANDLE_RELEASE: gives up a held handle once. Refusals: Shutdown, Invalid where it is no given number by its
    /// form, Unknown where it isn't held.
    pub fn release<R: Wait, G: Gate>(
        &mut self,
        rt: &R,
        bus: &Bus<Q, P>,
        gate: &G,
        number: u64,
    ) -> Result<(), Reason>
        requires own { IsOf self.old bus.now }
        requires spare { 1 ≤ self.old.own.spare }
        ensures call { self.new.own.part.calls
            ≡ with_call (command.Release number) (done_answer result) self.old.own.part.calls }
        ensures did { Did self.old (command.Release number) (done_answer result) self.new }
    {
        self.add_call(rt, bus, gate, Command::Release { number });
        done(self.last_answer())
    }

    /// NODES_DESTROY: destroys own nodes, and answers the destruction's stamp, which is even. Refusals: Shutdown,
    /// Invalid by the form of the list, Overflow where the clock is 2^62 or more, Unknown for the first number that
    /// names no live node.
    pub fn destroy<R: Wait, G: Gate>(
        &mut self,
        rt: &R,
        bus: &Bus<Q, P>,
        gate: &G,
        numbers: Nums,
    ) -> Result<u64, Reason>
        requires own { IsOf self.old bus.now }
        requires spare { 1 ≤ self.old.own.spare }
        ensures call { self.new.own.part.calls
            ≡ with_call (command.Destroy numbers) (destroyed_answer result)
            self.old.own.part.calls }
        ensures did { Did self.old (command.Destroy numbers) (destroyed_answer result) self.new }
    {
        self.add_call(rt, bus, gate, Command::Destroy { numbers });
        destroyed(self.last_answer())
    }

    /// SLICE_RELEASE: gives back the received slice that begins at an offset, in bytes. Refusals: Shutdown, Unknown
    /// where none begins there.
    pub fn slice_release<R: Wait, G: Gate>(
        &mut self,
        rt: &R,
        bus: &Bus<Q, P>,
        gate: &G,
        offset: u64,
    ) -> Result<(), Reason>
        requires own { IsOf self.old bus.now }
        requires spare { 1 ≤ self.old.own.spare }
        ensures call { self.new.own.part.calls
            ≡ with_call (command.SliceRelease offset) (done_answer result) self.old.own.part.calls }
        ensures did { Did self.old (command.SliceRelease offset) (done_answer result) self.new }
    {
        self.add_call(rt, bus, gate, Command::SliceRelease { offset });
        done(self.last_answer())
    }

    /// PEER_QUERY: the peer's user, its pool in bytes, and its limits. Refusal: Shutdown.
    pub fn query<R: Wait, G: Gate>(
        &mut self,
        rt: &R,
        bus: &Bus<Q, P>,
        gate: &G,
    ) -> Result<PeerSpec, Reason>
        requires own { IsOf self.old bus.now }
        requires spare { 1 ≤ self.old.own.spare }
        ensures call { self.new.own.part.calls
            ≡ with_call command.Query (info_answer result) self.old.own.part.calls }
        ensures did { Did self.old command.Query (info_answer result) self.new }
    {
        self.add_call(rt, bus, gate, Command::Query);
        info(self.last_answer())
    }

    /// PEER_RESET with flush: destroys all own live nodes, empties the queue, gives all handles up and sets new limits.
    /// Answers the destruction's stamp, `None` where no node was live. Refusals: Shutdown, Overflow where the clock is
    /// 2^62 or more.
    pub fn reset<R: Wait, G: Gate>(
        &mut self,
        rt: &R,
        bus: &Bus<Q, P>,
        gate: &G,
        limits: Limits,
    ) -> Result<Option<u64>, Reason>
        requires own { IsOf self.old bus.now }
        requires spare { 1 ≤ self.old.own.spare }
        ensures call { self.new.own.part.calls
            ≡ with_call (command.Reset limits) (reset_answer result) self.old.own.part.calls }
        ensures did { Did self.old (command.Reset limits) (reset_answer result) self.new }
    {
        self.add_call(rt, bus, gate, Command::Reset { limits });
        reset(self.last_answer())
    }

    /// PEER_RESET without flush: sets new limits, and nothing else. Refusal: Shutdown.
    pub fn limit<R: Wait, G: Gate>(
        &mut self,
        rt: &R,
        bus: &Bus<Q, P>,
        gate: &G,
        limits: Limits,
    ) -> Result<(), Reason>
        requires own { IsOf self.old bus.now }
        requires spare { 1 ≤ self.old.own.spare }
        ensures call { self.new.own.part.calls
            ≡ with_call (command.Limit limits) (done_answer result) self.old.own.part.calls }
        ensures did { Did self.old (command.Limit limits) (done_answer result) self.new }
    {
        self.add_call(rt, bus, gate, Command::Limit { limits });
        done(self.last_answer())
    }

    /// PEER_DISCONNECT: as `reset`, with the limits kept. Where it isn't refused the driver is shut: from then on it
    /// refuses every command with Shutdown.
    pub fn disconnect<R: Wait, G: Gate>(
        &mut self,
        rt: &R,
        bus: &Bus<Q, P>,
        gate: &G,
    ) -> Result<Option<u64>, Reason>
        requires own { IsOf self.old bus.now }
        requires spare { 1 ≤ self.old.own.spare }
        ensures call { self.new.own.part.calls
            ≡ with_call command.Disconnect (reset_answer result) self.old.own.part.calls }
        ensures did { Did self.old command.Disconnect (reset_answer result) self.new }
    {
        self.add_call(rt, bus, gate, Command::Disconnect);
        reset(self.last_answer())
    }
}
