ghost use Rattle.std.specs.Prelude.{◌≡◌, ◌≤◌};
ghost use Rattle.b1_model.specs.declared.commands.Command.TheVariants as command;
ghost use Rattle.b1_edge.specs.Ports.{sent_answer, with_call};
ghost use Rattle.b1_locks.specs.Faces.{IsOf};
ghost use Rattle.b1_locks.specs.Calls.{Did, RefusesSend};

use crate::answers::{refused, sent};
use crate::bus::Bus;
use crate::driver::Driver;
use crate::finish::tell;
use crate::run::run_short;
use b1_commands::commands_are_answered;
use b1_edge::Gate;
use b1_model::{Command, Refused, SendCmd, Sent};
use b1_pool::PoolKind;
use b1_queue::QueueKind;
use std::alloc::Global;
use std::sync::Wait;

impl<Q: QueueKind, P: PoolKind> Driver<Q, P> {
    /// SEND: sends one message to the nodes that its numbers name, and answers the message's stamp, which is even, and
    /// what each destination answered. A refusal names the destination's place where it is one's, and leaves no entry,
    /// slice or charge; nodes that the begin made stay. All memory that a SEND needs at its driver is taken before its
    /// nodes are made. It may be refused for any reason but Again.
    pub fn send<R: Wait, G: Gate>(
        &mut self,
        rt: &R,
        alloc: Global,
        bus: &Bus<Q, P>,
        gate: &G,
        cmd: SendCmd,
    ) -> Result<Sent, Refused>
        requires own { IsOf self.old bus.now }
        requires spare { 1 ≤ self.old.own.spare }
        ensures call { self.new.own.part.calls
            ≡ with_call (command.Send cmd) (sent_answer result) self.old.own.part.calls }
        ensures did { Did self.old (command.Send cmd) (sent_answer result) self.new }
    {
        match Vec::with_capacity(alloc, cmd.to.len()) {
            Ok(room) => {
                self.add_call(rt, bus, gate, Command::Send(cmd));
                sent(self.last_answer(), room)
            }
            Err(_) => {
                self.refuse_send(rt, bus, gate, cmd);
                refused(self.last_answer())
            }
        }
    }

    // A SEND for whose answer there is no memory.
    fn refuse_send<R: Wait, G: Gate>(&mut self, rt: &R, bus: &Bus<Q, P>, gate: &G, send: SendCmd)
        requires own { IsOf self.old bus.now }
        requires spare { 1 ≤ self.old.own.spare }
        ensures { RefusesSend self.old send self.new }
    {
        commands_are_answered();
        let before = self.hand.state.calls().len();
        run_short(rt, bus, gate, send, &mut self.hand);
        tell(gate, &self.hand.state, before);
    }
}
