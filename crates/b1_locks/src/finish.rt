ghost use Rattle.std.specs.Prelude.{◌≡◌, ◌+◌, ◌++◌, ◌∷◌, [], ◌≤◌, false, List, length};
ghost use Rattle.b1_model.specs.declared.answers.Answer.{Answer as Answers};
ghost use Rattle.b1_model.specs.declared.records.Call.{Call as OneCall};
ghost use Rattle.b1_model.specs.MachineTook.{is_await};
ghost use Rattle.b1_edge.specs.Ports.{with_call};
ghost use Rattle.b1_commands.specs.Done.{Comes, HasEnded};
ghost use Rattle.b1_locks.specs.Faces.{member, IsOf};
ghost use Rattle.b1_locks.specs.Calls.{Did};

use crate::bus::Bus;
use crate::driver::Driver;
use crate::run::run;
use b1_commands::commands_are_answered;
use b1_driver::DriverState;
use b1_edge::{Gate, Point};
use b1_model::{Answer, Command};
use b1_pool::PoolKind;
use b1_queue::QueueKind;
use std::sync::Wait;

impl<Q: QueueKind, P: PoolKind> Driver<Q, P> {
    /// Does any command whole. An AWAIT is one attempt to receive, which adds no call where it has to wait; any other
    /// command adds one call. Takes no memory but for a SEND.
    pub fn finish_command<R: Wait, G: Gate>(
        &mut self,
        rt: &R,
        bus: &Bus<Q, P>,
        gate: &G,
        command: Command,
    )
        requires own { IsOf self.old bus.now }
        requires spare { 1 ≤ self.old.own.spare }
        ensures member { member self.new ≡ member self.old }
        ensures steps { Comes self.old.opening self.old.own.part command self.new.own.part }
        ensures ended { HasEnded self.old.own.part command self.new.own.part }
        ensures spare { self.new.own.spare + length self.new.own.part.calls
            ≡ self.old.own.spare + length self.old.own.part.calls }
    {
        commands_are_answered();
        let before = self.hand.state.calls().len();
        run(rt, bus, gate, command, &mut self.hand);
        tell(gate, &self.hand.state, before);
    }

    /// Does a command whole that isn't an AWAIT.
    pub(crate) fn add_call<R: Wait, G: Gate>(
        &mut self,
        rt: &R,
        bus: &Bus<Q, P>,
        gate: &G,
        command: Command,
    )
        requires own { IsOf self.old bus.now }
        requires spare { 1 ≤ self.old.own.spare }
        requires other { is_await command ≡ false }
        ensures { (got : Answers) × (self.new.own.part.calls
            ≡ with_call command got self.old.own.part.calls) × Did self.old command got self.new }
    {
        self.finish_command(rt, bus, gate, command);
    }

    /// The answer of the last call.
    pub(crate) fn last_answer(&self) -> &Answer
        requires { (before : List OneCall) × (call : OneCall) × (self.now.own.part.calls
            ≡ before ++ call ∷ []) }
        ensures { (before : List OneCall) (call : OneCall) → self.now.own.part.calls
            ≡ before ++ call ∷ [] → result.now ≡ call.answer }
    {
        let calls = self.hand.state.calls();
        &calls[calls.len() - 1].answer
    }
}

/// The gate is told of a call that was added behind so many.
pub fn tell<G: Gate>(gate: &G, driver: &DriverState, before: usize) {
    if driver.calls().len() > before {
        gate.at(Point::Answered {
            driver: driver.number(),
            call: before as u64,
        });
    }
}
