//! A RECV whose answer is lent out of the list of calls.

ghost use Rattle.std.specs.Prelude.{◌≡◌, ◌+◌, ◌≤◌, List};
ghost use Rattle.b1_model.specs.declared.answers.Answer.{Answer as OneAnswer};
ghost use Rattle.b1_model.specs.declared.commands.Command.TheVariants as command;
ghost use Rattle.b1_model.specs.declared.records.Call.{Call as OneCall};
ghost use Rattle.b1_edge.specs.Ports.{received_answer, with_call};
ghost use Rattle.b1_locks.specs.Faces.{IsOf, member};
ghost use Rattle.b1_port_bus.specs.Ported.{HasTaken, IsReceived};

use b1_bus::{Bus, Driver};
use b1_edge::Gate;
use b1_model::{Answer, Call, Reason, Receipt};
use std::sync::Wait;

/// Does a RECV, whose answer is the last call's.
pub(crate) fn take<R: Wait, G: Gate>(rt: &R, bus: &Bus, gate: &G, driver: &mut Driver)
    requires own { IsOf driver.old bus.now }
    requires spare { 1 ≤ driver.old.own.spare }
    ensures { HasTaken driver.old driver.new }
{
    let _ = driver.recv(rt, bus, gate);
}

/// What the last of some calls, a RECV, came to.
pub(crate) fn last_received(calls: &[Call]) -> Result<&Receipt, Reason>
    requires { (before : List OneCall) × (got : OneAnswer)
        × (calls.now ≡ with_call command.Recv got before) × IsReceived got }
    ensures { (before : List OneCall) × (calls.now
        ≡ with_call command.Recv (received_answer result) before) }
{
    match calls.last() {
        Some(call) => received(&call.answer),
        None => unreachable!(),
    }
}

/// What a RECV came to.
fn received(answer: &Answer) -> Result<&Receipt, Reason>
    requires { IsReceived answer.now }
    ensures { received_answer result ≡ answer.now }
{
    match answer {
        Answer::Got(receipt) => Ok(receipt),
        Answer::Refused(refused) => Err(refused.reason),
        _ => unreachable!(),
    }
}
