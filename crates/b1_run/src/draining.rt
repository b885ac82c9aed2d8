ghost use Rattle.std.specs.Prelude.{◌≡◌, ◌<◌, true, false};
ghost use Rattle.b1_model.specs.Script.{commands_of};
ghost use Rattle.b1_run.specs.Workers.{AllEnded, AreAt, HasEnded, IsAt};

use crate::worker::{Worker, make_room, removed_some};
use b1_bus::Bus;
use b1_edge::Gate;
use b1_model::{Command, CommandLists};
use std::sync::Wait;
use std::thread;
use std::thread::Threads;

/// One attempt of the drain to receive, and whether it took something.
fn attempt_one<R: Wait, G: Gate>(
    rt: &R,
    bus: &Bus,
    gate: &G,
    _lists: &CommandLists,
    _p: usize,
    worker: &mut Worker,
) -> bool
    requires at { IsAt bus.now (commands_of _lists.now _p) _p worker.old.driver }
    requires ended { HasEnded (commands_of _lists.now _p) worker.old.driver.own }
    requires there { worker.old.driver.own.part.shut ≡ false }
    ensures at { IsAt bus.now (commands_of _lists.now _p) _p worker.new.driver }
    ensures ended { HasEnded (commands_of _lists.now _p) worker.new.driver.own }
    ensures there { worker.new.driver.own.part.shut ≡ false }
{
    if !make_room(&mut worker.driver) {
        worker.short = true;
        return false;
    }
    let done = worker.driver.calls().len();
    worker.driver.finish_command(rt, bus, gate, Command::Await);
    let took = worker.driver.calls().len() > done;
    if took || removed_some(&worker.driver) {
        worker.gained = true;
    }
    took
}

/// A pass of the driver of peer p: it receives until it has to wait, if it hasn't disconnected.
fn drain_at<R: Wait, G: Gate>(
    rt: &R,
    bus: &Bus,
    gate: &G,
    lists: &CommandLists,
    p: usize,
    worker: &mut Worker,
)
    requires at { IsAt bus.now (commands_of lists.now p) p worker.old.driver }
    requires ended { HasEnded (commands_of lists.now p) worker.old.driver.own }
    ensures at { IsAt bus.now (commands_of lists.now p) p worker.new.driver }
    ensures ended { HasEnded (commands_of lists.now p) worker.new.driver.own }
{
    worker.gained = false;
    if worker.driver.is_shut() {
        return;
    }
    for _ in rt.forever() {
        if !attempt_one(rt, bus, gate, lists, p, worker) {
            return;
        }
    }
    unreachable!()
}

/// A pass of the drain: all drivers receive beside each other, each until it has to wait.
pub fn pass<R: Threads + Wait + Sync, G: Gate + Sync>(
    rt: &R,
    bus: &Bus,
    gate: &G,
    lists: &CommandLists,
    workers: &mut [Worker],
)
    requires at { AreAt bus.now lists.now workers.old }
    requires ended { AllEnded lists.now workers.old }
    ensures at { AreAt bus.now lists.now workers.new }
    ensures ended { AllEnded lists.now workers.new }
{
    let threads = workers.len().max(1);
    thread::for_each_mut(
        rt,
        workers,
        threads,
        &|p, worker| { drain_at(rt, bus, gate, lists, p, worker) },
    );
}
