ghost use Rattle.std.specs.Prelude.{◌≡◌, ◌<◌, ◌≤◌, true, false, length};
ghost use Rattle.b1_model.specs.Script.{commands_of};
ghost use Rattle.b1_run.specs.Workers.{AreAt, IsAt, AllEnded};

use crate::worker::{Worker, work};
use b1_bus::Bus;
use b1_edge::Gate;
use b1_model::CommandLists;
use std::alloc::Global;
use std::sync::Wait;
use std::thread;
use std::thread::Threads;

/// A round of the driver of peer p.
fn work_at<R: Wait, G: Gate>(
    rt: &R,
    alloc: Global,
    bus: &Bus,
    gate: &G,
    lists: &CommandLists,
    p: usize,
    worker: &mut Worker,
)
    requires { IsAt bus.now (commands_of lists.now p) p worker.old.driver }
    ensures { IsAt bus.now (commands_of lists.now p) p worker.new.driver }
{
    if let Some(list) = lists.get(p) {
        work(rt, alloc, bus, gate, list.as_slice(), worker);
    }
}

/// A round: all drivers do their commands beside each other, each until they end or an AWAIT has to wait.
pub fn round<R: Threads + Wait + Sync, G: Gate + Sync>(
    rt: &R,
    alloc: Global,
    bus: &Bus,
    gate: &G,
    lists: &CommandLists,
    workers: &mut [Worker],
)
    requires { AreAt bus.now lists.now workers.old }
    ensures { AreAt bus.now lists.now workers.new }
{
    let threads = workers.len().max(1);
    thread::for_each_mut(
        rt,
        workers,
        threads,
        &|p, worker| { work_at(rt, alloc, bus, gate, lists, p, worker) },
    );
}

/// Whether some driver gained in its last round or pass.
pub fn some_gained(workers: &[Worker]) -> bool {
    workers.iter().any(|worker| worker.gained)
}

/// Whether memory was wanting for some driver.
pub fn some_short(workers: &[Worker]) -> bool {
    workers.iter().any(|worker| worker.short)
}

/// Whether the commands of peer p are at their end.
fn has_ended(lists: &CommandLists, p: usize, worker: &Worker) -> bool
    ensures { result ≡ true → length (commands_of lists.now p)
        ≤ length worker.now.driver.own.part.calls }
{
    match lists.get(p) {
        Some(list) => list.len() <= worker.driver.calls().len(),
        None => true,
    }
}

/// Whether all commands are at their end.
pub fn all_ended(lists: &CommandLists, workers: &[Worker]) -> bool
    ensures { result ≡ true → AllEnded lists.now workers.now }
{
    for (p, worker) in workers.iter().enumerate() {
        if !has_ended(lists, p, worker) {
            return false;
        }
    }
    true
}
