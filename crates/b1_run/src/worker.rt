ghost use Rattle.std.specs.Prelude.{◌≡◌, ◌<◌, true, false, length};
ghost use Rattle.b1_run.specs.Workers.{IsAt, MayHaveRoom, has_removed};

use b1_bus::{Bus, Driver};
use b1_edge::Gate;
use b1_model::Command;
use b1_script::resolve_after;
use std::alloc::Global;
use std::sync::Wait;

/// A driver's list has fewer calls than this.
const CALL_LIMIT: usize = 1 << 25;

/// For how many calls a driver makes room at least.
const LEAST_ROOM: usize = 16;

/// A driver, and what it came to in its last round or pass.
#[derive(Drop)]
pub struct Worker {
    /// The driver.
    pub driver: Driver,
    /// A command ended, or an attempt removed an entry.
    pub gained: bool,
    /// Memory was wanting.
    pub short: bool,
}

/// Whether the last attempt of a driver that had to wait removed an entry.
pub fn removed_some(driver: &Driver) -> bool
    ensures { result ≡ has_removed driver.now.own.part.attempted }
{
    match driver.attempted() {
        Some((_, removed)) => removed > 0,
        None => false,
    }
}

/// Makes room for one call more at least, for as many as there are where there is the memory, and answers whether there
/// is room for one.
pub fn make_room(driver: &mut Driver) -> bool
    ensures { MayHaveRoom driver.old result driver.new }
{
    if driver.spare() > 0 {
        return true;
    }
    let count = driver.calls().len();
    if count >= CALL_LIMIT - 1 {
        return false;
    }
    let more = count.max(LEAST_ROOM).min(CALL_LIMIT - 1 - count);
    driver.reserve(more).is_ok() || driver.reserve(1).is_ok()
}

/// Does the next command of a list, its references resolved, and answers whether it ended with a call.
fn do_next<R: Wait, G: Gate>(
    rt: &R,
    alloc: Global,
    bus: &Bus,
    gate: &G,
    commands: &[Command],
    worker: &mut Worker,
) -> bool
    requires at { IsAt bus.now commands.now worker.old.driver.own.part.me worker.old.driver }
    requires left { length worker.old.driver.own.part.calls < length commands.now }
    ensures at { IsAt bus.now commands.now worker.old.driver.own.part.me worker.new.driver }
    ensures more { result ≡ true → length worker.old.driver.own.part.calls
        < length worker.new.driver.own.part.calls }
{
    if !make_room(&mut worker.driver) {
        worker.short = true;
        return false;
    }
    let done = worker.driver.calls().len();
    let driver = &worker.driver;
    let resolved = resolve_after(alloc, &commands[done], driver.calls(), driver.data_places());
    let Ok(command) = resolved else {
        worker.short = true;
        return false;
    };
    worker.driver.finish_command(rt, bus, gate, command);
    let ended = worker.driver.calls().len() > done;
    if ended || removed_some(&worker.driver) {
        worker.gained = true;
    }
    ended
}

/// A round of one driver: its commands whole, until they end or an AWAIT has to wait.
pub fn work<R: Wait, G: Gate>(
    rt: &R,
    alloc: Global,
    bus: &Bus,
    gate: &G,
    commands: &[Command],
    worker: &mut Worker,
)
    requires at { IsAt bus.now commands.now worker.old.driver.own.part.me worker.old.driver }
    ensures at { IsAt bus.now commands.now worker.old.driver.own.part.me worker.new.driver }
{
    worker.gained = false;
    while worker.driver.calls().len() < commands.len() {
        if !do_next(rt, alloc, bus, gate, commands, worker) {
            return;
        }
    }
}
