ghost use Rattle.std.specs.Prelude.{◌≡◌, ℕ, ◌+◌, ◌<◌, ◌≤◌, true, length, slice_get, Some};
ghost use Rattle.b1_event.specs.Borne.{call_limit};
ghost use Rattle.b1_locks.specs.Faces.{DriverFace, IsOf};
ghost use Rattle.b1_crew.specs.Parts.{AreAll, IsStill};

use b1_bus::{Bus, Driver};
use b1_edge::Gate;
use std::alloc::Global;
use std::sync::Wait;
use std::thread;
use std::thread::Threads;

/// What each driver of a bus does.
pub trait Part {
    /// Does the part of peer `peer`, by its driver.
    fn play<R: Wait, G: Gate>(
        &self,
        rt: &R,
        alloc: Global,
        bus: &Bus,
        gate: &G,
        peer: usize,
        driver: &mut Driver,
    )
        requires { IsOf driver.old bus.now }
        ensures own { IsOf driver.new bus.now }
        ensures still { IsStill driver.old driver.new };
}

/// A part that is done so many times.
#[derive(Clone, Copy, Debug)]
pub struct Times<P> {
    /// The part.
    pub part: P,
    /// How many times.
    pub times: usize,
}

impl<P: Part> Part for Times<P> {
    fn play<R: Wait, G: Gate>(
        &self,
        rt: &R,
        alloc: Global,
        bus: &Bus,
        gate: &G,
        peer: usize,
        driver: &mut Driver,
    ) {
        for _ in 0..self.times {
            self.part.play(rt, alloc, bus, gate, peer, driver);
        }
    }
}

// Drivers of a bus do their parts beside each other.
fn play_all<R: Threads + Wait + Sync, G: Gate + Sync, P: Part + Sync>(
    rt: &R,
    alloc: Global,
    bus: &Bus,
    gate: &G,
    part: &P,
    drivers: &mut [Driver],
)
    requires { (p : ℕ) (d : DriverFace) → slice_get drivers.old p ≡ Some d → IsOf d bus.now }
    ensures as_many { length drivers.new ≡ length drivers.old }
    ensures still { (p : ℕ) (d e : DriverFace) → slice_get drivers.old p ≡ Some d
        → slice_get drivers.new p ≡ Some e → IsStill d e }
{
    let threads = drivers.len().max(1);
    thread::for_each_mut(
        rt,
        drivers,
        threads,
        &|peer, driver| { part.play(rt, alloc, bus, gate, peer, driver) },
    );
}

// All drivers of a bus do their parts beside each other, each in a thread of its own.
#[tactic(auto, using(crate::proofs::Crews::all_still))]
pub(crate) fn beside<R: Threads + Wait + Sync, G: Gate + Sync, P: Part + Sync>(
    rt: &R,
    alloc: Global,
    bus: &Bus,
    gate: &G,
    part: &P,
    drivers: &mut [Driver],
)
    requires { AreAll bus.now drivers.old }
    ensures { AreAll bus.now drivers.new }
{
    play_all(rt, alloc, bus, gate, part, drivers);
}

/// Makes room for at least `n` more calls of a driver whose calls and these together are below 2^25, and answers whether
/// there is. Where it isn't, memory was wanting, and all is as it was.
pub fn has_room(driver: &mut Driver, n: usize) -> bool
    requires { length driver.old.own.part.calls + n < call_limit }
    ensures room { result ≡ true → n ≤ driver.new.own.spare }
    ensures calls { driver.new.own.part ≡ driver.old.own.part }
    ensures still { IsStill driver.old driver.new }
{
    driver.reserve(n).is_ok()
}
