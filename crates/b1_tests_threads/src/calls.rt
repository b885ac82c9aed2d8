ghost use Rattle.b1_locks.specs.Faces.{IsOf};
ghost use Rattle.b1_crew.specs.Parts.{IsStill};

use b1_bus::{Bus, Driver};
use b1_edge::Gate;
use b1_model::{Bytes, Limits, Nums, SendCmd, Tried};
use std::alloc::{AllocError, Global};
use std::sync::Wait;

// A SEND of these bytes to these numbers.
pub fn message(alloc: Global, to: &[u64], payload: &[u8]) -> Result<SendCmd, AllocError> {
    Ok(SendCmd {
        go_on: false,
        to: Nums::from_slice(alloc, to)?,
        with: Nums::new(alloc),
        payload: Bytes::from_slice(alloc, payload)?,
    })
}

// A driver with room for a call sends a byte to these numbers.
pub fn send<R: Wait, G: Gate>(
    rt: &R,
    alloc: Global,
    bus: &Bus,
    gate: &G,
    driver: &mut Driver,
    to: &[u64],
)
    requires { IsOf driver.old bus.now }
    ensures own { IsOf driver.new bus.now }
    ensures still { IsStill driver.old driver.new }
{
    if driver.spare() == 0 {
        return;
    }
    if let Ok(cmd) = message(alloc, to, b"x") {
        let _ = driver.send(rt, alloc, bus, gate, cmd);
    }
}

// A driver with room for a call receives.
pub fn receive<R: Wait, G: Gate>(rt: &R, bus: &Bus, gate: &G, driver: &mut Driver)
    requires { IsOf driver.old bus.now }
    ensures own { IsOf driver.new bus.now }
    ensures still { IsStill driver.old driver.new }
{
    if driver.spare() > 0 {
        let _ = driver.recv(rt, bus, gate);
    }
}

// A driver with room for a call tries to receive, and says whether it took something.
pub fn take<R: Wait, G: Gate>(rt: &R, bus: &Bus, gate: &G, driver: &mut Driver) -> bool
    requires { IsOf driver.old bus.now }
    ensures own { IsOf driver.new bus.now }
    ensures still { IsStill driver.old driver.new }
{
    driver.spare() > 0 && matches!(driver.attempt(rt, bus, gate), Tried::Got)
}

// A driver with room for a call resets.
pub fn reset<R: Wait, G: Gate>(rt: &R, bus: &Bus, gate: &G, driver: &mut Driver, limits: Limits)
    requires { IsOf driver.old bus.now }
    ensures own { IsOf driver.new bus.now }
    ensures still { IsStill driver.old driver.new }
{
    if driver.spare() > 0 {
        let _ = driver.reset(rt, bus, gate, limits);
    }
}
