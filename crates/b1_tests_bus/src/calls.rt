ghost use Rattle.std.specs.Prelude.{◌≡◌};
ghost use Rattle.b1_locks.specs.Faces.{crew, members};

use b1_bus::{Bus, Driver};
use b1_edge::OpenGate;
use b1_model::{Refused, SendCmd, Sent, Tried};
use std::alloc::Global;
use std::sync::Wait;

/// Driver p makes room for so many calls; `None` where there is no such driver, its list is long, or memory is wanted.
pub fn reserve_at(bus: &Bus, drivers: &mut Vec<Driver>, p: usize, n: u8) -> Option<()>
    requires { members drivers.old.items ≡ crew bus.now }
    ensures { members drivers.new.items ≡ crew bus.now }
{
    if p >= drivers.len() || drivers[p].calls().len() > 1024 {
        return None;
    }
    drivers[p].reserve(n as usize).ok()
}

/// Driver p sends; `None` where there is no such driver, or no room for the call.
pub fn send_at<R: Wait>(
    rt: &R,
    alloc: Global,
    bus: &Bus,
    drivers: &mut Vec<Driver>,
    p: usize,
    cmd: SendCmd,
) -> Option<Result<Sent, Refused>>
    requires { members drivers.old.items ≡ crew bus.now }
    ensures { members drivers.new.items ≡ crew bus.now }
{
    if p >= drivers.len() || drivers[p].spare() == 0 {
        return None;
    }
    Some(drivers[p].send(rt, alloc, bus, &OpenGate, cmd))
}

/// Driver p receives, and says whether it took a receipt; `None` where there is no such driver, or no room for the call.
pub fn recv_at<R: Wait>(rt: &R, bus: &Bus, drivers: &mut Vec<Driver>, p: usize) -> Option<bool>
    requires { members drivers.old.items ≡ crew bus.now }
    ensures { members drivers.new.items ≡ crew bus.now }
{
    if p >= drivers.len() || drivers[p].spare() == 0 {
        return None;
    }
    Some(drivers[p].recv(rt, bus, &OpenGate).is_ok())
}

/// Driver p tries to receive; `None` where there is no such driver, or no room for a call.
pub fn attempt_at<R: Wait>(rt: &R, bus: &Bus, drivers: &mut Vec<Driver>, p: usize) -> Option<Tried>
    requires { members drivers.old.items ≡ crew bus.now }
    ensures { members drivers.new.items ≡ crew bus.now }
{
    if p >= drivers.len() || drivers[p].spare() == 0 {
        return None;
    }
    Some(drivers[p].attempt(rt, bus, &OpenGate))
}
