ghost use Rattle.std.specs.Prelude.{◌≡◌};
ghost use Rattle.b1_locks.specs.Faces.{crew, members};

use b1_bus::{Bus, Driver};
use b1_edge::{OpenGate, Port};
use b1_model::{Nums, Reason, Receipt, Refused, SendCmd, Sent, Tried};
use b1_port_bus::BusPort;
use std::alloc::Global;
use std::sync::Wait;

/// Makes room for so many calls at a port; `None` where its list is long, or memory is wanted.
pub fn port_reserve<P: Port>(port: &mut P, n: u8) -> Option<()> {
    if port.calls().len() > 1024 {
        return None;
    }
    port.reserve(n as usize).ok()
}

/// Sends at a port; `None` where there is no room for the call.
pub fn port_send<P: Port>(port: &mut P, cmd: SendCmd) -> Option<Result<Sent, Refused>> {
    if port.spare() == 0 {
        return None;
    }
    Some(port.send(cmd))
}

/// Receives at a port: the stamp of what it took; `None` where there is no room for the call.
pub fn port_recv<P: Port>(port: &mut P) -> Option<Result<u64, Reason>> {
    if port.spare() == 0 {
        return None;
    }
    match port.recv() {
        Ok(receipt) => Some(Ok(receipt_stamp(receipt))),
        Err(reason) => Some(Err(reason)),
    }
}

/// Tries to receive at a port; `None` where there is no room for a call.
pub fn port_attempt<P: Port>(port: &mut P) -> Option<Tried> {
    if port.spare() == 0 {
        return None;
    }
    Some(port.attempt())
}

/// Gives a handle up at a port; `None` where there is no room for the call.
pub fn port_release<P: Port>(port: &mut P, number: u64) -> Option<Result<(), Reason>> {
    if port.spare() == 0 {
        return None;
    }
    Some(port.release(number))
}

/// Destroys nodes at a port; `None` where there is no room for the call.
pub fn port_destroy<P: Port>(port: &mut P, numbers: Nums) -> Option<Result<u64, Reason>> {
    if port.spare() == 0 {
        return None;
    }
    Some(port.destroy(numbers))
}

/// Gives a slice back at a port; `None` where there is no room for the call.
pub fn port_slice_release<P: Port>(port: &mut P, offset: u64) -> Option<Result<(), Reason>> {
    if port.spare() == 0 {
        return None;
    }
    Some(port.slice_release(offset))
}

/// The stamp that a receipt shows.
fn receipt_stamp(receipt: &Receipt) -> u64 {
    match receipt {
        Receipt::Message { key, .. } => key.stamp,
        Receipt::Destroyed { key, .. } => key.stamp,
        Receipt::Released { stamp, .. } => *stamp,
    }
}

/// What a port of driver p found by one attempt, how many calls it has then, and how many entries it removed; `None` where
/// there is no such driver, or memory is wanted.
pub fn try_port_at<R: Wait>(
    rt: &R,
    alloc: Global,
    bus: &Bus,
    drivers: &mut Vec<Driver>,
    p: usize,
) -> Option<(Tried, usize, u64)>
    requires { members drivers.old.items ≡ crew bus.now }
{
    if p >= drivers.len() {
        return None;
    }
    let mut port = BusPort::make(rt, alloc, &mut drivers[p], bus, &OpenGate);
    port_reserve(&mut port, 2)?;
    let tried = port_attempt(&mut port)?;
    Some((tried, port.calls().len(), port.removed()))
}

/// A port of driver p sends, gives up 3 and 2, gives the slice at 8 back, and receives: how many calls it has then, and the
/// reason that the RECV was refused for. `None` where there is no such driver, memory is wanted, or one of the other
/// answers is wrong.
pub fn serve_at<R: Wait>(
    rt: &R,
    alloc: Global,
    bus: &Bus,
    drivers: &mut Vec<Driver>,
    p: usize,
    cmd: SendCmd,
) -> Option<(usize, Reason)>
    requires { members drivers.old.items ≡ crew bus.now }
{
    if p >= drivers.len() {
        return None;
    }
    let mut port = BusPort::make(rt, alloc, &mut drivers[p], bus, &OpenGate);
    port_reserve(&mut port, 8)?;
    port_send(&mut port, cmd)?.ok()?;
    port_release(&mut port, 3)?.err()?;
    port_release(&mut port, 2)?.ok()?;
    port_slice_release(&mut port, 8)?.err()?;
    let reason = port_recv(&mut port)?.err()?;
    Some((port.calls().len(), reason))
}
