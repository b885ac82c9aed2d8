ghost use Rattle.std.specs.Prelude.{◌≡◌, ◌<◌};
ghost use Rattle.b1_locks.specs.Faces.{IsOf};
ghost use Rattle.b1_port_bus.specs.Ported.{HasTaken, removed_of};

use crate::receiving::take;
use b1_bus::{Bus, Driver};
use b1_edge::Gate;
use b1_model::Call;
use std::alloc::Global;
use std::marker::Model;
use std::sync::Wait;

/// A driver with its bus and its gate, as a port. Contracts see its driver.
#[derive(Drop)]
pub struct BusPort<'a, R: Wait, G: Gate> {
    pub(crate) rt: &'a R,
    pub(crate) alloc: Global,
    pub(crate) driver: &'a mut Driver,
    pub(crate) bus: &'a Bus,
    pub(crate) gate: &'a G,
}

impl<'a, R: Wait, G: Gate> Model for BusPort<'a, R, G> {
    ghost use Rattle.b1_locks.specs.Faces.{DriverFace, IsOf};

    ghost Value = { DriverFace };

    ghost view = { λ p. p.driver.now };

    ghost invariant = { λ p. IsOf p.driver.now p.bus.now };
}

impl<'a, R: Wait, G: Gate> BusPort<'a, R, G> {
    /// A port of a driver that was made with this bus. `alloc` is where the answers of its sends take their memory.
    pub fn make(
        rt: &'a R,
        alloc: Global,
        driver: &'a mut Driver,
        bus: &'a Bus,
        gate: &'a G,
    ) -> BusPort<'a, R, G>
        requires { IsOf driver.old bus.now }
        ensures { result ≡ driver.old }
    {
        BusPort {
            rt,
            alloc,
            driver,
            bus,
            gate,
        }
    }

    /// Does a RECV, whose answer is the last call's.
    pub(crate) fn take(&mut self)
        requires { 0 < self.old.own.spare }
        ensures { HasTaken self.old self.new }
    {
        take(self.rt, self.bus, self.gate, self.driver);
    }

    /// The calls of its driver, in their order.
    pub(crate) fn listed(&self) -> &[Call]
        ensures { result.now ≡ self.now.own.part.calls }
    {
        self.driver.calls()
    }

    /// How many entries that were for nobody its last attempt that had to wait removed, and 0 where there was none.
    pub fn removed(&self) -> u64
        ensures { result ≡ removed_of self.now.own.part.attempted }
    {
        match self.driver.attempted() {
            Some((_, removed)) => removed,
            None => 0,
        }
    }
}
