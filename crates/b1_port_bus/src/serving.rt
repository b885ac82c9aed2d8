use crate::bus_port::BusPort;
use crate::receiving::last_received;
use b1_edge::{Gate, Port};
use b1_model::{Call, Nums, Reason, Receipt, Refused, SendCmd, Sent, Tried};
use std::alloc::AllocError;
use std::sync::Wait;

impl<'a, R: Wait, G: Gate> Port for BusPort<'a, R, G> {
    ghost use Rattle.b1_port_bus.specs.Ported.{waits_of};

    ghost listed = { λ p. p.own.part.calls };

    ghost left = { λ p. p.own.spare };

    ghost waits = { λ p. waits_of p.own.part };

    fn calls(&self) -> &[Call] {
        self.driver.calls()
    }

    fn spare(&self) -> usize {
        self.driver.spare()
    }

    fn reserve(&mut self, n: usize) -> Result<(), AllocError> {
        self.driver.reserve(n)
    }

    fn send(&mut self, cmd: SendCmd) -> Result<Sent, Refused> {
        self.driver
            .send(self.rt, self.alloc, self.bus, self.gate, cmd)
    }

    fn recv(&mut self) -> Result<&Receipt, Reason> {
        self.take();
        last_received(self.listed())
    }

    fn attempt(&mut self) -> Tried {
        self.driver.attempt(self.rt, self.bus, self.gate)
    }

    fn release(&mut self, number: u64) -> Result<(), Reason> {
        self.driver.release(self.rt, self.bus, self.gate, number)
    }

    fn destroy(&mut self, numbers: Nums) -> Result<u64, Reason> {
        self.driver.destroy(self.rt, self.bus, self.gate, numbers)
    }

    fn slice_release(&mut self, offset: u64) -> Result<(), Reason> {
        self.driver
            .slice_release(self.rt, self.bus, self.gate, offset)
    }
}
