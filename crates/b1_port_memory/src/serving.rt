//! A port of no bus as a service sees it.

use crate::mem_port::MemPort;
use b1_edge::Port;
use b1_model::{Call, Nums, Reason, Receipt, Refused, SendCmd, Sent, Tried};
use std::alloc::AllocError;

impl Port for MemPort {
    ghost listed = { λ m. m.calls };

    ghost left = { λ m. m.spare };

    ghost waits = { λ m. m.waits };

    fn calls(&self) -> &[Call] {
        MemPort::calls(self)
    }

    fn spare(&self) -> usize {
        MemPort::spare(self)
    }

    fn reserve(&mut self, n: usize) -> Result<(), AllocError> {
        MemPort::reserve(self, n)
    }

    fn send(&mut self, cmd: SendCmd) -> Result<Sent, Refused> {
        MemPort::send(self, cmd)
    }

    fn recv(&mut self) -> Result<&Receipt, Reason> {
        MemPort::recv(self)
    }

    fn attempt(&mut self) -> Tried {
        MemPort::attempt(self)
    }

    fn release(&mut self, number: u64) -> Result<(), Reason> {
        MemPort::release(self, number)
    }

    fn destroy(&mut self, numbers: Nums) -> Result<u64, Reason> {
        MemPort::destroy(self, numbers)
    }

    fn slice_release(&mut self, offset: u64) -> Result<(), Reason> {
        MemPort::slice_release(self, offset)
    }
}
