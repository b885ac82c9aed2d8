ghost use Rattle.std.specs.Prelude.{◌≡◌, ◌+◌, map, IfOk};
ghost use Rattle.b1_crew.specs.Parts.{AreAll};
ghost use Rattle.b1_rule.specs.Rule.{state_of, LedTo};
ghost use Rattle.b1_model.specs.Opening.{IsOpening};
ghost use Rattle.b1_model.specs.MachineStep.{opening_state};

use crate::parts::{Part, beside};
use b1_bus::{Bus, Closed, Driver, close, make};
use b1_edge::Gate;
use b1_model::Opening;
use std::alloc::{AllocError, Global};
use std::sync::Wait;
use std::thread::Threads;

/// A bus with all its drivers, in the order of their peers.
#[derive(Drop)]
pub struct Crew {
    /// The bus.
    pub bus: Bus,
    /// Its drivers.
    pub drivers: Vec<Driver>,
    pub ghost all: { AreAll bus drivers.items },
}

impl Crew {
    /// A bus in its opening state, and its drivers, without calls and without room for any. An error is want of memory.
    pub fn open(alloc: Global, opening: &Opening) -> Result<Crew, AllocError>
        requires { IsOpening opening.now }
        ensures opening { IfOk result (λ made. made.bus.opening ≡ opening.now) }
        ensures first { IfOk result (λ made. made.bus.first ≡ opening_state opening.now) }
    {
        let (bus, drivers) = make(alloc, opening)?;
        Ok(Crew { bus, drivers })
    }

    /// A closed bus, opened again. An error is want of memory.
    pub fn reopen(alloc: Global, closed: Closed) -> Result<Crew, AllocError>
        ensures opening { IfOk result (λ made. made.bus.opening ≡ closed.opening) }
        ensures first { IfOk result (λ made. made.bus.first ≡ state_of closed.peers closed.drivers) }
        ensures drivers { IfOk result (λ made. map (λ d. d.own) made.drivers.items ≡ closed.drivers) }
    {
        let (bus, drivers) = closed.reopen(alloc)?;
        Ok(Crew { bus, drivers })
    }

    /// All drivers do their parts beside each other, each in a thread of its own.
    pub fn play<R: Threads + Wait + Sync, G: Gate + Sync, P: Part + Sync>(
        &mut self,
        rt: &R,
        alloc: Global,
        gate: &G,
        part: &P,
    )
        ensures { self.new.bus ≡ self.old.bus }
    {
        beside(
            rt,
            alloc,
            &self.bus,
            gate,
            part,
            self.drivers.as_mut_slice(),
        );
    }

    /// Closes the bus. An error is want of memory.
    pub fn close(self, alloc: Global) -> Result<Closed, AllocError>
        ensures opening { IfOk result (λ c. c.opening ≡ self.bus.opening) }
        ensures drivers { IfOk result (λ c. c.drivers ≡ map (λ d. d.own) self.drivers.items) }
        ensures led { IfOk result (λ c. LedTo c.opening self.bus.first (state_of c.peers c.drivers)) }
    {
        let Crew { bus, drivers } = self;
        close(alloc, bus, drivers)
    }
}
