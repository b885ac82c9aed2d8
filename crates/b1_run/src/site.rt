ghost use Rattle.std.specs.Prelude.{◌≡◌, map, IfOk};
ghost use Rattle.b1_model.specs.Opening.{IsOpening};
ghost use Rattle.b1_run.specs.Workers.{IsSite};
ghost use Rattle.b1_run.specs.Runs.{IsShutDown};

use crate::worker::Worker;
use b1_bus::{Bus, Closed, Driver, close, make};
use b1_script::Script;
use std::alloc::{AllocError, Global};

/// A bus with all its drivers, in the order of their peers.
#[derive(Drop)]
pub struct Site {
    /// The bus.
    pub bus: Bus,
    /// The drivers.
    pub workers: Vec<Worker>,
}

/// Drivers as workers. An error is want of memory.
fn workers_of(alloc: Global, mut drivers: Vec<Driver>) -> Result<Vec<Worker>, AllocError>
    ensures { IfOk result (λ workers. map (λ w. w.driver) workers.items ≡ drivers.items) }
{
    let mut workers = Vec::with_capacity(alloc, drivers.len())?;
    while !drivers.is_empty() {
        workers.push_reserved(Worker {
            driver: drivers.remove(0),
            gained: false,
            short: false,
        });
    }
    Ok(workers)
}

/// The drivers of workers. An error is want of memory.
fn drivers_of(alloc: Global, mut workers: Vec<Worker>) -> Result<Vec<Driver>, AllocError>
    ensures { IfOk result (λ drivers. drivers.items ≡ map (λ w. w.driver) workers.items) }
{
    let mut drivers = Vec::with_capacity(alloc, workers.len())?;
    while !workers.is_empty() {
        drivers.push_reserved(workers.remove(0).driver);
    }
    Ok(drivers)
}

/// A bus of a script's opening, with drivers that have no calls yet. An error is want of memory.
pub fn open_site(alloc: Global, script: &Script) -> Result<Site, AllocError>
    requires { IsOpening script.now.opening }
    ensures { IfOk result (λ site. IsSite script.now.opening script.now.commands site) }
{
    let (bus, drivers) = make(alloc, &script.opening)?;
    let workers = workers_of(alloc, drivers)?;
    Ok(Site { bus, workers })
}

/// Closes a bus with its drivers. An error is want of memory.
pub fn close_site(alloc: Global, _script: &Script, site: Site) -> Result<Closed, AllocError>
    requires { IsSite _script.now.opening _script.now.commands site }
    ensures closed { IfOk result (λ c. IsShutDown _script.now c) }
    ensures drivers { IfOk result (λ c. c.drivers ≡ map (λ w. w.driver.own) site.workers.items) }
{
    let Site { bus, workers } = site;
    let drivers = drivers_of(alloc, workers)?;
    close(alloc, bus, drivers)
}

/// Opens a closed bus again, with its drivers. An error is want of memory.
pub fn reopen_site(alloc: Global, _script: &Script, closed: Closed) -> Result<Site, AllocError>
    requires { IsShutDown _script.now closed }
    ensures site { IfOk result (λ site. IsSite _script.now.opening _script.now.commands site) }
    ensures drivers { IfOk result (λ site. map (λ w. w.driver.own) site.workers.items ≡ closed.drivers) }
{
    let (bus, drivers) = closed.reopen(alloc)?;
    let workers = workers_of(alloc, drivers)?;
    Ok(Site { bus, workers })
}
