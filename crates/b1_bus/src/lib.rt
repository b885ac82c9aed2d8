//! The bus on threads: a table with a lock for each peer, and a driver for each peer that does its commands under them.
//!
//! `make` gives a bus and its drivers, one for each peer. The bus is shared, and each driver is moved to the thread that
//! is to use it. `close` takes them all back, and gives the state that they have led to.
#![tactic(auto)]

mod closing;
mod kinds;
mod making;
mod taking;

pub use closing::{Closed, close};
pub use kinds::{Bus, Driver};
pub use making::make;
