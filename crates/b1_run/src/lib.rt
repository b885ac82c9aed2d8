//! A script on a bus on threads: rounds in which the drivers of all peers run beside each other, and then the drain.
#![tactic(auto)]

mod closing;
mod draining;
mod rounds;
mod running;
mod site;
mod worker;

pub use running::{Ran, run};
