//! A driver of the bus on threads as a port: what a service needs of its peer, with its bus and its gate.
#![tactic(auto)]

mod bus_port;
mod receiving;
mod serving;

pub use bus_port::BusPort;
