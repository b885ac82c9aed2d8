//! The edge of a bus on threads: where its drivers call out, and what a service needs of a peer.
#![tactic(auto)]

mod gate;
mod hold;
mod port;

pub use gate::{Gate, OpenGate, Point};
pub use hold::HoldGate;
pub use port::Port;
