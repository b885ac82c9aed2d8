//! The law of the holders of nodes that end, over every list of steps of a bus.
#![tactic(auto)]

mod laws;

pub use laws::holders_of_ended_nodes;
