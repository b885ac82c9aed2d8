//! How many nodes, given numbers and references there can be, over every list of steps.
#![tactic(auto)]

mod laws;

pub use laws::bounds_stay_right;
