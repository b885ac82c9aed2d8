//! What is always so of a single peer's part, over every list of steps: its queue, its nodes, its slices and its handle
//! records by themselves.
#![tactic(auto)]

mod laws;

pub use laws::parts_stay_right;
