//! The law of received notices over every list of steps of a bus: each destroy notice that a driver received names a node
//! by an even number.
#![tactic(auto)]

mod laws;

pub use laws::receipts_stay_right;
