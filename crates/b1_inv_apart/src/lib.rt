//! The law of places over every list of steps of a bus: destroy notices that are staged in their own peer's queue have
//! places of their own.
#![tactic(auto)]

mod laws;

pub use laws::own_notices_stay_apart;
