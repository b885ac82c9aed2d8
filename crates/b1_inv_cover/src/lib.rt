//! The law of what clocks cover, over every list of steps of a bus: the stamps in a peer's queue and in its calls, and the
//! stamps of open commands at the peers that they synced.
#![tactic(auto)]

mod laws;

pub use laws::{clocks_cover, clocks_stay_bounded, given_numbers_are_new};
