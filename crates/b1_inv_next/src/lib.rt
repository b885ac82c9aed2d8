//! What a peer takes in a reached state is the next entry of its record, over every interleaving.
#![tactic(auto)]

mod laws;

pub use laws::{drained_records_are_whole, fronts_are_next, fronts_are_right};
