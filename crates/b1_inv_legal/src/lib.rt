//! Steps keep the record legal, over every list of steps.
#![tactic(auto)]

mod laws;

pub use laws::{records_stay_legal, what_is_taken_was_sent};
