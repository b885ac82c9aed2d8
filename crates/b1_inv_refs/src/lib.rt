//! How references are counted, over every list of steps: records and their numbers, what queued entries carry, and that
//! each owner's count of a peer's references is the fresh count.
#![tactic(auto)]

mod laws;

pub use laws::{flights_stay_right, numbers_stay_right, references_stay_right};
