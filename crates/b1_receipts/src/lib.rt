//! Where the data receipts stand among a peer's calls, so that a reference to one of them takes no search.
#![tactic(auto)]

mod places;

pub use places::{data_places, note};
