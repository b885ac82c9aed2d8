//! What a peer's queue holds: entries, each at a place of its own until it is removed.
#![tactic(auto)]

mod places;
mod table;

pub use b1_model::{Entry, Slot, Slots};
pub use table::EntryTable;
