//! A peer's pool in the machine's words, and what its slices hold.
#![tactic(auto)]

mod fill;
mod lengths;
mod store;

pub use lengths::{padded_length, slice_length};
pub use store::Store;
