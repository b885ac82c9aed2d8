//! The slices of each peer's pool, over every list of steps.
#![tactic(auto)]

mod laws;

pub use laws::slices_stay_right;
