//! What every run of a generated script comes to, in whatever order its threads do their steps.
#![tactic(auto)]

mod laws;

pub use laws::{generated_counts, generated_scripts_never_stall, generated_sends_are_accepted};
