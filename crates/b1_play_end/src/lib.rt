//! What a script's schedule comes to: where it finishes all is drained, where it stalls all that is left waits.
#![tactic(auto)]

mod laws;

pub use laws::{a_finished_play_is_drained, a_stalled_play_is_stuck};
