//! What holds of every state that any list of steps leads to.
#![tactic(auto)]

mod laws;

pub use laws::every_reached_state_is_sound;
