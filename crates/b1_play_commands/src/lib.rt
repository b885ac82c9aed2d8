//! What a play of a script records: each peer's calls are the script's commands, in their order.
#![tactic(auto)]

mod laws;

pub use laws::{a_play_follows_its_script, what_is_played_is_scripted};
