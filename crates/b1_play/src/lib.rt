//! The play of a script: its turns, its rounds and its drain, over a bus on one thread.
#![tactic(auto)]

mod commands;
mod copying;
mod drain;
mod playing;
mod rounds;

pub use playing::{Played, play, play_script};
