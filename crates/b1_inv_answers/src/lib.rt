//! Over every list of steps each call's answer is of its command's kind.
#![tactic(auto)]

mod laws;

pub use laws::answers_fit_their_commands;
