//! What is played is legal, and whole at its end: every play of a script is one of the interleavings.
#![tactic(auto)]

mod laws;

pub use laws::plays_are_legal;
