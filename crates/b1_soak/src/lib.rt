//! The script of a number on threads, and the line that tells what its run came to.
#![tactic(auto)]

mod soaking;

pub use soaking::soak;
