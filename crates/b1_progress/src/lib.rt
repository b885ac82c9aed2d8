//! Why the loops of a play end: how much work an open command still has where no other driver steps.
#![tactic(auto)]

mod laws;
mod levels;

pub use laws::a_command_ends;
pub use levels::{an_attempt_lowers_the_level, attempts_are_answered};
