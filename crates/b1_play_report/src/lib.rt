//! What a play of a script records has a report: each call of each peer has a line of its own.
#![tactic(auto)]

mod laws;

pub use laws::what_is_played_is_spelled;
