//! What a command comes to that one driver does whole, whatever other drivers do between its steps.
#![tactic(auto)]

mod laws;

pub use laws::commands_are_answered;
