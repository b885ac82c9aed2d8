//! The steps of a whole command of one driver, while no other driver steps, from a state at rest to the command's end.
//!
//! Where no command is open, nothing is staged or owed, so that a reached state is at rest for the serial bus that its parts
//! show, where the boxes of that are right.
#![tactic(auto)]

mod laws;

pub use laws::a_reached_state_without_open_commands_is_at_rest;
