//! Whole commands that lead from rest to rest, as a schedule runs them.
//!
//! Each law is on one command of one driver, from a reached state at rest: a schedule runs it to its end while no other
//! driver steps, and the state then is at rest for the serial bus after the command.
#![tactic(auto)]

mod laws;

pub use laws::{
    a_destruction_runs_to_rest, a_receive_runs_to_rest, a_release_runs_to_rest,
    a_reset_runs_to_rest, a_small_command_runs_to_rest,
};
