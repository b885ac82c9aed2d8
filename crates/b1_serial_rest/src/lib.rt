//! The machine at rest, and the serial bus that it stands for then.
//!
//! `specs/Standing.antt` is the serial bus that a state stands for, and `specs/Rest.antt` says when a state is at rest.
//! A bus begins at rest, and some commands, which are one step of the machine, lead from rest to rest.
#![tactic(auto)]

mod laws;

pub use laws::{a_bus_begins_at_rest, a_command_alone_keeps_rest, a_refused_release_keeps_rest};
