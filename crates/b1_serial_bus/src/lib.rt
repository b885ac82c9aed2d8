//! The plain serial bus: what a script means where each command runs whole, one after another.
//!
//! The definition stands in `specs/`, a file for each part of it: `Report.antt` is its end, `Commands.antt` tells of the
//! commands, and `Parts.antt` of what the bus knows of a peer. Nothing is staged there, and no command has steps.
#![tactic(auto)]

mod laws;

pub use laws::a_script_has_one_serial_end;
