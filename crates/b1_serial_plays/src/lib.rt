//! Rounds and drain of a script without turns, on the machine and on the plain serial bus: where each whole command
//! leads from rest to rest as on the serial bus, the whole script does.
#![tactic(auto)]

mod laws;

pub use laws::scripts_run_as_their_commands_do;
