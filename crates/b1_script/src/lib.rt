//! Script files: an opening, each peer's commands, and turns.
#![tactic(auto)]

mod header;
mod lists;
mod peers;
mod pieces;
mod reading;
mod resolving;
mod script;
mod wires;
mod writing;

pub use header::{most_len, most_peers};
pub use pieces::ScriptReader;
pub use reading::{every_input_is_a_script_or_has_a_fault, read, read_whole};
pub use resolving::{resolve, resolve_after};
pub use script::{Script, Turns};
pub use writing::write;
