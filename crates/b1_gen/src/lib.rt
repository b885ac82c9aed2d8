//! Scripts in which all peers send at once, each made of one number.
#![tactic(auto)]

mod commands;
mod counting;
mod laws;
mod lines;
mod numbers;
mod opening;
mod script;

pub use counting::{Counts, Quantity, count_all, count_of};
pub use laws::{every_destination_is_held, every_generated_script_has_a_spelling};
pub use lines::summary;
pub use numbers::PHASES;
pub use script::generate;
