//! A peer's own nodes: their numbers, their lives, how many references each other peer has, and which of them a
//! destruction dooms.
#![tactic(auto)]

mod counts;
mod destructions;
mod index;
mod node;
mod nodes;
mod numbers;
mod serials;
mod table;

pub use destructions::{doom, doom_live};
pub use numbers::{overflow, refusal};
pub use table::NodeTable;
