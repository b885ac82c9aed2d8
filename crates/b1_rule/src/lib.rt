//! The rule of the table of locks: what its seats know of drivers and peers, and that the parts of all of them
//! together are at every moment a state that steps lead to.
//!
//! A bus on threads has one table, with one word and one slot for each peer. A peer's word is its lock, and its slot
//! has the peer's state. Each driver steps with a seat whose view has the driver's own part.
#![tactic(auto)]

mod plays;
mod rule;
mod view;

pub use plays::{Becoming, Both, First, Store, Take};
pub use rule::{BusRule, Start};
pub use view::View;
