//! A peer's queue: entries in the order of their keys, each with the place of what it stands for.
#![tactic(auto)]

mod kind;
mod plain;

pub use kind::QueueKind;
pub use plain::PlainQueue;
