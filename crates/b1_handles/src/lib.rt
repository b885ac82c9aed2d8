//! A peer's records of other peers' nodes: how often it holds each, under which number, and how many queued messages
//! carry it.
#![tactic(auto)]

mod changes;
mod handle;
mod numbers;
mod records;
mod table;

pub use table::{HandleTable, NoHandle};
