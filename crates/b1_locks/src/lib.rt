//! The locks of a bus on threads, and the drivers that do their commands under them.
//!
//! A bus has a table with a word and a slot for each peer. The word is the peer's lock: 0 where it is free, 1 where
//! it is taken. The slot has the peer's state. A driver takes a lock by one compare and exchange, works on the
//! state in the slot, and gives the lock back by one store, which is the event. It holds one lock at most.
#![tactic(auto)]

mod answers;
mod bus;
mod commands;
mod crossing;
mod driver;
mod event;
mod finish;
mod locks;
mod receive;
mod run;
mod send;
mod short;

pub use bus::{Board, Bus, Place};
pub use crossing::cross;
pub use driver::Driver;
