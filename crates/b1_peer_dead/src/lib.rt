//! Buffers that were made beforehand, and a peer's list of references to be given up.
#![tactic(auto)]

mod buffers;
mod dead;
mod stack;

pub use buffers::put_last;
pub use dead::DeadList;
pub use stack::Buffers;
