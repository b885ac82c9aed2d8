//! A peer's queue as a binary heap that knows the place of each item.
#![tactic(auto)]

mod cells;
mod heap;
mod sift;

pub use heap::IndexedHeap;
