//! A pool that finds its free slices by size.
#![tactic(auto)]

mod changes;
mod pool;
mod sizes;

pub use pool::SizedPool;
