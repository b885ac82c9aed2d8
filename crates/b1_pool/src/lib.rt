//! A pool of bytes, cut into slices that are taken and given back.
#![tactic(auto)]

mod changes;
mod kind;
mod laws;
mod list;
pub mod places;
mod slices;

pub use kind::{Full, Memory, NoSlice, PoolKind};
pub use laws::other_slices_stay;
pub use list::ListPool;
pub use slices::{Slice, SliceState};
