//! What carried nodes do to a peer's records of other peers' nodes: they are expected, they leave, and they arrive; and how
//! all records are given up.
#![tactic(auto)]

mod carry;
mod flush;
mod slots;

pub use carry::{expect_all, unexpect_all};
pub use flush::give_up_all;
pub use slots::arrive;
