//! What a destruction brings over lists of steps: each notice once between two flushes, and another visit only behind an
//! attach.
#![tactic(auto)]

mod laws;

pub use laws::{attaches_bring_visits, notices_come_once};
