//! What is begun after a receipt has a later stamp than what was received, over every interleaving.
#![tactic(auto)]

mod laws;

pub use laws::receipts_come_before_sends;
