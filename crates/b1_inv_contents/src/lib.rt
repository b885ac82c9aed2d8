//! What a peer takes has what was sent, in every reached state.
#![tactic(auto)]

mod laws;

pub use laws::{receipts_have_what_was_sent, right_fronts_keep_records_legal};
