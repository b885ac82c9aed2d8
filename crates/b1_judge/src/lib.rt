//! Judges a record against a script: whether the record's calls are the script's, and are what a bus may answer.
//!
//! Six parts are tried in turn, each over the peers and then over their calls in rising order.
#![tactic(auto)]

mod candidates;
mod commands;
mod contents;
mod frame;
mod judging;
mod keys;
mod order;
mod prefix;
mod reading;
mod receipts;
mod script_part;
mod verdict;
mod whole;

pub use judging::judge;
pub use verdict::{Clause, Verdict, word};
