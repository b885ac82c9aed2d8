//! The table of each peer at the end of its calls, against its handle records, over every list of steps.
#![tactic(auto)]

mod laws;

pub use laws::tables_stay_lines;
