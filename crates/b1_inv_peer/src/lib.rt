//! What is always so of one peer's part, and that each event keeps it.
#![tactic(auto)]
