//! Each kind of step on the table of locks keeps its rule.
#![tactic(auto)]

mod laws;

pub use laws::every_step_keeps_the_rule;
