//! Tests of names, openings and sets of peers, and of the judge on records.
#![tactic(auto)]

#[cfg(test)]
mod names;
#[cfg(test)]
mod verdicts;
