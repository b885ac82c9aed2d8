//! A play without a schedule is the plain serial bus's.
#![tactic(auto)]

mod laws;

pub use laws::plays_without_turns_are_serial;
