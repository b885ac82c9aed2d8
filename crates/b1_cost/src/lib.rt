//! A count of steps that costs nothing: contracts see the number, and the program keeps none.
#![tactic(auto)]

mod steps;

pub use steps::Steps;
