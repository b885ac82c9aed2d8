//! An input that begins with a script: the script is taken in pieces, and what stands behind it is kept beside.
#![tactic(auto)]

mod input;

pub use input::{Front, Input};
