//! Release notices come and go exactly when they are due, in every step from a state that is sound and right.
#![tactic(auto)]

mod laws;

pub use laws::release_notices_are_due;
