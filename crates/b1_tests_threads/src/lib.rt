//! Tests of the bus by drivers in threads of their own. They stand here, since a crate with tests of its own is proved twice,
//! and these take long.
#![tactic(auto)]

#[cfg(test)]
mod calls;
#[cfg(test)]
mod held;
#[cfg(test)]
mod openings;
#[cfg(test)]
mod resets;
