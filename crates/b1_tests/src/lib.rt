//! Tests of the bus on one thread and of its plays. They stand here, since a crate with tests of its own is proved twice, and
//! these take long.
#![tactic(auto)]

#[cfg(test)]
mod buses;
#[cfg(test)]
mod limits;
#[cfg(test)]
mod openings;
#[cfg(test)]
mod plays;
