//! Tests of the program on sources and sinks that fail, and on threads at gates, which the built program can't be given.
#![tactic(auto)]

#[cfg(test)]
mod failing;
#[cfg(test)]
mod rows;
#[cfg(test)]
mod threads;
