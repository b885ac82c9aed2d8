//! Where bytes come from and go to: sources and sinks with a count of their faults, in memory and
//! over the standard streams, and the calls that read or write everything.
#![tactic(auto)]

mod ends;
mod memory;
mod standard;
#[cfg(test)]
mod tests;
mod wholes;

pub use ends::{Failed, Pieces, Sink, Source};
pub use memory::{MemSink, MemSource};
pub use standard::{StdSink, StdSource};
pub use wholes::{NotAll, read_all, read_into, write_all};
