//! A port of no bus, for trying a service without threads: it gives the receipts that it was made with, and refuses the
//! sends that it was told to refuse.
#![tactic(auto)]

mod book;
mod forms;
mod mem_port;
mod serving;
mod steps;

pub use mem_port::MemPort;
