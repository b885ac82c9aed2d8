//! A SEND, whole and with no other driver's step in between, leads the machine from rest to rest.
//!
//! Its state on the way is known part by part: what it was at rest, changed by the stages, attaches, syncs and commits that
//! are done (`proofs/Midway.antt`). Each step leads to the next such state, and the last one is that of the serial bus.
#![tactic(auto)]

mod laws;

pub use laws::a_send_keeps_rest;
