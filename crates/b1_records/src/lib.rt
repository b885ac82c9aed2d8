//! Command records: commands as bytes.
#![tactic(auto)]

pub mod fields;
mod kinds;
mod reading;
mod writing;

pub use reading::{
    decode, decode_within, decode2, decode2_within, every_place_has_a_record_or_a_fault,
};
pub use writing::{encode, encode2};
