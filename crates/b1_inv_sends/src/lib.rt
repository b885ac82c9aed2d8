//! Laws over every list of steps, on SENDs: how far an open SEND is, what stands staged for it, and which slots
//! committed messages have. `b1_inv` says each of the three, and that they hold together with the others.
#![tactic(auto)]

mod laws;

pub use laws::{sends_stay_right, slots_stay_right, stages_stay_right};
