//! Nodes of earlier epochs, the keys of destructions, and the notices that peers took, over every list of steps.
#![tactic(auto)]

mod laws;

pub use laws::{old_nodes_stay_destroyed, own_slots_stay_present, taken_notices_stay_received};
