//! Destructions and their notices, as the record has them, over every list of steps.
#![tactic(auto)]

mod laws;

pub use laws::{
    destructions_stay_own, doomed_nodes_stay_present, notices_of_others_stay_right,
    own_notices_stay_right,
};
