//! What peers took while they held a node comes to the node's owner; and all that is said of names and of holders, over
//! every list of steps.
#![tactic(auto)]

mod laws;

pub use laws::{
    holders_stay_right, names_stay_right, what_holders_took_is_collected, what_holders_took_travels,
};
