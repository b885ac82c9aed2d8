//! What a peer's calls make of its names and epochs, against its part, over every list of steps.
#![tactic(auto)]

mod laws;

pub use laws::{
    begun_names_stay_right, destroyed_nodes_stay, epochs_stay_counted, flushes_doom_all,
    made_numbers_stay_right, shut_peers_stay_empty, tables_are_empty_in_gaps,
};
