//! What open destructions doom, and what the record has of them, over every list of steps.
#![tactic(auto)]

mod laws;

pub use laws::{
    destroyed_nodes_stay_recorded, each_node_is_destroyed_once, only_resets_flush,
    open_destructions_doom_what_they_name, own_notices_stay_where_they_are,
};
