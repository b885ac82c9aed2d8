//! Where each entry of the record is, over every list of steps.
#![tactic(auto)]

mod laws;

pub use laws::{
    committed_messages_stay_called, entries_stay_right, entries_stay_somewhere,
    notices_stay_below_stamps, queued_messages_stay_present, waiting_places_stay_above,
    waiting_places_stay_staged, what_has_left_stays_behind,
};
