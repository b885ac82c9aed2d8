//! The laws of one step of the bus: what an event changes, and what it can't.
//!
//! `docs/MACHINE.md` tells of parts, phases and events in plain words.
#![tactic(auto)]

mod laws;

pub use laws::{
    a_list_grows_by_one_call, a_reached_state_goes_on, a_step_extends, a_step_is_a_function,
    a_step_is_local, an_event_changes_its_fields, memory_refuses_alone, no_clock_falls,
    others_keep_what_is_own, parts_keep_their_numbers, records_stay_in_order,
};
