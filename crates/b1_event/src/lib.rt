//! The work of one event of a driver at one peer, and that every reached state bears it.
#![tactic(auto)]

mod destroys;
mod event;
mod laws;
mod receives;
mod sends;

pub use event::do_event;
pub use laws::reached_states_bear_events;
