//! A driver: one peer's commands, each taken through its events in their order.
#![tactic(auto)]

mod actions;
mod destroyed;
mod destroys;
mod driver;
mod events;
mod facts;
mod other;
mod owing;
mod places;
mod room;
mod seen;
mod sends;
mod sent;
mod settle;
mod stage;

pub use driver::DriverState;
