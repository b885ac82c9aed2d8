//! A bus with all its drivers, which work beside each other, each in a thread of its own.
#![tactic(auto)]

mod crew;
mod parts;

pub use crew::Crew;
pub use parts::{Part, Times, has_room};
