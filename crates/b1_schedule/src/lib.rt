//! The schedule of a script: its turns, then rounds until all commands have ended or nothing gains any more, then the drain.
#![tactic(auto)]

mod laws;
mod playing;

pub use laws::{a_record_shows_its_shortage, a_schedule_has_one_end, a_step_shows_its_shortage};
pub use playing::{a_play_ends, passes_are_played, rounds_are_played, turns_are_played};
