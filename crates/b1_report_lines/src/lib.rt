//! The lines of a report, read from their texts: answers, calls, and the lines around them.
#![tactic(auto)]

mod answers;
mod calls;
mod fields;
mod kinds;
mod lines;
mod marks;
mod messages;
mod reasons;
mod unread;

pub use answers::{answers_have_texts_of_their_own, read_answer};
pub use lines::{Line, Place, cookies_of, read_line, version_of};
pub use unread::{Stop, Unread};
