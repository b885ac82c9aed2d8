//! What each user is charged at a peer: entries in the queue, bytes of their slices, and carried handles.
#![tactic(auto)]

mod accounts;
mod quota;

pub use accounts::Account;
pub use quota::{Over, Quota};
