//! What waits at a peer: the queue with what stands in it, and what each user is charged for it.
#![tactic(auto)]

mod charges;
mod commits;
mod mailbox;
mod marks;
mod messages;
mod names;
mod rows;
mod shelf;
mod wanted;

pub use mailbox::Mailbox;
