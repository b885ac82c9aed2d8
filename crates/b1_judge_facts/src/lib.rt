//! What a record's numbers, messages and destructions name, gathered once and looked up.
//!
//! A judge of a record asks for the messages with a key, for what a peer holds before a call, and for what is destroyed
//! before a send. `Facts` and `Walk` answer in little time, and their contracts say that they answer what the
//! definitions of `b1_model` say.
#![tactic(auto)]

mod epochs;
mod facts;
mod gather;
mod gone;
mod keep;
mod laws;
mod lines;
mod message;
mod names;
mod node;
mod standing;
mod start;
mod table;
mod walk;

pub use facts::Facts;
pub use laws::order_has_the_stamped_calls;
pub use message::Message;
pub use node::NodeId;
pub use walk::Walk;
