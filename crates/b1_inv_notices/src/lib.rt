//! The laws of destructions and of stamps over every list of steps of a bus: an open destruction dooms the nodes that are
//! dying and stages the notices that are queued for it, and no stamp in a queue is above its driver's clock.
#![tactic(auto)]

mod laws;

pub use laws::{notices_stay_right, stamps_stay_right};
