//! All peers and drivers of a bus on one thread, stepped one event at a time.
#![tactic(auto)]

mod bus;
mod ending;
mod making;
mod stepping;
mod turn;

pub use bus::Core;
pub use ending::records;
pub use making::{copy_opening, make_drivers, make_peers};
pub use turn::Turn;
