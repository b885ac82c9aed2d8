//! The law of clocks over every list of steps of a bus: all clocks and stamps are even, and none is above 2^62 by more
//! than two for each driver that can get no stamp any more.
#![tactic(auto)]

mod laws;

pub use laws::clocks_stay_right;
