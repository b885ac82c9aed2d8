//! One peer of the bus: what each event answers and makes of it.
#![tactic(auto)]

mod answers;
mod begin;
mod commit;
mod destroys;
mod flush;
mod front;
mod gives;
mod leave;
mod make;
mod notices;
mod receive;
mod recv;
mod rooms;
mod send;
mod stage;
mod state;

pub use state::PeerState;
