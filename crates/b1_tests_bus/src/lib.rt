//! Tests of the bus on threads and of ports, by their calls. They stand here, since a crate with tests of its own is
//! proved twice.
#![tactic(auto)]

mod calls;
#[cfg(test)]
mod memory_rows;
mod port_calls;
#[cfg(test)]
mod port_rows;
#[cfg(test)]
mod rows;

pub use calls::{attempt_at, recv_at, reserve_at, send_at};
pub use port_calls::{
    port_attempt, port_destroy, port_recv, port_release, port_reserve, port_send,
    port_slice_release, serve_at, try_port_at,
};
