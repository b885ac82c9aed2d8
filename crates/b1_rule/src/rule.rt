ghost use Rattle.b1_rule.specs.Rule.{Kept, held_by, state_of, whole};

use crate::view::View;
use atomic_table::TableRule;
use b1_driver::DriverState;
use b1_model::Opening;
use b1_peer::PeerState;
use b1_pool::PoolKind;
use b1_queue::QueueKind;
use std::snapshot::Snapshot;

/// What a table is told when it is made: how the bus was opened, and its peers and drivers as they are then. It has no
/// bytes.
#[derive(Drop)]
pub struct Start<Q: QueueKind, P: PoolKind> {
    /// How the bus was opened.
    pub opening: Snapshot<Opening>,
    /// The peers, in the order of their numbers.
    pub peers: Snapshot<Vec<PeerState<Q, P>>>,
    /// The drivers, in the order of their peers.
    pub drivers: Snapshot<Vec<DriverState>>,
}

/// The rule of the table of locks.
pub struct BusRule;

impl<Q: QueueKind, P: PoolKind> TableRule<PeerState<Q, P>, View, Start<Q, P>> for BusRule {
    ghost holds = { λ key. Kept key.opening.value
        (state_of key.peers.value.items key.drivers.value.items) };

    ghost first = { λ key. whole key.opening.value (held_by key.drivers.value.items) };
}
