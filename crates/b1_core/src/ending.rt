ghost use Rattle.std.specs.Prelude.{◌≡◌, ◌≤◌, [], length, map, vec_capacity};
ghost use Rattle.b1_model.specs.MachineStep.{peer_records};

use b1_driver::DriverState;
use b1_model::PeerCalls;
use b1_peer::PeerState;
use b1_pool::PoolKind;
use b1_queue::QueueKind;

/// Each peer's epoch and clock, and its driver's calls, in a list that has room for them. Takes no memory.
pub fn records<Q: QueueKind, P: PoolKind>(
    mut peers: Vec<PeerState<Q, P>>,
    mut drivers: Vec<DriverState>,
    mut room: Vec<PeerCalls>,
) -> Vec<PeerCalls>
    requires as_many { length drivers.items ≡ length peers.items }
    requires empty { room.items ≡ [] }
    requires room { length peers.items ≤ vec_capacity room }
    ensures { result.items ≡ peer_records (map (λ x. x.part) peers.items) (map (λ d.
        d.part) drivers.items) }
{
    while !peers.is_empty() {
        let peer = peers.remove(0);
        let driver = drivers.remove(0);
        room.push_reserved(PeerCalls {
            epoch: peer.epoch(),
            clock: peer.clock(),
            calls: driver.into_calls(),
        });
    }
    room
}
