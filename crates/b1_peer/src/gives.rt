ghost use Rattle.std.specs.Prelude.{◌≡◌, ◌≤◌, ◌<◌, length};
ghost use Rattle.b1_model.specs.MachineParts.{node_at};
ghost use Rattle.b1_model.specs.MachineTables.{count_of};
ghost use Rattle.b1_model.specs.MachineReceive.{dropped};
ghost use Rattle.b1_inv_peer.specs.Needs.{IsClock, ReleasesAnew};

use crate::state::PeerState;
use b1_model::{Entry, Key, NO_ORIGIN};
use b1_pool::PoolKind;
use b1_queue::QueueKind;

impl<Q: QueueKind, P: PoolKind> PeerState<Q, P> {
    /// Takes back `k` references of a holder to a node of this peer, and raises the clock to the drop's. A live node
    /// without references gets its release notice.
    pub fn drop_refs(&mut self, serial: u32, holder: u32, k: u64, clock: u64)
        requires clock { IsClock self.old.part.clock }
        requires drop { IsClock clock }
        requires made { serial < length self.old.part.nodes }
        requires some { 1 ≤ k }
        requires enough { k ≤ count_of (node_at self.old.part serial) holder }
        requires new_key { ReleasesAnew self.old.part serial holder k clock }
        ensures { self.new
            ≡ record self.old { part = dropped self.old.part serial holder k clock } }
    {
        self.clock = self.clock.max(clock);
        if self.nodes.detach(serial, holder, k) {
            let key = Key {
                stamp: self.clock,
                origin: NO_ORIGIN,
                index: serial,
            };
            self.mail.put_notice(key, Entry::ReleaseNotice { serial });
        }
    }
}
