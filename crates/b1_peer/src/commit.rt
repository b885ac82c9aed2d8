ghost use Rattle.std.specs.Prelude.{◌≡◌, ◌+◌, ◌-◌, ◌<◌, ◌^◌, length, Some};
ghost use Rattle.b1_model.specs.MachineParts.{node_at};
ghost use Rattle.b1_model.specs.MachineTables.{count_of};
ghost use Rattle.b1_model.specs.MachineSend.{find_stage, unstaged, attach_answer, attached, final_stamp, stamped, synced, is_committed, committed, notices_committed};
ghost use Rattle.b1_inv_peer.specs.Needs.{IsClock, SlotsFit, CommitsAnew};
ghost use Rattle.b1_peer.specs.Notices.{NoticesFit};

use crate::leave::take_back;
use crate::state::PeerState;
use b1_model::{Attach, Begun, NodeRef, Reason, SendCmd, Slot};
use b1_pool::PoolKind;
use b1_queue::QueueKind;

impl<Q: QueueKind, P: PoolKind> PeerState<Q, P> {
    /// Takes a staged message back, with its slice, its charge and what it carries. Where a flush cancelled it nothing
    /// changes.
    pub fn unstage(&mut self, origin: u32, index: u32)
        ensures { self.new ≡ record self.old { part = unstaged self.old.part origin index } }
    {
        if let Some((_, entry)) = self.mail.take_stage(origin, index) {
            take_back(
                &mut self.store,
                &mut self.handles,
                &mut self.dead,
                self.me,
                entry,
            );
        }
    }

    /// Counts a reference of the peer `dest` to a node that isn't destroyed, where `dest` isn't this peer. A release notice
    /// of the node leaves, and at a dying node `dest` is then late. The count must be below 2^63.
    pub fn attach(&mut self, serial: u32, dest: u32) -> Attach
        requires made { serial < length self.old.part.nodes }
        requires peer { dest < self.old.part.peers }
        requires fits { count_of (node_at self.old.part serial) dest < 2 ^ 63 }
        ensures answer { result ≡ attach_answer self.old.part serial dest }
        ensures attached { self.new
            ≡ record self.old { part = attached self.old.part serial dest } }
    {
        let answer = self.nodes.attach(serial, dest);
        if let Attach::Counted = answer {
            self.mail.withdraw_release(serial);
        }
        answer
    }

    /// Answers the final stamp, two above the own clock and the clocks collected. It is the clock then.
    pub fn stamp(&mut self, collected: u64) -> u64
        requires clock { IsClock self.old.part.clock }
        requires collected { IsClock collected }
        ensures answer { result ≡ final_stamp self.old.part collected }
        ensures stamped { self.new ≡ record self.old { part = stamped self.old.part collected } }
    {
        self.clock = self.clock.max(collected) + 2;
        self.clock
    }

    /// Raises the clock to a stamp.
    pub fn sync(&mut self, stamp: u64)
        requires clock { IsClock self.old.part.clock }
        requires stamp { IsClock stamp }
        ensures { self.new ≡ record self.old { part = synced self.old.part stamp } }
    {
        self.clock = self.clock.max(stamp);
    }

    /// Commits a staged message under its final stamp, with its slots. Whether it was there: a flush may have cancelled
    /// it, and nothing changes then.
    pub fn commit(&mut self, origin: u32, index: u32, stamp: u64, slots: &[Slot]) -> bool
        requires stamp { IsClock stamp }
        requires slots { SlotsFit self.old.part (find_stage self.old.part origin index) slots.now }
        requires new_key { CommitsAnew self.old.part (find_stage self.old.part origin index)
            (record {
              stamp = stamp;
              origin = origin;
              index = index;
            }) }
        ensures there { result ≡ is_committed self.old.part origin index }
        ensures committed { self.new
            ≡ record self.old { part = committed self.old.part origin index stamp slots.now } }
    {
        self.mail.commit(origin, index, stamp, slots)
    }

    /// Commits all notices that a destruction of `origin` staged, under its final stamp.
    pub fn commit_notices(&mut self, origin: u32, stamp: u64)
        requires stamp { IsClock stamp }
        requires notices { NoticesFit self.old.part origin stamp }
        ensures { self.new
            ≡ record self.old { part = notices_committed self.old.part origin stamp } }
    {
        self.mail.commit_notices(origin, stamp);
    }
}
