ghost use Rattle.std.specs.Prelude.{◌≡◌, ◌+◌, ◌≤◌, ◌<◌, ◌^◌, [], length};
ghost use Rattle.b1_model.specs.MachineDestroy.{queued_items, flushed};
ghost use Rattle.b1_inv_peer.specs.PeerOk.{count, is_message};
ghost use Rattle.b1_peer.specs.Flush.{item_of, room_of, HasSet, HasSets, LosesSet};

use crate::state::PeerState;
use b1_model::{Entry, Key, Limits};
use b1_peer_carried::give_up_all;
use b1_peer_dead::DeadList;
use b1_peer_queue::Mailbox;
use b1_pool::PoolKind;
use b1_queue::QueueKind;

impl<Q: QueueKind, P: PoolKind> PeerState<Q, P> {
    /// Gives up the queue and the handles, frees the pool, sets new limits, and raises the epoch.
    pub fn flush(&mut self, limits: Limits)
        requires { self.old.part.epoch < 2 ^ 63 }
        ensures { self.new ≡ record self.old { part = flushed self.old.part limits } }
    {
        empty_queue(&mut self.mail, &mut self.dead);
        give_up_all(&mut self.handles, &mut self.dead);
        self.store.clear();
        self.mail.renew(limits);
        self.epoch += 1;
    }
}

/// Takes every entry out of a queue. The references of committed messages come on the dead list, where there must be room
/// for as many items as there are messages, with each message's buffers. The buffers go.
fn empty_queue<Q: QueueKind>(mail: &mut Mailbox<Q>, dead: &mut DeadList)
    requires room { count is_message mail.old.queue ≤ dead.old.room }
    requires sets { HasSets mail.old.queue dead.old.stacks }
    ensures mail { mail.new ≡ record mail.old {
      queue = [];
      spare = mail.old.spare + length mail.old.queue;
    } }
    ensures items { dead.new.items ≡ queued_items mail.old.queue dead.old.items }
    ensures room { dead.old.room ≤ dead.new.room + count is_message mail.old.queue }
    ensures singles { dead.new.singles ≡ dead.old.singles }
{
    while let Some((key, entry)) = mail.take() {
        give_up_entry(dead, key, entry);
    }
}

/// Puts the references of a committed message on the dead list. A message's buffers go.
fn give_up_entry(dead: &mut DeadList, key: Key, entry: Entry)
    requires room { room_of (key, entry) ≤ dead.old.room }
    requires set { HasSet (key, entry) dead.old.stacks }
    ensures items { dead.new.items ≡ item_of (key, entry) dead.old.items }
    ensures room { dead.old.room ≤ dead.new.room + room_of (key, entry) }
    ensures singles { dead.new.singles ≡ dead.old.singles }
    ensures loses { LosesSet (key, entry) dead.old.stacks dead.new.stacks }
{
    let Entry::Message { with, slots, .. } = entry else {
        return;
    };
    if key.stamp % 2 == 1 {
        dead.drop_set(with.len());
        return;
    }
    dead.add_references(with.as_slice(), slots.as_slice());
}
