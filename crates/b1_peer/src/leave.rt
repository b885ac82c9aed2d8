//! A queued message leaves a peer.

ghost use Rattle.std.specs.Prelude.{◌≡◌, ◌+◌, ◌-◌, ◌≤◌, true, drop, length, IsTrue, Some, slice_get, option_map};
ghost use Rattle.b1_peer_dead.specs.Buffers.{LosesOne, count_at};
ghost use Rattle.b1_model.specs.MachineParts.{is_data, carried};
ghost use Rattle.b1_model.specs.MachinePool.{given_back};
ghost use Rattle.b1_model.specs.MachineTables.{unexpected, foreign};
ghost use Rattle.b1_model.specs.MachineSend.{offset_of};
ghost use Rattle.b1_model.specs.MachineReceive.{references, with_item};
ghost use Rattle.b1_peer_pool.specs.Slices.{is_queued};
ghost use Rattle.b1_peer_pool.specs.Stored.{IsStored};
ghost use Rattle.b1_peer_carried.specs.Carry.{AreCarried};

use b1_handles::HandleTable;
use b1_model::{Entry, Key};
use b1_peer_carried::unexpect_all;
use b1_peer_dead::DeadList;
use b1_peer_pool::Store;
use b1_peer_queue::Mailbox;
use b1_pool::PoolKind;
use b1_queue::QueueKind;

/// Gives a message's slice back, counts one fewer queued slot for each node of another peer that it carries, and lets its
/// buffers go.
pub fn take_back<P: PoolKind>(
    store: &mut Store<P>,
    handles: &mut HandleTable,
    dead: &mut DeadList,
    me: u32,
    entry: Entry,
)
    requires message { is_data entry ≡ true }
    requires queued { IsTrue (is_queued (offset_of entry) store.old.slices) }
    requires carried { AreCarried (foreign me (carried entry)) handles.old.records }
    requires set { 1 ≤ count_at dead.old.stacks (length (carried entry)) }
    ensures slices { store.new.slices ≡ given_back (offset_of entry) store.old.slices }
    ensures size { store.new.size ≡ store.old.size }
    ensures bytes { store.new.bytes ≡ store.old.bytes }
    ensures stored { IsStored store.new }
    ensures handles { handles.new
        ≡ record handles.old {
          records = unexpected (foreign me (carried entry))
              handles.old.records;
        } }
    ensures dead { dead.new ≡ record dead.old { stacks = dead.new.stacks } }
    ensures loses { LosesOne (length (carried entry)) dead.old.stacks dead.new.stacks }
{
    match entry {
        Entry::Message { offset, with, .. } => {
            store.cancel(offset);
            unexpect_all(handles, me, with.as_slice());
            dead.drop_set(with.len());
        }
        _ => unreachable!(),
    }
}

/// Gives a message's slice back, counts one fewer queued slot for each node of another peer that it carries, and puts its
/// references on the dead list, for which its buffers go. There must be room for one more item.
pub fn drop_message<P: PoolKind>(
    store: &mut Store<P>,
    handles: &mut HandleTable,
    dead: &mut DeadList,
    me: u32,
    entry: Entry,
)
    requires message { is_data entry ≡ true }
    requires queued { IsTrue (is_queued (offset_of entry) store.old.slices) }
    requires carried { AreCarried (foreign me (carried entry)) handles.old.records }
    requires room { 1 ≤ dead.old.room }
    requires set { 1 ≤ count_at dead.old.stacks (length (carried entry)) }
    ensures slices { store.new.slices ≡ given_back (offset_of entry) store.old.slices }
    ensures size { store.new.size ≡ store.old.size }
    ensures bytes { store.new.bytes ≡ store.old.bytes }
    ensures stored { IsStored store.new }
    ensures handles { handles.new
        ≡ record handles.old {
          records = unexpected (foreign me (carried entry))
              handles.old.records;
        } }
    ensures items { dead.new.items ≡ with_item (references entry) dead.old.items }
    ensures room { dead.old.room ≤ dead.new.room + 1 }
    ensures singles { dead.old.singles ≤ dead.new.singles }
    ensures loses { LosesOne (length (carried entry)) dead.old.stacks dead.new.stacks }
{
    match entry {
        Entry::Message {
            offset,
            with,
            slots,
            ..
        } => {
            store.cancel(offset);
            unexpect_all(handles, me, with.as_slice());
            dead.add_references(with.as_slice(), slots.as_slice());
        }
        _ => unreachable!(),
    }
}

/// Removes the front entry, and answers its key. There must be one.
pub fn take_key<Q: QueueKind>(mail: &mut Mailbox<Q>) -> Key
    requires { 1 ≤ length mail.old.queue }
    ensures key { option_map (λ f. f.0) (slice_get mail.old.queue 0) ≡ Some result }
    ensures mail { mail.new ≡ record mail.old {
      queue = drop 1 mail.old.queue;
      spare = mail.old.spare + 1;
    } }
{
    match mail.take() {
        Some((key, _)) => key,
        None => unreachable!(),
    }
}
