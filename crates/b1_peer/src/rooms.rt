//! The room that a stage makes before it changes anything.

ghost use Rattle.std.specs.Prelude.{◌≤◌, length, OnOk};
ghost use Rattle.b1_peer_pool.specs.Stored.{IsStored};
ghost use Rattle.b1_peer.specs.Rooms.{MoreRoom, Enough};

use b1_model::MOST_HANDLES;
use b1_peer_dead::DeadList;
use b1_peer_pool::Store;
use b1_peer_queue::Mailbox;
use b1_pool::PoolKind;
use b1_queue::QueueKind;
use std::alloc::AllocError;

/// Makes room for one more message with `carries` carried nodes, and for the notices of `nodes` nodes, the notices and dead
/// items of `records` records, and those of the carried nodes. An error is want of memory; only room may have been gained
/// then.
pub fn make_room<Q: QueueKind, P: PoolKind>(
    mail: &mut Mailbox<Q>,
    store: &mut Store<P>,
    dead: &mut DeadList,
    nodes: usize,
    records: usize,
    carries: usize,
) -> Result<(), AllocError>
    requires stored { IsStored store.old }
    requires few { carries ≤ MOST_HANDLES }
    ensures more { MoreRoom mail.old mail.new store.old store.new dead.old dead.new }
    ensures enough { OnOk result (Enough nodes records carries
        (length mail.old.queue) mail.new store.new dead.new) }
{
    let all_records = records.checked_add(carries).ok_or(AllocError)?;
    let with_message = all_records.checked_add(1).ok_or(AllocError)?;
    let entries = with_message.checked_add(nodes).ok_or(AllocError)?;
    let items = with_message.checked_add(mail.len()).ok_or(AllocError)?;
    mail.reserve(entries)?;
    store.reserve()?;
    dead.reserve(items)?;
    dead.reserve_singles(all_records)?;
    dead.reserve_set(carries)
}
