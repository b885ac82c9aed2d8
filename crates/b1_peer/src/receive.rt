//! A message arrives at its receiver.

ghost use Rattle.std.specs.Prelude.{◌≡◌, ◌+◌, ◌<◌, ◌≤◌, ◌^◌, All, length, Ok};
ghost use Rattle.b1_model.specs.declared.answers.Receipt.TheVariants as receipts;
ghost use Rattle.b1_model.specs.MachinePool.{published};
ghost use Rattle.b1_peer_pool.specs.Content.{SameElsewhere};
ghost use Rattle.b1_peer_pool.specs.Stored.{IsStored};
ghost use Rattle.b1_peer_dead.specs.Buffers.{LosesOne};
ghost use Rattle.b1_peer_carried.specs.Carry.{may_arrive};
ghost use Rattle.b1_peer.specs.Answers.{IsDelivered};
ghost use Rattle.b1_peer.specs.Arrivals.{Arrives, CanArrive};

use b1_handles::HandleTable;
use b1_model::{Bytes, Key, MOST_HANDLES, MOST_PAYLOAD, NodeRef, Nums, Receipt, Slot};
use b1_nodes::NodeTable;
use b1_peer_carried::arrive;
use b1_peer_dead::{Buffers, DeadList};
use b1_peer_pool::{Store, padded_length};
use b1_pool::PoolKind;

/// A message that was taken from the queue.
#[derive(Drop)]
pub struct Delivery<'a> {
    /// Its key.
    pub key: Key,
    /// The number of the node that it is for.
    pub number: u64,
    /// Where its slice begins in the pool.
    pub offset: u32,
    /// The nodes that it carries.
    pub with: &'a [NodeRef],
    /// Their slots.
    pub slots: &'a [Slot],
    /// Its payload.
    pub payload: Bytes,
}

/// The receipt of a message: its slots arrive, its slice is published with the handles' numbers, and the references that
/// are given up at once come on the dead list. The message's buffers go.
pub fn receive<P: PoolKind>(
    store: &mut Store<P>,
    handles: &mut HandleTable,
    dead: &mut DeadList,
    nodes: &NodeTable,
    me: u32,
    delivery: Delivery<'_>,
) -> Receipt
    requires may_arrive { CanArrive me nodes.now store.old handles.old dead.old delivery }
    requires fits { All (λ h. h.held < 2 ^ 62) handles.old.records }
    requires numbered { handles.old.given + MOST_HANDLES < 2 ^ 60 }
    ensures arrived { Arrives me nodes.now handles.old dead.old delivery.entry result handles.new
        dead.new }
    ensures slices { store.new.slices ≡ published delivery.entry.offset store.old.slices }
    ensures size { store.new.size ≡ store.old.size }
    ensures stored { IsStored store.new }
    ensures others { SameElsewhere delivery.entry.offset store.old.slices store.old.bytes
        store.new.bytes }
    ensures delivered { IsDelivered store.new.bytes (Ok result) }
    ensures room { dead.old.room ≤ dead.new.room + 1 }
    ensures singles { dead.old.singles ≤ dead.new.singles }
    ensures loses { LosesOne (length delivery.entry.with.now) dead.old.stacks dead.new.stacks }
{
    let Delivery {
        key,
        number,
        offset,
        with,
        slots,
        payload,
    } = delivery;
    let Buffers {
        mut refs,
        mut numbers,
    } = dead.take_set(with.len());
    arrive(handles, me, nodes, with, slots, &mut numbers, &mut refs);
    let at = padded_length(payload.len() as u32);
    store.publish(offset, at, &numbers);
    dead.add(refs);
    Receipt::Message {
        key,
        number,
        offset,
        handles: Nums::from_vec(numbers),
        payload,
    }
}
