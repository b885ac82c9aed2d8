ghost use Rattle.std.specs.Prelude.{◌≡◌, ◌+◌, ◌≤◌, ◌<◌, ◌==◌, [], length, map, true, Some, None, IfOk};
ghost use Rattle.std.specs.List.{list_any};
ghost use Rattle.b1_model.specs.declared.entries.Entry.TheVariants.{Message};
ghost use Rattle.b1_model.specs.declared.parts.Slot.TheVariants.{Unattached};
ghost use Rattle.b1_model.specs.MachineSend.{find_stage, stage_refusal};
ghost use Rattle.b1_step.specs.Ordered.{NewKey};
ghost use Rattle.b1_peer_dead.specs.Buffers.{AreEmpty};
ghost use Rattle.b1_peer.specs.Seen.{KeepsReceived};
ghost use Rattle.b1_peer.specs.Answers.{Stages};
ghost use Rattle.b1_inv_peer.specs.Needs.{IsClock};

use crate::rooms::make_room;
use crate::state::PeerState;
use b1_model::{
    Bytes, CLOCK_LIMIT, Entry, Key, MOST_HANDLES, MOST_PAYLOAD, NodeRef, NodeRefs, NodeState, Nums,
    Reason, Slot, Slots,
};
use b1_peer_carried::expect_all;
use b1_peer_dead::Buffers;
use b1_pool::PoolKind;
use b1_queue::QueueKind;
use std::alloc::{AllocError, Global};

/// A message without its slice's offset.
#[derive(Drop)]
struct Draft {
    origin: u32,
    user: u32,
    index: u32,
    serial: u32,
    with: NodeRefs,
    slots: Slots,
    handles: Nums,
    payload: Bytes,
}

impl Draft {
    /// The message at an offset.
    fn into_message(self, offset: u32, len: u32) -> Entry
        ensures { result
            ≡ Message self.origin self.user self.index self.serial offset len self.with self.slots
            self.handles self.payload }
    {
        let Draft {
            origin,
            user,
            index,
            serial,
            with,
            slots,
            handles,
            payload,
        } = self;
        Entry::Message {
            origin,
            user,
            index,
            serial,
            offset,
            len,
            with,
            slots,
            handles,
            payload,
        }
    }
}

/// Copies what a message keeps. An error is want of memory.
fn copy_draft(
    alloc: Global,
    origin: u32,
    user: u32,
    index: u32,
    serial: u32,
    payload: &[u8],
    with: &[NodeRef],
) -> Result<Draft, AllocError>
    ensures { IfOk result (λ d. d
        ≡ record {
          origin = origin;
          user = user;
          index = index;
          serial = serial;
          with = with.now;
          slots = map (λ node. Unattached) with.now;
          handles = [];
          payload = payload.now;
        }) }
{
    Ok(Draft {
        origin,
        user,
        index,
        serial,
        with: NodeRefs::from_slice(alloc, with)?,
        slots: unattached(alloc, with)?,
        handles: Nums::new(alloc),
        payload: Bytes::from_slice(alloc, payload)?,
    })
}

/// An unattached slot for each node. An error is want of memory.
fn unattached(alloc: Global, with: &[NodeRef]) -> Result<Slots, AllocError>
    ensures { IfOk result (λ slots. slots ≡ map (λ node. Unattached) with.now) }
{
    Ok(Slots::from_vec(Vec::from_elem(alloc, Slot::Unattached, with.len())?))
}

impl<Q: QueueKind, P: PoolKind> PeerState<Q, P> {
    /// Why a message of `user` to the node `serial` is refused, want of memory aside.
    fn stage_refused(&self, user: u32, serial: u32, payload: u32, handles: u32) -> Option<Reason>
        requires made { serial < length self.now.part.nodes }
        requires short { payload ≤ MOST_PAYLOAD }
        requires few { handles ≤ MOST_HANDLES }
        ensures { result ≡ stage_refusal self.now.part user serial payload handles }
    {
        if self.nodes.state(serial) != NodeState::Live {
            return Some(Reason::Gone {
                owner: self.me,
                serial,
            });
        }
        if self.clock >= CLOCK_LIMIT {
            return Some(Reason::Overflow { clock: self.clock });
        }
        if let Some(reason) = self.mail.refusal(user, payload, handles) {
            return Some(reason);
        }
        self.store.refusal(payload, handles)
    }

    /// Stages a message of `origin`'s SEND for its place `index` to the node `serial`, charged to `user`, and answers this
    /// peer's clock. At most `MOST_PAYLOAD` bytes and `MOST_HANDLES` handles; that message must not be staged yet. The refusals, in their
    /// order: the node isn't live, the clock is `CLOCK_LIMIT` or more, the quota, the pool, want of memory. Each leaves all as it
    /// was.
    pub fn stage(
        &mut self,
        origin: u32,
        user: u32,
        index: u32,
        serial: u32,
        payload: &[u8],
        with: &[NodeRef],
    ) -> Result<u64, Reason>
        requires clock { IsClock self.old.part.clock }
        requires made { serial < length self.old.part.nodes }
        requires user { list_any (λ u. u == user) self.old.users ≡ true }
        requires short { length payload.now ≤ MOST_PAYLOAD }
        requires few { length with.now ≤ MOST_HANDLES }
        requires unstaged { find_stage self.old.part origin index ≡ None }
        requires new_key { NewKey (record {
          stamp = self.old.part.clock + 1;
          origin = origin;
          index = index;
        }) self.old.part.queue }
        ensures stages { Stages self.old.part origin user index serial payload.now with.now result
            self.new.part }
        ensures received { KeepsReceived self.old self.new }
        ensures users { self.new.users ≡ self.old.users }
    {
        let size = payload.len() as u32;
        let handles = with.len() as u32;
        if let Some(reason) = self.stage_refused(user, serial, size, handles) {
            return Err(reason);
        }
        let Ok(draft) = copy_draft(self.alloc, origin, user, index, serial, payload, with) else {
            return Err(Reason::Memory);
        };
        let Ok(set) = Buffers::make(self.alloc, with.len()) else {
            return Err(Reason::Memory);
        };
        self.admit(draft, set, payload, with)
    }

    /// Puts a message that isn't refused into the queue, with its slice, what it carries, and the buffers for its arrival.
    fn admit(
        &mut self,
        draft: Draft,
        set: Buffers,
        payload: &[u8],
        with: &[NodeRef],
    ) -> Result<u64, Reason>
        requires clock { IsClock self.old.part.clock }
        requires made { draft.serial < length self.old.part.nodes }
        requires user { list_any (λ u. u == draft.user) self.old.users ≡ true }
        requires short { length payload.now ≤ MOST_PAYLOAD }
        requires few { length with.now ≤ MOST_HANDLES }
        requires unstaged { find_stage self.old.part draft.origin draft.index ≡ None }
        requires new_key { NewKey (record {
          stamp = self.old.part.clock + 1;
          origin = draft.origin;
          index = draft.index;
        }) self.old.part.queue }
        requires accepted { stage_refusal self.old.part draft.user draft.serial (length payload.now)
            (length with.now)
            ≡ None }
        requires payload_is { draft.payload ≡ payload.now }
        requires with_is { draft.with ≡ with.now }
        requires slots_are { draft.slots ≡ map (λ node. Unattached) with.now }
        requires handles_are { draft.handles ≡ [] }
        requires set_is { AreEmpty (length with.now) set }
        ensures stages { Stages self.old.part draft.origin draft.user draft.index draft.serial
            payload.now with.now result self.new.part }
        ensures received { KeepsReceived self.old self.new }
        ensures users { self.new.users ≡ self.old.users }
    {
        let Ok(()) = make_room(
            &mut self.mail,
            &mut self.store,
            &mut self.dead,
            self.nodes.len() as usize,
            self.handles.len(),
            with.len(),
        ) else {
            return Err(Reason::Memory);
        };
        let Ok(()) = expect_all(&mut self.handles, self.me, with) else {
            return Err(Reason::Memory);
        };
        self.dead.put_set(with.len(), set);
        let offset = self.store.put(payload, with.len() as u32);
        let key = Key {
            stamp: self.clock + 1,
            origin: draft.origin,
            index: draft.index,
        };
        self.mail
            .put_message(key, draft.into_message(offset, payload.len() as u32));
        Ok(self.clock)
    }
}
