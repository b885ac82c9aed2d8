ghost use Rattle.std.specs.Prelude.{◌≡◌, ◌+◌, ◌<◌, ◌-◌, ◌^◌, drop, length, true, Ok};
ghost use Rattle.b1_model.specs.MachineTables.{changed, made_dead};
ghost use Rattle.b1_model.specs.MachineReceive.{received, received_part, front_taken, cleared};
ghost use Rattle.b1_peer.specs.Seen.{KeepsReceived};
ghost use Rattle.b1_peer.specs.Answers.{IsDelivered};
ghost use Rattle.b1_peer.specs.Fronts.{kind_of, front_goes, front_gone, StillReceived, GoesWell};
ghost use Rattle.b1_peer.specs.declared.front.Kind.TheVariants as kinds;
ghost use Rattle.b1_inv_peer.specs.Needs.{HeldFew};

use crate::front::Kind;
use crate::leave::{drop_message, take_key};
use crate::receive::{Delivery, receive};
use crate::state::PeerState;
use b1_model::{Entry, Front, INVALID, MOST_HANDLES, NodeRef, Receipt, Received};
use b1_pool::PoolKind;
use b1_queue::QueueKind;

impl<Q: QueueKind, P: PoolKind> PeerState<Q, P> {
    /// Removes what is for nobody at the front, and takes the entry that is then in front, where it is committed. A
    /// message's slice holds its payload, zero padding to a multiple of 8, and the numbers of its handles. Fewer than
    /// 2^60 - `MOST_HANDLES` numbers may have been given, and no node held 2^62 times.
    pub fn recv(&mut self) -> Received
        requires few { self.old.part.given < 2 ^ 60 - MOST_HANDLES }
        requires held { HeldFew self.old.part }
        ensures answer { result ≡ received self.old.part }
        ensures part { self.new.part ≡ received_part self.old.part }
        ensures delivered { IsDelivered self.new.bytes result.front }
        ensures received { KeepsReceived self.old self.new }
        ensures users { self.new.users ≡ self.old.users }
    {
        let before = self.waiting();
        self.discard_all();
        let removed = (before - self.waiting()) as u64;
        Received {
            front: self.take_front(),
            removed,
        }
    }

    /// How many entries are queued.
    pub fn waiting(&self) -> usize
        ensures { result ≡ length self.now.part.queue }
    {
        self.mail.len()
    }

    /// Removes what is for nobody at the front.
    fn discard_all(&mut self)
        ensures front { (received self.new.part).front ≡ (received self.old.part).front }
        ensures part { received_part self.new.part ≡ received_part self.old.part }
        ensures removed { length self.old.part.queue
            ≡ length self.new.part.queue + (received self.old.part).removed }
        ensures settled { cleared self.new.part ≡ self.new.part }
        ensures still { StillReceived self.old.part self.new.part }
        ensures given { self.new.part.given ≡ self.old.part.given }
        ensures held { HeldFew self.old.part → HeldFew self.new.part }
        ensures rest { self.new ≡ record self.old { part = self.new.part } }
    {
        while self.is_front_for_nobody() {
            self.front_facts();
            self.discard_front();
        }
        self.front_facts();
    }

    /// What is always so of a front that goes.
    fn front_facts(&self)
        ensures { GoesWell self.now.part }
    {
        let _me = self.me;
    }

    /// Removes the front, which is for nobody.
    fn discard_front(&mut self)
        requires { front_goes self.old.part ≡ true }
        ensures { self.new ≡ record self.old { part = front_gone self.old.part } }
    {
        let kind = self.front_kind();
        if let Kind::Message { serial } = kind {
            self.discard_message(serial);
            return;
        }
        let Kind::Foreign { node } = kind else {
            unreachable!()
        };
        self.end_notice(node);
    }

    /// Removes a message at the front that is for nobody.
    fn discard_message(&mut self, serial: u32)
        requires { kind_of self.old.part.queue ≡ kinds.Message serial }
        ensures gone { self.new ≡ record self.old { part = front_gone self.old.part } }
    {
        let Some((_, entry)) = self.mail.take() else {
            unreachable!()
        };
        drop_message(
            &mut self.store,
            &mut self.handles,
            &mut self.dead,
            self.me,
            entry,
        );
    }

    /// Removes the destroy notice of another peer's node at the front: its record is dead.
    fn end_notice(&mut self, node: NodeRef)
        requires { kind_of self.old.part.queue ≡ kinds.Foreign node }
        ensures { self.new ≡ record self.old {
          part = record self.old.part {
            queue = drop 1 self.old.part.queue;
            handles = changed node made_dead self.old.part.handles;
          };
        } }
    {
        take_key(&mut self.mail);
        self.handles.mark_dead(node);
    }

    /// Takes the front, which isn't for nobody, where it is committed.
    fn take_front(&mut self) -> Result<Receipt, Front>
        requires few { self.old.part.given < 2 ^ 60 - MOST_HANDLES }
        requires held { HeldFew self.old.part }
        ensures answer { result ≡ (front_taken self.old.part self.old.part.queue).0 }
        ensures part { self.new.part ≡ (front_taken self.old.part self.old.part.queue).1 }
        ensures delivered { IsDelivered self.new.bytes result }
        ensures received { KeepsReceived self.old self.new }
        ensures users { self.new.users ≡ self.old.users }
    {
        match self.front_kind() {
            Kind::Absent => Err(Front::Absent),
            Kind::Staged { origin, stamp } => Err(Front::Staged { origin, stamp }),
            Kind::Message { serial } => Ok(self.take_message(serial)),
            Kind::Own { serial } => Ok(self.take_own(serial)),
            Kind::Foreign { node } => Ok(self.take_foreign(node)),
            Kind::Release { serial } => Ok(self.take_release(serial)),
        }
    }

    /// Takes a message at the front.
    fn take_message(&mut self, serial: u32) -> Receipt
        requires kind { kind_of self.old.part.queue ≡ kinds.Message serial }
        requires few { self.old.part.given < 2 ^ 60 - MOST_HANDLES }
        requires held { HeldFew self.old.part }
        ensures answer { Ok result ≡ (front_taken self.old.part self.old.part.queue).0 }
        ensures part { self.new.part ≡ (front_taken self.old.part self.old.part.queue).1 }
        ensures delivered { IsDelivered self.new.bytes (Ok result) }
        ensures received { KeepsReceived self.old self.new }
        ensures users { self.new.users ≡ self.old.users }
    {
        let number = self.nodes.number(serial);
        let Some((key, entry)) = self.mail.take() else {
            unreachable!()
        };
        let Entry::Message {
            offset,
            with,
            slots,
            payload,
            ..
        } = entry
        else {
            unreachable!()
        };
        receive(
            &mut self.store,
            &mut self.handles,
            &mut self.dead,
            &self.nodes,
            self.me,
            Delivery {
                key,
                number,
                offset,
                with: with.as_slice(),
                slots: slots.as_slice(),
                payload,
            },
        )
    }

    /// Takes the destroy notice of an own node at the front.
    fn take_own(&mut self, serial: u32) -> Receipt
        requires kind { kind_of self.old.part.queue ≡ kinds.Own serial }
        ensures answer { Ok result ≡ (front_taken self.old.part self.old.part.queue).0 }
        ensures part { self.new ≡ record self.old {
          part =
              (front_taken self.old.part self.old.part.queue).1;
        } }
        ensures delivered { IsDelivered self.new.bytes (Ok result) }
    {
        let number = self.nodes.number(serial);
        self.nodes.take_notice(serial);
        Receipt::Destroyed {
            key: take_key(&mut self.mail),
            number,
        }
    }

    /// Takes the destroy notice of another peer's node at the front.
    fn take_foreign(&mut self, node: NodeRef) -> Receipt
        requires kind { kind_of self.old.part.queue ≡ kinds.Foreign node }
        ensures answer { Ok result ≡ (front_taken self.old.part self.old.part.queue).0 }
        ensures part { self.new ≡ record self.old {
          part =
              (front_taken self.old.part self.old.part.queue).1;
        } }
        ensures delivered { IsDelivered self.new.bytes (Ok result) }
    {
        let number = self.handles.number_of(node).unwrap_or(INVALID);
        self.handles.mark_dead(node);
        Receipt::Destroyed {
            key: take_key(&mut self.mail),
            number,
        }
    }

    /// Takes the release notice of an own node at the front.
    fn take_release(&mut self, serial: u32) -> Receipt
        requires kind { kind_of self.old.part.queue ≡ kinds.Release serial }
        ensures answer { Ok result ≡ (front_taken self.old.part self.old.part.queue).0 }
        ensures part { self.new ≡ record self.old {
          part =
              (front_taken self.old.part self.old.part.queue).1;
        } }
        ensures delivered { IsDelivered self.new.bytes (Ok result) }
    {
        let number = self.nodes.number(serial);
        Receipt::Released {
            stamp: take_key(&mut self.mail).stamp,
            number,
        }
    }
}
