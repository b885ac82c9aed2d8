ghost use Rattle.std.specs.Prelude.{◌≡◌, ◌-◌, true, false, Some, MatchResult};
ghost use Rattle.b1_model.specs.declared.answers.Reason.TheVariants as reason;
ghost use Rattle.b1_model.specs.MachinePool.{is_received};
ghost use Rattle.b1_model.specs.MachineReceive.{has_dead as has_dead_item, reaped, reaped_part, limited, released, released_part, slice_released};
ghost use Rattle.b1_inv_peer.specs.PeerOk.{PeerOk};
ghost use Rattle.b1_peer.specs.Seen.{HasPayloads};

use crate::state::PeerState;
use b1_model::{Dead, Limits, Owed, PeerSpec, Reason, Received};
use b1_pool::PoolKind;
use b1_queue::QueueKind;

impl<Q: QueueKind, P: PoolKind> PeerState<Q, P> {
    /// Whether references are to be given up.
    pub fn has_dead(&self) -> bool
        ensures { result ≡ has_dead_item self.now.part }
    {
        !self.dead.is_empty()
    }

    /// Takes the next references that are to be given up, with the clock; `None` where there are none.
    pub fn reap(&mut self) -> Option<Dead>
        ensures answer { result ≡ reaped self.old.part }
        ensures reaped { self.new ≡ record self.old { part = reaped_part self.old.part } }
    {
        let drops = self.dead.reap()?;
        Some(Dead {
            drops,
            clock: self.clock,
        })
    }

    /// Gives up a held handle once, and answers the reference to be dropped. A refusal is that the number is no given one
    /// by its form, or that it isn't held; it leaves all as it was.
    pub fn release(&mut self, number: u64) -> Result<Owed, Reason>
        ensures answer { result ≡ released self.old.part number }
        ensures released { self.new
            ≡ record self.old { part = released_part self.old.part number } }
    {
        if number % 4 != 2 {
            return Err(Reason::Invalid);
        }
        match self.handles.give_up(number) {
            Ok(node) => Ok(Owed {
                node,
                clock: self.clock,
            }),
            Err(_) => Err(Reason::Unknown { number }),
        }
    }

    /// Gives a received slice back. An error is that none begins at the offset, and leaves all as it was.
    pub fn slice_release(&mut self, offset: u64) -> Result<(), Reason>
        ensures answer { MatchResult result (λ _. is_received offset self.old.part.slices
            ≡ true) (λ r. (is_received offset self.old.part.slices ≡ false)
            × (r ≡ reason.Unknown offset)) }
        ensures released { self.new
            ≡ record self.old { part = slice_released self.old.part offset } }
    {
        if self.store.release(offset) {
            Ok(())
        } else {
            Err(Reason::Unknown { number: offset })
        }
    }

    /// Sets new limits, and nothing else. Charges that are above a new limit stay: of a quantity that is, messages are
    /// refused until enough has ended. It takes no memory.
    pub fn limit(&mut self, limits: Limits)
        ensures part { self.new.part ≡ limited self.old.part limits }
        ensures rest { self.new ≡ record self.old { part = self.new.part } }
    {
        self.mail.limit(limits);
    }

    /// The user, the pool's size, and the limits.
    pub fn query(&self) -> PeerSpec
        ensures { result ≡ record {
          user = self.now.part.user;
          pool = self.now.part.pool;
          limits = self.now.part.limits;
        } }
    {
        PeerSpec {
            user: self.mail.home(),
            pool: self.store.size(),
            limits: self.mail.limits(),
        }
    }

    /// What is always so: the peer's part is right by itself, and the slice of every queued message begins with its
    /// payload.
    pub fn facts(&self)
        ensures ok { PeerOk self.now.part }
        ensures payloads { HasPayloads self.now }
    {
        let _me = self.me;
    }

    /// The clock.
    pub fn clock(&self) -> u64
        ensures { result ≡ self.now.part.clock }
    {
        self.clock
    }

    /// How often the queue and the handles were given up.
    pub fn epoch(&self) -> u64
        ensures { result ≡ self.now.part.epoch }
    {
        self.epoch
    }
}
