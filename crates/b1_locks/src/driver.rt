ghost use Rattle.std.specs.Prelude.{◌≡◌, ◌+◌, ◌<◌, length, max, OnOk, OnErr};
ghost use Rattle.b1_event.specs.Borne.{call_limit};
ghost use Rattle.b1_receipts.specs.Places.{data_places};
ghost use Rattle.b1_rule.specs.Rule.{holding};
ghost use Rattle.b1_rule.specs.Plays.{resting};
ghost use Rattle.b1_locks.specs.Faces.{IsIdle, StandsIn};

use crate::bus::Place;
use b1_driver::DriverState;
use b1_model::{Call, Front};
use b1_pool::PoolKind;
use b1_queue::QueueKind;
use std::alloc::AllocError;
use std::marker::Model;

/// What a driver works with: its seat, its state, and how many events it has done.
#[derive(Drop)]
pub(crate) struct Hand<Q: QueueKind, P: PoolKind> {
    pub(crate) seat: Place<Q, P>,
    pub(crate) state: DriverState,
    pub(crate) events: u32,
}

/// The driver of one peer of a bus on threads. Between two of its commands it holds no lock.
///
/// Contracts see the table that it steps on, how its bus was opened, and what it has of its own: its part of the state,
/// and beside it `spare`, how many more calls fit in its list. The calls and `spare` together are below 2^25.
#[derive(Drop)]
pub struct Driver<Q: QueueKind, P: PoolKind> {
    pub(crate) hand: Hand<Q, P>,
}

impl<Q: QueueKind, P: PoolKind> Model for Driver<Q, P> {
    ghost use Rattle.std.specs.Prelude.{◌≡◌, ◌<◌, length};
    ghost use Rattle.b1_rule.specs.Rule.{holding};
    ghost use Rattle.b1_rule.specs.Plays.{resting};
    ghost use Rattle.b1_locks.specs.Faces.{DriverFace, IsIdle, StandsIn};

    ghost Value = { DriverFace };

    ghost view = { λ d. record {
      table = d.hand.seat.table_id;
      opening = d.hand.seat.me.0.opening;
      own = d.hand.state;
    } };

    ghost invariant = { λ d. record {
      rests : d.hand.seat.me ≡ resting d.hand.seat.me.0.opening (holding d.hand.state);
      idle : IsIdle d.hand.state;
      stands : StandsIn d.hand.seat.me.0.opening d.hand.state.part;
      known : d.hand.state.part.me < length d.hand.seat.me.0.opening.peers;
      words : d.hand.seat.table_id.words ≡ length d.hand.seat.me.0.opening.peers;
    } };
}

impl<Q: QueueKind, P: PoolKind> Driver<Q, P> {
    /// A driver that has no command open, with the seat that has its part.
    pub fn new(seat: Place<Q, P>, state: DriverState) -> Driver<Q, P>
        requires rests { seat.me ≡ resting seat.me.0.opening (holding state) }
        requires idle { IsIdle state }
        requires stands { StandsIn seat.me.0.opening state.part }
        requires known { state.part.me < length seat.me.0.opening.peers }
        requires words { seat.table_id.words ≡ length seat.me.0.opening.peers }
        ensures { result ≡ record {
          table = seat.table_id;
          opening = seat.me.0.opening;
          own = state;
        } }
    {
        Driver {
            hand: Hand {
                seat,
                state,
                events: 0,
            },
        }
    }

    /// The seat of a driver, which has its part, and what else is its own.
    pub fn into_parts(self) -> (Place<Q, P>, DriverState)
        ensures seat { result.0.me ≡ resting self.opening (holding self.own) }
        ensures table { result.0.table_id ≡ self.table }
        ensures state { result.1 ≡ self.own }
        ensures idle { IsIdle self.own }
        ensures stands { StandsIn self.opening self.own.part }
        ensures known { self.own.part.me < length self.opening.peers }
    {
        let Driver { hand } = self;
        let Hand { seat, state, .. } = hand;
        (seat, state)
    }

    /// Makes room for at least `n` calls that fit with no memory. An error is want of memory, and leaves all as it was.
    pub fn reserve(&mut self, n: usize) -> Result<(), AllocError>
        requires few { length self.old.own.part.calls + n < call_limit }
        ensures ok { OnOk result (self.new ≡ record self.old {
          own = record self.old.own {
            spare = max self.old.own.spare n;
          };
        }) }
        ensures few { length self.new.own.part.calls + self.new.own.spare < call_limit }
        ensures err { OnErr result (self.new ≡ self.old) }
    {
        self.hand.state.reserve(n)
    }

    /// How many more calls fit with no memory.
    pub fn spare(&self) -> usize
        ensures { result ≡ self.now.own.spare }
    {
        self.hand.state.spare()
    }

    /// The calls that this driver has done, in their order.
    pub fn calls(&self) -> &[Call]
        ensures { result.now ≡ self.now.own.part.calls }
    {
        self.hand.state.calls()
    }

    /// Where the data receipts stand among the calls that this driver has done, in their order.
    pub fn data_places(&self) -> &[usize]
        ensures { result.now ≡ data_places self.now.own.part.calls }
    {
        self.hand.state.data_places()
    }

    /// Whether the peer has disconnected.
    pub fn is_shut(&self) -> bool
        ensures { result ≡ self.now.own.part.shut }
    {
        self.hand.state.is_shut()
    }

    /// The front that the last attempt which had to wait found, and how many entries it removed; `None` where there was
    /// no such attempt.
    pub fn attempted(&self) -> Option<(Front, u64)>
        ensures { result ≡ self.now.own.part.attempted }
    {
        self.hand.state.attempted()
    }
}
