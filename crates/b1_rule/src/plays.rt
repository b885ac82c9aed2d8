ghost use Rattle.b1_model.specs.MachineStep.{idle_driver};
ghost use Rattle.b1_rule.specs.Known.{Holding};
ghost use Rattle.b1_rule.specs.Plays.{first_left, first_given, joined, spent, stored, took};

use crate::view::View;
use atomic_table::{Join, Play, Split};
use b1_peer::PeerState;
use b1_pool::PoolKind;
use b1_queue::QueueKind;
use std::marker::{Brand, PhantomData};

/// A seat gives the first of its drivers' parts to a new seat.
pub struct First;

impl Split<View> for First {
    ghost left = { first_left };

    ghost right = { first_given };
}

/// A seat takes the drivers' parts of another seat over, behind its own.
pub struct Both;

impl Join<View> for Both {
    ghost both = { joined };

    ghost spent = { spent };
}

/// A driver's seat tries to take the lock of a peer, and the peer's state with it.
pub struct Take;

impl<Q: QueueKind, P: PoolKind> Play<PeerState<Q, P>, View> for Take {
    ghost then = { took };
}

/// What a driver's part has become under a lock. Each call picks it.
pub trait Becoming {
    ghost part: { Holding };
}

impl Becoming for Brand {
    ghost part = { record {
      part = idle_driver 0;
      room = 0;
    } };
}

/// A driver's seat gives a lock back, and the peer's state with it: one step of the machine.
pub struct Store<J> {
    of: PhantomData<J>,
}

impl<Q: QueueKind, P: PoolKind, J: Becoming> Play<PeerState<Q, P>, View> for Store<J> {
    ghost then = { stored J.part };
}
