ghost use Rattle.std.specs.Prelude.{◌≡◌, true, Option as Maybe};
ghost use Rattle.b1_model.specs.declared.events.Action.TheVariants as act;
ghost use Rattle.b1_model.specs.declared.commands.Command.{Command};
ghost use Rattle.b1_model.specs.MachineDriver.{next_action, peer_of};
ghost use Rattle.b1_rule.specs.Known.{Holding};
ghost use Rattle.b1_rule.specs.Plays.{resting};
ghost use Rattle.b1_rule.specs.Rule.{holding};
ghost use Rattle.b1_locks.specs.Locks.{HasBegun, HasLock, HasMoved, HasStepped, IsBeginRefused, MayStep, MayWork};

use crate::bus::{Bus, Place};
use crate::driver::Hand;
use crate::short::do_one;
use b1_driver::DriverState;
use b1_edge::{Gate, Point};
use b1_event::reached_states_bear_events;
use b1_model::Action;
use b1_pool::PoolKind;
use b1_queue::QueueKind;
use std::marker::Brand;
use std::sync::Wait;

/// One event of a driver whose command is open: it takes the lock of the peer where the event is, works on the peer's
/// state, and gives the lock back. Where `short`, a SEND that begins is refused for want of memory if nothing else
/// refuses it.
pub fn event<Q: QueueKind, P: PoolKind, R: Wait, G: Gate>(
    rt: &R,
    bus: &Bus<Q, P>,
    gate: &G,
    hand: &mut Hand<Q, P>,
    short: bool,
)
    requires table { hand.old.seat.table_id ≡ bus.now.table }
    requires begun { MayStep bus.now.opening hand.old.seat.me hand.old.state }
    ensures table { hand.new.seat.table_id ≡ hand.old.seat.table_id }
    ensures rests { hand.new.seat.me ≡ resting bus.now.opening (holding hand.new.state) }
    ensures moved { (before : Holding) (command : Maybe Command)
        → hand.old.seat.me ≡ resting bus.now.opening before
        → HasBegun bus.now.opening before command hand.old.state
        → HasMoved bus.now.opening before command hand.old.state hand.new.state }
    ensures short { short ≡ true → next_action hand.old.state.part ≡ act.Begin
        → IsBeginRefused hand.old.state.part hand.new.state.part }
{
    reached_states_bear_events();
    bus.shape();
    let me = hand.state.number();
    let at = place_of(me, hand.state.next());
    bus.lock(rt, &mut hand.seat, at as usize);
    gate.at(Point::Under {
        driver: me,
        peer: at,
    });
    bus.work(&mut hand.seat, &mut hand.state, at as usize, short);
    bus.unlock::<Brand>(&mut hand.seat, at as usize, &hand.state);
    gate.at(Point::Between {
        driver: me,
        event: hand.events,
    });
    hand.events = hand.events.saturating_add(1);
}

impl<Q: QueueKind, P: PoolKind> Bus<Q, P> {
    // The work of an event, on the state of the peer whose lock the seat has.
    fn work(&self, seat: &mut Place<Q, P>, driver: &mut DriverState, at: usize, short: bool)
        requires table { seat.old.table_id ≡ self.now.table }
        requires lock { MayWork self.now.opening seat.old.me at driver.old }
        ensures table { seat.new.table_id ≡ seat.old.table_id }
        ensures view { seat.new.me.0 ≡ seat.old.me.0 }
        ensures stepped { HasStepped seat.new.me at (holding driver.new) }
        ensures moved { (before : Holding) (command : Maybe Command)
            → HasLock self.now.opening before command seat.old.me at driver.old
            → HasMoved self.now.opening before command driver.old driver.new }
        ensures short { short ≡ true → next_action driver.old.part ≡ act.Begin
            → IsBeginRefused driver.old.part driver.new.part }
    {
        reached_states_bear_events();
        let peer = seat.slot_mut(&self.table.shared, at);
        peer.facts();
        do_one(&self.opening, driver, peer, short);
    }
}

// The peer that an event of driver p is at.
fn place_of(p: u32, action: Action) -> u32
    ensures { result ≡ peer_of p action }
{
    match action {
        Action::Stage { peer, .. }
        | Action::Unstage { peer, .. }
        | Action::Attach { peer, .. }
        | Action::Sync { peer, .. }
        | Action::Commit { peer, .. }
        | Action::CommitNotices { peer, .. }
        | Action::DropRefs { peer, .. }
        | Action::Visit { peer } => peer,
        _ => p,
    }
}
