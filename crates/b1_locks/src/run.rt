ghost use Rattle.std.specs.Prelude.{◌≡◌, ◌+◌, ◌≤◌, ℕ, None, false, length};
ghost use Rattle.b1_model.specs.declared.commands.Command.TheVariants as command;
ghost use Rattle.b1_rule.specs.Plays.{resting};
ghost use Rattle.b1_rule.specs.Rule.{holding};
ghost use Rattle.b1_commands.specs.Done.{Comes, GoesOn};
ghost use Rattle.b1_locks.specs.Faces.{IsIdle, StandsIn};
ghost use Rattle.b1_locks.specs.Locks.{IsFit, IsSendRefused};

use crate::bus::Bus;
use crate::driver::Hand;
use crate::event::event;
use b1_edge::Gate;
use b1_law::every_reached_state_is_sound;
use b1_model::{Command, SendCmd};
use b1_pool::PoolKind;
use b1_queue::QueueKind;
use std::sync::Wait;

/// Does a command whole: each of its events under the lock of the peer where it is.
pub fn run<Q: QueueKind, P: PoolKind, R: Wait, G: Gate>(
    rt: &R,
    bus: &Bus<Q, P>,
    gate: &G,
    command: Command,
    hand: &mut Hand<Q, P>,
)
    requires table { hand.old.seat.table_id ≡ bus.now.table }
    requires rests { hand.old.seat.me ≡ resting bus.now.opening (holding hand.old.state) }
    requires idle { IsIdle hand.old.state }
    requires stands { StandsIn bus.now.opening hand.old.state.part }
    requires spare { 1 ≤ hand.old.state.spare }
    ensures table { hand.new.seat.table_id ≡ hand.old.seat.table_id }
    ensures rests { hand.new.seat.me ≡ resting bus.now.opening (holding hand.new.state) }
    ensures idle { IsIdle hand.new.state }
    ensures stands { StandsIn bus.now.opening hand.new.state.part }
    ensures steps { Comes bus.now.opening hand.old.state.part command hand.new.state.part }
    ensures spare { hand.new.state.spare + length hand.new.state.part.calls
        ≡ hand.old.state.spare + length hand.old.state.part.calls }
{
    hand.state.begin(command);
    event(rt, bus, gate, hand, false);
    go_on(rt, bus, gate, hand);
}

/// Begins a SEND where there is no memory for its answer: it is refused at once, for want of memory if nothing else
/// refuses it.
pub fn run_short<Q: QueueKind, P: PoolKind, R: Wait, G: Gate>(
    rt: &R,
    bus: &Bus<Q, P>,
    gate: &G,
    send: SendCmd,
    hand: &mut Hand<Q, P>,
)
    requires table { hand.old.seat.table_id ≡ bus.now.table }
    requires rests { hand.old.seat.me ≡ resting bus.now.opening (holding hand.old.state) }
    requires idle { IsIdle hand.old.state }
    requires stands { StandsIn bus.now.opening hand.old.state.part }
    requires spare { 1 ≤ hand.old.state.spare }
    ensures table { hand.new.seat.table_id ≡ hand.old.seat.table_id }
    ensures rests { hand.new.seat.me ≡ resting bus.now.opening (holding hand.new.state) }
    ensures idle { IsIdle hand.new.state }
    ensures stands { StandsIn bus.now.opening hand.new.state.part }
    ensures steps { Comes bus.now.opening hand.old.state.part (command.Send send)
        hand.new.state.part }
    ensures spare { hand.new.state.spare + length hand.new.state.part.calls
        ≡ hand.old.state.spare + length hand.old.state.part.calls }
    ensures refused { hand.old.state.part.shut ≡ false
        → IsSendRefused hand.old.state.part send hand.new.state.part }
{
    every_reached_state_is_sound();
    hand.state.begin(Command::Send(send));
    event(rt, bus, gate, hand, true);
    go_on(rt, bus, gate, hand);
}

// Does the events of an open command until it is over.
fn go_on<Q: QueueKind, P: PoolKind, R: Wait, G: Gate>(
    rt: &R,
    bus: &Bus<Q, P>,
    gate: &G,
    hand: &mut Hand<Q, P>,
)
    requires table { hand.old.seat.table_id ≡ bus.now.table }
    requires rests { hand.old.seat.me ≡ resting bus.now.opening (holding hand.old.state) }
    requires fit { IsFit hand.old.state }
    requires stands { StandsIn bus.now.opening hand.old.state.part }
    ensures table { hand.new.seat.table_id ≡ hand.old.seat.table_id }
    ensures rests { hand.new.seat.me ≡ resting bus.now.opening (holding hand.new.state) }
    ensures fit { IsFit hand.new.state }
    ensures closed { hand.new.state.part.doing ≡ None }
    ensures stands { StandsIn bus.now.opening hand.new.state.part }
    ensures goes { (n : ℕ) × GoesOn bus.now.opening n hand.old.state.part hand.new.state.part }
    ensures spare { hand.new.state.spare + length hand.new.state.part.calls
        ≡ hand.old.state.spare + length hand.old.state.part.calls }
{
    for _ in rt.forever() {
        if hand.state.command().is_none() {
            return;
        }
        event(rt, bus, gate, hand, false);
    }
    unreachable!()
}
