ghost use Rattle.std.specs.Prelude.{◌≡◌, ◌<◌, ◌+◌, false, length, IfOk, OnOk};
ghost use Rattle.b1_core.specs.Turns.{driver_at};
ghost use Rattle.b1_play.specs.Runs.{AllEnded, IsGood};
ghost use Rattle.b1_play.specs.Draining.{AllClosed, Drained, Empties, TriesNext};

use crate::commands::run_attempt;
use crate::rounds::gained_with;
use b1_core::{Core, Turn};
use b1_law::every_reached_state_is_sound;
use b1_pool::PoolKind;
use b1_queue::QueueKind;
use std::alloc::AllocError;

/// Passes over all peers until one takes nothing and removes nothing. An error is want of memory.
pub fn drain_all<Q: QueueKind, P: PoolKind>(
    core: &mut Core<Q, P>,
    count: u32,
) -> Result<(), AllocError>
    requires good { IsGood core.old }
    requires count { count ≡ length core.old.opening.peers }
    requires ended { AllEnded core.old }
    requires closed { AllClosed core.old }
    ensures { OnOk result (Drained core.old core.new) }
{
    every_reached_state_is_sound();
    loop {
        if !pass(core, count)? {
            return Ok(());
        }
    }
}

/// One pass: each peer that hasn't disconnected receives until its attempt waits. Whether the pass gained. An error is want
/// of memory.
pub fn pass<Q: QueueKind, P: PoolKind>(
    core: &mut Core<Q, P>,
    count: u32,
) -> Result<bool, AllocError>
    requires good { IsGood core.old }
    requires count { count ≡ length core.old.opening.peers }
    requires ended { AllEnded core.old }
    requires closed { AllClosed core.old }
    ensures { IfOk result (λ gained. Empties core.old 0 false core.new count gained) }
{
    every_reached_state_is_sound();
    let mut gained = false;
    for p in 0..count {
        gained = drain_peer(core, p, gained)?;
    }
    Ok(gained)
}

/// Peer p in a pass: nothing where it has disconnected, else it receives until its attempt waits. Whether the pass gained
/// so far. An error is want of memory.
pub fn drain_peer<Q: QueueKind, P: PoolKind>(
    core: &mut Core<Q, P>,
    p: u32,
    before: bool,
) -> Result<bool, AllocError>
    requires good { IsGood core.old }
    requires peer { p < length core.old.opening.peers }
    requires ended { AllEnded core.old }
    requires closed { AllClosed core.old }
    ensures { IfOk result (λ gained. Empties core.old p before core.new (p + 1) gained) }
{
    every_reached_state_is_sound();
    if core.is_shut(p) {
        return Ok(before);
    }
    receive_all(core, p, before)
}

/// Peer p, which hasn't disconnected, receives until its attempt waits. Whether the pass gained so far. An error is want of
/// memory.
pub fn receive_all<Q: QueueKind, P: PoolKind>(
    core: &mut Core<Q, P>,
    p: u32,
    before: bool,
) -> Result<bool, AllocError>
    requires good { IsGood core.old }
    requires peer { p < length core.old.opening.peers }
    requires ended { AllEnded core.old }
    requires closed { AllClosed core.old }
    requires there { (driver_at core.old.state p).shut ≡ false }
    ensures { IfOk result (λ gained. Empties core.old p before core.new (p + 1) gained) }
{
    every_reached_state_is_sound();
    let mut gained = before;
    loop {
        if !receive_next(core, p, &mut gained)? {
            return Ok(gained);
        }
    }
}

/// One attempt of peer p in the drain, and whether another one follows. An error is want of memory.
pub fn receive_next<Q: QueueKind, P: PoolKind>(
    core: &mut Core<Q, P>,
    p: u32,
    gained: &mut bool,
) -> Result<bool, AllocError>
    requires good { IsGood core.old }
    requires peer { p < length core.old.opening.peers }
    requires ended { AllEnded core.old }
    requires closed { AllClosed core.old }
    requires there { (driver_at core.old.state p).shut ≡ false }
    ensures { IfOk result (λ more. TriesNext core.old p gained.old more core.new gained.new) }
{
    match run_attempt(core, p)? {
        Turn::Ended => {
            *gained = true;
            Ok(true)
        }
        Turn::Waiting { removed, .. } => {
            *gained = gained_with(*gained, removed);
            Ok(false)
        }
        _ => unreachable!(),
    }
}
