ghost use Rattle.std.specs.Prelude.{◌≡◌, ◌<◌, false, length, IfOk};
ghost use Rattle.b1_core.specs.Turns.{driver_at};
ghost use Rattle.b1_play.specs.Runs.{AllEnded, IsClosed, IsGood, RanAttempt, RanCommand};

use b1_core::{Core, Turn};
use b1_law::every_reached_state_is_sound;
use b1_pool::PoolKind;
use b1_progress::a_command_ends;
use b1_queue::QueueKind;
use std::alloc::AllocError;

/// Turns of peer p in a round until no command of it is open: its open command goes on to its end, or its next one runs
/// whole. What the last turn did; idle where no command was open and none was left. An error is want of memory.
pub fn run_command<Q: QueueKind, P: PoolKind>(
    core: &mut Core<Q, P>,
    p: u32,
) -> Result<Turn, AllocError>
    requires good { IsGood core.old }
    requires peer { p < length core.old.opening.peers }
    ensures { IfOk result (λ turn. RanCommand core.old p turn core.new) }
{
    every_reached_state_is_sound();
    a_command_ends();
    let mut turn = core.step(p)?;
    while let Turn::Moved = turn {
        turn = core.step(p)?;
    }
    Ok(turn)
}

/// Turns of peer p in the drain until its attempt to receive has ended. What the last turn did. An error is want of memory.
pub fn run_attempt<Q: QueueKind, P: PoolKind>(
    core: &mut Core<Q, P>,
    p: u32,
) -> Result<Turn, AllocError>
    requires good { IsGood core.old }
    requires peer { p < length core.old.opening.peers }
    requires ended { AllEnded core.old }
    requires closed { IsClosed core.old p }
    requires there { (driver_at core.old.state p).shut ≡ false }
    ensures { IfOk result (λ turn. RanAttempt core.old p turn core.new) }
{
    every_reached_state_is_sound();
    a_command_ends();
    let mut turn = core.drain_step(p)?;
    while let Turn::Moved = turn {
        turn = core.drain_step(p)?;
    }
    Ok(turn)
}
