ghost use Rattle.std.specs.Prelude.{◌≡◌, ◌≢◌, ◌⊎◌, ◌<◌, ◌+◌, true, false, if◌then◌else◌, [], ◌∷◌, ◌++◌, length, IfOk, OnOk};
ghost use Rattle.b1_schedule.specs.Schedule.{gains, waiting_peers as waiting_in};
ghost use Rattle.b1_play.specs.Runs.{IsGood};
ghost use Rattle.b1_play.specs.Rounds.{no_gain, Ends, Passes, RunsNext, Settles};

use crate::commands::run_command;
use b1_core::{Core, Turn};
use b1_law::every_reached_state_is_sound;
use b1_pool::PoolKind;
use b1_queue::QueueKind;
use std::alloc::{AllocError, Global};

/// What a round gained so far, and whether a command ended in it with a call.
#[derive(Clone, Copy, Debug, PartialEq, Eq)]
pub struct Gain {
    /// A command ended, or an attempt that waits had removed an entry.
    pub gained: bool,
    /// A command ended with a call.
    pub called: bool,
}

/// The end of rounds: what the last one gained, and the peers whose commands aren't at their end.
#[derive(Debug, Drop)]
pub struct RoundEnd {
    /// What the last round gained.
    pub gain: Gain,
    /// The peers whose commands aren't at their end, rising.
    pub waiting: Vec<u32>,
}

/// Rounds until the commands of all peers have ended, and then no peer; or until a round doesn't gain, and then the peers
/// whose commands aren't at their end. An error is want of memory.
pub fn play_rounds<Q: QueueKind, P: PoolKind>(
    alloc: Global,
    core: &mut Core<Q, P>,
    count: u32,
) -> Result<Vec<u32>, AllocError>
    requires good { IsGood core.old }
    requires count { count ≡ length core.old.opening.peers }
    ensures { IfOk result (λ waiting. Settles core.old core.new waiting.items) }
{
    loop {
        let end = rounds_of_attempts(alloc, core, count)?;
        if are_over(false, end.gain.gained, &end.waiting) {
            return Ok(end.waiting);
        }
    }
}

/// Rounds until one in which a command ends, or that doesn't gain, or after which all commands have ended. An error is want
/// of memory.
pub fn rounds_of_attempts<Q: QueueKind, P: PoolKind>(
    alloc: Global,
    core: &mut Core<Q, P>,
    count: u32,
) -> Result<RoundEnd, AllocError>
    requires good { IsGood core.old }
    requires count { count ≡ length core.old.opening.peers }
    ensures { IfOk result (λ end. Ends core.old core.new end) }
{
    every_reached_state_is_sound();
    loop {
        let gain = round(core, count)?;
        let waiting = waiting_peers(alloc, core, count)?;
        if are_over(gain.called, gain.gained, &waiting) {
            return Ok(RoundEnd { gain, waiting });
        }
    }
}

/// The peers whose commands aren't at their end, rising. An error is want of memory.
pub fn waiting_peers<Q: QueueKind, P: PoolKind>(
    alloc: Global,
    core: &Core<Q, P>,
    count: u32,
) -> Result<Vec<u32>, AllocError>
    requires good { IsGood core.now }
    requires count { count ≡ length core.now.opening.peers }
    ensures { IfOk result (λ waiting. waiting.items ≡ waiting_in core.now.commands core.now.state) }
{
    every_reached_state_is_sound();
    let mut waiting = Vec::new(alloc);
    for p in 0..count {
        push_left(&mut waiting, p, core.at_end(p))?;
    }
    Ok(waiting)
}

/// One round, over all peers. What it gained. An error is want of memory.
pub fn round<Q: QueueKind, P: PoolKind>(
    core: &mut Core<Q, P>,
    count: u32,
) -> Result<Gain, AllocError>
    requires good { IsGood core.old }
    requires count { count ≡ length core.old.opening.peers }
    ensures { IfOk result (λ gain. Passes core.old 0 no_gain core.new count gain) }
{
    let mut gain = Gain {
        gained: false,
        called: false,
    };
    for p in 0..count {
        gain = run_peer(core, p, gain)?;
    }
    Ok(gain)
}

/// The commands of peer p in a round: until they end or an attempt waits. What the round gained so far. An error is want
/// of memory.
pub fn run_peer<Q: QueueKind, P: PoolKind>(
    core: &mut Core<Q, P>,
    p: u32,
    before: Gain,
) -> Result<Gain, AllocError>
    requires good { IsGood core.old }
    requires peer { p < length core.old.opening.peers }
    ensures { IfOk result (λ gain. Passes core.old p before core.new (p + 1) gain) }
{
    let mut gain = before;
    loop {
        if !run_next(core, p, &mut gain)? {
            return Ok(gain);
        }
    }
}

/// One command of peer p in a round, and whether another one follows. An error is want of memory.
pub fn run_next<Q: QueueKind, P: PoolKind>(
    core: &mut Core<Q, P>,
    p: u32,
    gain: &mut Gain,
) -> Result<bool, AllocError>
    requires good { IsGood core.old }
    requires peer { p < length core.old.opening.peers }
    ensures { IfOk result (λ more. RunsNext core.old p gain.old more core.new gain.new) }
{
    every_reached_state_is_sound();
    match run_command(core, p)? {
        Turn::Ended => {
            *gain = Gain {
                gained: true,
                called: true,
            };
            Ok(true)
        }
        Turn::Waiting { removed, .. } => {
            gain.gained = gained_with(gain.gained, removed);
            Ok(false)
        }
        Turn::Idle => Ok(false),
        Turn::Moved => unreachable!(),
    }
}

/// What gained so far, with an attempt that waits and removed so many entries.
pub fn gained_with(gained: bool, removed: u64) -> bool
    ensures { result ≡ gains gained removed }
{
    gained || removed > 0
}

/// Whether rounds are over for now: a command ended, or nothing was gained, or no peer waits.
pub fn are_over(called: bool, gained: bool, waiting: &Vec<u32>) -> bool
    ensures over { result ≡ true → (called ≡ true) ⊎ ((gained ≡ false) ⊎ (waiting.now.items ≡ [])) }
    ensures more { result ≡ false → (called ≡ false) × (gained ≡ true) × (waiting.now.items ≢ []) }
{
    if called {
        return true;
    }
    if !gained {
        return true;
    }
    nobody_waits(waiting)
}

/// Whether no peer waits.
pub fn nobody_waits(waiting: &Vec<u32>) -> bool
    ensures nobody { result ≡ true → waiting.now.items ≡ [] }
    ensures some { result ≡ false → waiting.now.items ≢ [] }
{
    waiting.is_empty()
}

/// Peer p joins the peers that wait, where its commands haven't ended. An error is want of memory.
pub fn push_left(waiting: &mut Vec<u32>, p: u32, ended: bool) -> Result<(), AllocError>
    ensures { OnOk result (waiting.new.items ≡ waiting.old.items
        ++ (if ended then [] else p ∷ [])) }
{
    if ended {
        return Ok(());
    }
    waiting.push(p)?;
    Ok(())
}
