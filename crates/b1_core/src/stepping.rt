ghost use Rattle.std.specs.Prelude.{◌≡◌, ◌≢◌, ◌+◌, ◌<◌, ◌≤◌, None, Some, false, not, length, is_none, option_copied, slice_get, IfOk, OnOk, OnErr};
ghost use Rattle.b1_model.specs.Opening.{IsOpening};
ghost use Rattle.b1_model.specs.MachineStep.{Reached, begun};
ghost use Rattle.b1_model.specs.MachineDriver.{peer_of};
ghost use Rattle.b1_model.specs.Script.{commands_of};
ghost use Rattle.b1_model.specs.MachineOrder.{next_command as command_of_part};
ghost use Rattle.b1_core.specs.Turns.{drained, IsWanted, StandsBehind};
ghost use Rattle.b1_core.specs.Bus.{state_of, AreStocked, Begins, IsStep};
ghost use Rattle.b1_event.specs.Borne.{call_limit};

use crate::turn::Turn;
use b1_driver::DriverState;
use b1_event::{do_event, reached_states_bear_events};
use b1_model::{Action, Command, CommandLists, Opening};
use b1_peer::PeerState;
use b1_pool::PoolKind;
use b1_queue::QueueKind;
use b1_script::resolve_after;
use std::alloc::{AllocError, Global};

/// A driver's list has fewer calls than this, with those that there is room for. A script of at most 2^24 bytes doesn't come
/// near it.
const CALL_LIMIT: usize = 1 << 25;

/// Whether the next turn of driver p does something, and which command begins with it: where none is open, the next one
/// of its list, if one is left, with its references resolved. An error is want of memory.
pub fn wanted(
    alloc: Global,
    commands: &CommandLists,
    p: u32,
    driver: &DriverState,
) -> Result<Option<Option<Command>>, AllocError>
    ensures wanted { IfOk result (λ r. IsWanted commands.now p driver.now.part r) }
    ensures closed { OnErr result (driver.now.part.doing ≡ None) }
{
    if driver.command().is_some() {
        return Ok(Some(None));
    }
    match command_at(commands, p, driver.calls().len()) {
        Some(command) => {
            let places = driver.data_places();
            Ok(Some(Some(resolve_after(alloc, command, driver.calls(), places)?)))
        }
        None => Ok(None),
    }
}

/// A command of peer p's list, by its place.
pub fn command_at(commands: &CommandLists, p: u32, place: usize) -> Option<&Command>
    ensures { option_copied result ≡ slice_get (commands_of commands.now p) place }
{
    match commands.get(p as usize) {
        Some(list) => list.get(place),
        None => None,
    }
}

/// Whether a driver's command is open.
pub fn is_open(driver: &DriverState) -> bool
    ensures { result ≡ not (is_none driver.now.part.doing) }
{
    match driver.command() {
        Some(_) => true,
        None => false,
    }
}

/// Whether the commands of driver p are all ended.
pub fn has_ended(commands: &CommandLists, p: u32, driver: &DriverState) -> bool
    ensures { result ≡ is_none (command_of_part commands.now p driver.now.part) }
{
    match command_at(commands, p, driver.calls().len()) {
        Some(_) => false,
        None => true,
    }
}

/// The command that begins with the next turn of the drain: an attempt to receive, where none is open.
pub fn drain_command(driver: &DriverState) -> Option<Command>
    ensures { result ≡ drained driver.now.part }
{
    match driver.command() {
        Some(_) => None,
        None => Some(Command::Await),
    }
}

/// One turn of driver p, with the command that begins, if one does. An error is want of memory for the call, and changes
/// nothing.
pub fn turn<Q: QueueKind, P: PoolKind>(
    opening: &Opening,
    p: u32,
    command: Option<Command>,
    peers: &mut Vec<PeerState<Q, P>>,
    drivers: &mut Vec<DriverState>,
) -> Result<Turn, AllocError>
    requires opening { IsOpening opening.now }
    requires reached { Reached opening.now (state_of peers.old.items drivers.old.items) }
    requires stocked { AreStocked opening.now peers.old.items drivers.old.items }
    requires peer { p < length opening.now.peers }
    requires begins { Begins command (state_of peers.old.items drivers.old.items) p }
    ensures step { IfOk result (λ turn.
        IsStep opening.now (state_of peers.old.items drivers.old.items) p command turn
        (state_of peers.new.items drivers.new.items)) }
    ensures stocked { AreStocked opening.now peers.new.items drivers.new.items }
    ensures peers { OnErr result (peers.new.items ≡ peers.old.items) }
    ensures drivers { OnErr result (drivers.new.items ≡ drivers.old.items) }
    ensures closed { OnErr result (is_none command ≡ false) }
{
    reached_states_bear_events();
    let driver = &mut drivers[p as usize];
    begin(driver, command)?;
    let calls = driver.calls().len();
    let at = place_of(p, driver.next());
    let peer = &mut peers[at as usize];
    peer.facts();
    do_event(opening, driver, peer);
    Ok(turn_after(calls, driver))
}

// A command begins, if one does. An error is want of memory for its call, or too many calls, and changes nothing.
fn begin(driver: &mut DriverState, command: Option<Command>) -> Result<(), AllocError>
    requires begins { is_none command ≡ not (is_none driver.old.part.doing) }
    requires few { length driver.old.part.calls + driver.old.spare < call_limit }
    ensures begun { OnOk result (begun driver.old.part command ≡ Some driver.new.part) }
    ensures err { OnErr result (driver.new ≡ driver.old) }
    ensures closed { OnErr result (is_none command ≡ false) }
    ensures few { length driver.new.part.calls + driver.new.spare < call_limit }
    ensures doomed { driver.new.doomed ≡ driver.old.doomed }
    ensures here { driver.new.here ≡ driver.old.here }
{
    let Some(command) = command else {
        return Ok(());
    };
    if driver.calls().len() + 1 >= CALL_LIMIT {
        return Err(AllocError);
    }
    make_room(driver)?;
    driver.begin(command);
    Ok(())
}

// Makes room for one call more at least, for as many as there are where there is the memory. An error is want of memory,
// and changes nothing.
fn make_room(driver: &mut DriverState) -> Result<(), AllocError>
    requires few { length driver.old.part.calls + 1 < call_limit }
    requires fits { length driver.old.part.calls + driver.old.spare < call_limit }
    ensures room { OnOk result (1 ≤ driver.new.spare) }
    ensures same { driver.new ≡ record driver.old { spare = driver.new.spare } }
    ensures err { OnErr result (driver.new ≡ driver.old) }
    ensures few { length driver.new.part.calls + driver.new.spare < call_limit }
{
    let count = driver.calls().len();
    let more = count.max(1).min(CALL_LIMIT - 1 - count);
    if driver.spare() == 0 && driver.reserve(more).is_err() {
        return driver.reserve(1);
    }
    Ok(())
}

// The peer that an event of driver p is at.
fn place_of(p: u32, action: Action) -> u32
    ensures { result ≡ peer_of p action }
{
    match action {
        Action::Stage { peer, .. }
        | Action::Unstage { peer, .. }
        | Action::Attach { peer, .. }
        | Action::Sync { peer, .. }
        | Action::Commit { peer, .. }
        | Action::CommitNotices { peer, .. }
        | Action::DropRefs { peer, .. }
        | Action::Visit { peer } => peer,
        _ => p,
    }
}

// Where a driver stands after an event that began behind so many calls.
fn turn_after(calls: usize, driver: &DriverState) -> Turn
    requires { driver.now.part.doing ≡ None → length driver.now.part.calls ≡ calls
        → driver.now.part.attempted ≢ None }
    ensures { StandsBehind calls result driver.now.part }
{
    if driver.command().is_some() {
        return Turn::Moved;
    }
    if driver.calls().len() != calls {
        return Turn::Ended;
    }
    match driver.attempted() {
        Some((front, removed)) => Turn::Waiting { front, removed },
        None => unreachable!(),
    }
}
