ghost use Rattle.std.specs.Prelude.{◌≡◌, ◌+◌, ◌*◌, ◌++◌, ◌<◌, ◌≤◌, ◌^◌, ◌≢◌, map, length, vec_len, IfOk, OnOk};
ghost use Rattle.std.specs.List.{flat_map, range_with_len};
ghost use Rattle.b1_gen.specs.Generated.{below, peer_count, matches, partners, handle_at, payload_of, taking, taken_before, phase_commands, commands_of};

use crate::numbers::PHASES;
use b1_model::{Bytes, Command, CommandLists, Commands, Nums, SendCmd};
use std::alloc::{AllocError, Global};

/// How many peers the script of a number has: 4 to 8.
pub fn peer_count_of(number: u32) -> u32
    ensures count { result ≡ peer_count number }
    ensures few { result ≤ 8 }
{
    4 + number % 5
}

/// Whether two peers send to each other in a phase.
fn do_match(number: u32, phase: u32, peer: u32, other: u32) -> bool
    ensures { result ≡ matches number phase peer other }
{
    other != peer
        && !(u64::from(number)
            + u64::from(peer)
            + u64::from(phase)
            + u64::from(other)).is_multiple_of(3)
}

/// The handle of another peer's node.
fn handle_of(peer: u32, other: u32) -> u64
    requires { other ≢ peer }
    ensures { result ≡ handle_at peer other }
{
    if other < peer {
        4 * u64::from(other) + 2
    } else {
        4 * (u64::from(other) - 1) + 2
    }
}

/// The handles of the nodes of all peers that match this one in a phase.
#[tactic(auto, using(crate::proofs::Rising::rising))]
fn destinations(alloc: Global, number: u32, phase: u32, peer: u32) -> Result<Vec<u64>, AllocError>
    ensures handles { IfOk result (λ to. to.items ≡ map (handle_at peer) (partners number phase peer)) }
    ensures few { IfOk result (λ to. vec_len to ≤ 8) }
{
    let mut to = Vec::new(alloc);
    for other in 0..peer_count_of(number) {
        if do_match(number, phase, peer, other) {
            to.push(handle_of(peer, other))?;
        }
    }
    Ok(to)
}

/// The bytes that a peer sends in a phase.
fn payload(alloc: Global, phase: u32, peer: u32) -> Result<Bytes, AllocError>
    requires { peer + phase < 2 ^ 32 }
    ensures { IfOk result (λ bytes. bytes ≡ payload_of peer phase) }
{
    let byte = ((peer + phase) % 256) as u8;
    let len = 8 * (1 + phase as usize % 8);
    Ok(Bytes::from_vec(vec![in alloc; byte; len]?))
}

/// Appends the commands that take so many receipts and give their slices back, `first` receipts being taken before.
#[tactic(auto, using(crate::proofs::Rising::rising))]
fn push_takings(commands: &mut Vec<Command>, first: u64, count: u64) -> Result<(), AllocError>
    requires { first + count < 2 ^ 32 }
    ensures { OnOk result (commands.new.items
        ≡ commands.old.items ++ flat_map taking (range_with_len first count)) }
{
    for receipt in first..first + count {
        commands.push(Command::Await)?;
        commands.push(Command::SliceRelease {
            offset: 2 * receipt + 1,
        })?;
    }
    Ok(())
}

/// Appends what a peer does in a phase, before which it took so many receipts, and answers how many it takes there.
fn push_phase(
    commands: &mut Vec<Command>,
    number: u32,
    peer: u32,
    phase: u32,
    taken: u64,
) -> Result<u64, AllocError>
    requires phase { phase < PHASES }
    requires peer { peer < 8 }
    requires taken { taken ≡ taken_before number peer phase }
    requires few { taken ≤ 8 * phase }
    ensures commands { OnOk result (commands.new.items
        ≡ commands.old.items ++ phase_commands number peer phase) }
    ensures count { IfOk result (λ count. count ≡ length (partners number phase peer)) }
    ensures few { IfOk result (λ count. count ≤ 8) }
{
    let alloc = *commands.allocator();
    let to = destinations(alloc, number, phase, peer)?;
    let count = to.len() as u64;
    commands.push(Command::Send(SendCmd {
        go_on: false,
        to: Nums::from_vec(to),
        with: Nums::new(alloc),
        payload: payload(alloc, phase, peer)?,
    }))?;
    push_takings(commands, taken, count)?;
    Ok(count)
}

/// What a peer does in all phases.
fn commands(alloc: Global, number: u32, peer: u32) -> Result<Commands, AllocError>
    requires { peer < 8 }
    ensures { IfOk result (λ commands. commands ≡ commands_of number peer) }
{
    let mut commands = Vec::new(alloc);
    let mut taken = 0;
    for phase in 0..PHASES {
        taken += push_phase(&mut commands, number, peer, phase, taken)?;
    }
    Ok(Commands::from_vec(commands))
}

/// What each peer of a number's script does. An error is want of memory.
#[tactic(auto, using(crate::proofs::Rising::rising))]
pub fn command_lists(alloc: Global, number: u32) -> Result<CommandLists, AllocError>
    ensures { IfOk result (λ lists. lists ≡ map (commands_of number) (below (peer_count number))) }
{
    let mut lists = Vec::new(alloc);
    for peer in 0..peer_count_of(number) {
        let list = commands(alloc, number, peer)?;
        lists.push(list)?;
    }
    Ok(CommandLists::from_vec(lists))
}
