ghost use Rattle.std.specs.Prelude.{◌≡◌, ◌≤◌, ◌++◌, length, map, zip, OnOk, IfOk};
ghost use Rattle.std.specs.List.{flat_map, AllByRecursion};
ghost use Rattle.b1_wire.specs.Numbers.{u32_bytes};
ghost use Rattle.b1_model.specs.Versions.{version_of};
ghost use Rattle.b1_records.specs.Spelling.{IsWithin, IsWithin2};
ghost use Rattle.b1_records.specs.Spelling as records;
ghost use Rattle.b1_script.specs.Spelling.{peer_spelling, wire_spelling, commands_spelling, entry_spelling, entries_spelling, entries_of, lists_spelling, pad_spelling, parts, name_spelling, start_spelling, sizes_spelling, header_spelling, spelling, HasSpelling};

use crate::header::{MAGIC, number_of_version};
use crate::script::Script;
use b1_model::{Command, Commands, MOST_SCRIPT, Nums, PeerSpec, Version, Wire};
use b1_records::{encode, encode2};
use b1_wire::{put_u32, put_u64};
use std::alloc::{AllocError, Global};

/// How many bytes stand before the first peer.
const HEADER_LEN: u32 = 40;

fn put_peer(out: &mut Vec<u8>, peer: &PeerSpec) -> Result<(), AllocError>
    ensures { OnOk result (out.new.items ≡ out.old.items ++ peer_spelling peer.now) }
{
    put_u32(out, peer.user)?;
    put_u32(out, peer.pool)?;
    put_u32(out, peer.limits.entries)?;
    put_u32(out, peer.limits.bytes)?;
    put_u32(out, peer.limits.handles)?;
    put_u32(out, 0)
}

fn put_peers(out: &mut Vec<u8>, peers: &[PeerSpec]) -> Result<(), AllocError>
    ensures { OnOk result (out.new.items ≡ out.old.items ++ flat_map peer_spelling peers.now) }
{
    for peer in peers {
        put_peer(out, peer)?;
    }
    Ok(())
}

fn put_wire(out: &mut Vec<u8>, wire: &Wire) -> Result<(), AllocError>
    ensures { OnOk result (out.new.items ≡ out.old.items ++ wire_spelling wire.now) }
{
    put_u32(out, wire.from)?;
    put_u32(out, wire.to)?;
    put_u64(out, wire.number)
}

fn put_wires(out: &mut Vec<u8>, wires: &[Wire]) -> Result<(), AllocError>
    ensures { OnOk result (out.new.items ≡ out.old.items ++ flat_map wire_spelling wires.now) }
{
    for wire in wires {
        put_wire(out, wire)?;
    }
    Ok(())
}

fn put_records(out: &mut Vec<u8>, commands: &[Command]) -> Result<(), AllocError>
    requires { AllByRecursion IsWithin commands.now }
    ensures { OnOk result (out.new.items ≡ out.old.items
        ++ flat_map records.spelling commands.now) }
{
    for command in commands {
        encode(command, out)?;
    }
    Ok(())
}

fn put_commands(out: &mut Vec<u8>, commands: &[Command]) -> Result<(), AllocError>
    requires within { AllByRecursion IsWithin commands.now }
    requires few { length commands.now ≤ MOST_SCRIPT }
    ensures { OnOk result (out.new.items ≡ out.old.items ++ commands_spelling commands.now) }
{
    put_u32(out, commands.len() as u32)?;
    put_u32(out, 0)?;
    put_records(out, commands)
}

fn put_plain_lists(out: &mut Vec<u8>, lists: &[Commands]) -> Result<(), AllocError>
    requires within { AllByRecursion (AllByRecursion IsWithin) lists.now }
    requires few { AllByRecursion (λ commands. length commands ≤ MOST_SCRIPT) lists.now }
    ensures { OnOk result (out.new.items ≡ out.old.items ++ flat_map commands_spelling lists.now) }
{
    for commands in lists {
        put_commands(out, commands.as_slice())?;
    }
    Ok(())
}

fn put_entry_records(
    out: &mut Vec<u8>,
    cookies: &[u64],
    commands: &[Command],
) -> Result<(), AllocError>
    requires within { AllByRecursion IsWithin2 commands.now }
    requires same { length cookies.now ≡ length commands.now }
    ensures { OnOk result (out.new.items ≡ out.old.items
        ++ flat_map entry_spelling (zip cookies.now commands.now)) }
{
    for (place, command) in commands.iter().enumerate() {
        encode2(cookies[place], command, out)?;
    }
    Ok(())
}

fn put_entries(out: &mut Vec<u8>, cookies: &[u64], commands: &[Command]) -> Result<(), AllocError>
    requires within { AllByRecursion IsWithin2 commands.now }
    requires same { length cookies.now ≡ length commands.now }
    requires few { length commands.now ≤ MOST_SCRIPT }
    ensures { OnOk result (out.new.items ≡ out.old.items
        ++ entries_spelling (zip cookies.now commands.now)) }
{
    put_u32(out, commands.len() as u32)?;
    put_u32(out, 0)?;
    put_entry_records(out, cookies, commands)
}

#[tactic(auto, using(crate::proofs::Entries::same_at, crate::proofs::Entries::lists_match))]
fn put_entry_lists(
    out: &mut Vec<u8>,
    cookies: &[Nums],
    lists: &[Commands],
) -> Result<(), AllocError>
    requires within { AllByRecursion (AllByRecursion IsWithin2) lists.now }
    requires same { map length cookies.now ≡ map length lists.now }
    requires few { AllByRecursion (λ commands. length commands ≤ MOST_SCRIPT) lists.now }
    ensures { OnOk result (out.new.items ≡ out.old.items
        ++ flat_map entries_spelling (entries_of cookies.now lists.now)) }
{
    for (place, commands) in lists.iter().enumerate() {
        put_entries(out, cookies[place].as_slice(), commands.as_slice())?;
    }
    Ok(())
}

fn put_lists(out: &mut Vec<u8>, script: &Script) -> Result<(), AllocError>
    requires { HasSpelling script.now }
    ensures { OnOk result (out.new.items ≡ out.old.items
        ++ lists_spelling script.now.cookies script.now.commands) }
{
    let lists = script.commands.as_slice();
    match &script.cookies {
        None => put_plain_lists(out, lists),
        Some(cookies) => put_entry_lists(out, cookies.as_slice(), lists),
    }
}

fn put_turns(out: &mut Vec<u8>, turns: &[u32]) -> Result<(), AllocError>
    ensures { OnOk result (out.new.items ≡ out.old.items ++ flat_map u32_bytes turns.now) }
{
    for turn in turns {
        put_u32(out, *turn)?;
    }
    Ok(())
}

fn put_pad(out: &mut Vec<u8>, turns: usize) -> Result<(), AllocError>
    ensures { OnOk result (out.new.items ≡ out.old.items ++ pad_spelling turns) }
{
    if turns % 2 == 1 {
        put_u32(out, 0)?;
    }
    Ok(())
}

/// What stands behind the header.
fn put_parts(out: &mut Vec<u8>, script: &Script) -> Result<(), AllocError>
    requires { HasSpelling script.now }
    ensures { OnOk result (out.new.items ≡ out.old.items ++ parts script.now) }
{
    put_peers(out, script.opening.peers.as_slice())?;
    put_wires(out, script.opening.wires.as_slice())?;
    put_lists(out, script)?;
    put_turns(out, script.turns.as_slice())?;
    put_pad(out, script.turns.len())
}

/// The format's name and version.
fn put_name(out: &mut Vec<u8>, version: Version) -> Result<(), AllocError>
    ensures { OnOk result (out.new.items ≡ out.old.items ++ name_spelling version) }
{
    put_u64(out, MAGIC)?;
    put_u32(out, number_of_version(version))
}

/// The format, how many peers there are, and the first clock.
fn put_start(out: &mut Vec<u8>, script: &Script) -> Result<(), AllocError>
    requires { HasSpelling script.now }
    ensures { OnOk result (out.new.items ≡ out.old.items ++ start_spelling script.now) }
{
    put_name(out, script.version())?;
    put_u32(out, script.opening.peers.len() as u32)?;
    put_u64(out, script.opening.first_clock)
}

/// How many wires and turns there are, and how many bytes in all, of which `len` stand behind the header.
fn put_sizes(out: &mut Vec<u8>, script: &Script, len: usize) -> Result<(), AllocError>
    requires has_spelling { HasSpelling script.now }
    requires len { len ≡ length (parts script.now) }
    ensures { OnOk result (out.new.items ≡ out.old.items ++ sizes_spelling script.now) }
{
    put_u32(out, script.opening.wires.len() as u32)?;
    put_u32(out, script.turns.len() as u32)?;
    put_u32(out, HEADER_LEN + len as u32)?;
    put_u32(out, 0)
}

/// The header of a script whose parts have `len` bytes.
fn put_header(out: &mut Vec<u8>, script: &Script, len: usize) -> Result<(), AllocError>
    requires has_spelling { HasSpelling script.now }
    requires len { len ≡ length (parts script.now) }
    ensures { OnOk result (out.new.items ≡ out.old.items ++ header_spelling script.now) }
{
    put_start(out, script)?;
    put_sizes(out, script, len)
}

/// The bytes of a script: of version 2 where it has cookies, and of version 1 where it has none. An error is want of
/// memory.
pub fn write(alloc: Global, script: &Script) -> Result<Vec<u8>, AllocError>
    requires { HasSpelling script.now }
    ensures { IfOk result (λ out. out.items ≡ spelling script.now) }
{
    let mut parts = Vec::new(alloc);
    put_parts(&mut parts, script)?;
    let mut out = Vec::new(alloc);
    put_header(&mut out, script, parts.len())?;
    out.extend_from_slice(&parts)?;
    Ok(out)
}
