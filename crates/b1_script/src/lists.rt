ghost use Rattle.std.specs.Prelude.{◌≡◌, length, zip, map, IfOk};
ghost use Rattle.b1_records.specs.Reading.{Gives, many};
ghost use Rattle.b1_script.specs.Reading.{command_list_at, commands_at, entry_list_at, entries_at, lists_at, turns_at, pad_at};
ghost use Rattle.b1_script.specs.Spelling.{entries_of};

use crate::script::Turns;
use crate::wires::peer_number;
use b1_errs::NotRead;
use b1_model::{CommandLists, Commands, CookieLists, Nums, Version};
use b1_records::fields::{number, zero};
use b1_records::{decode_within, decode2_within};
use std::alloc::Global;

/// So many commands, and their end. Room is taken as they are read.
fn command_list(
    alloc: Global,
    bytes: &[u8],
    at: usize,
    count: u32,
    limit: usize,
) -> Result<(Commands, usize), NotRead>
    ensures { Gives (λ x. x) result (command_list_at limit bytes.now count at) }
{
    let mut items = Vec::new(alloc);
    let mut place = at;
    for _ in 0..count {
        let (item, end) = decode_within(alloc, bytes, place, limit)?;
        items.push(item)?;
        place = end;
    }
    Ok((Commands::from_vec(items), place))
}

/// One peer's commands, and their end.
#[tactic(auto, unfolding(crate::specs::Reading::commands_at))]
fn commands(
    alloc: Global,
    bytes: &[u8],
    at: usize,
    limit: usize,
) -> Result<(Commands, usize), NotRead>
    ensures { Gives (λ x. x) result (commands_at limit bytes.now at) }
{
    let (count, at) = number(bytes, at, limit)?;
    let at = zero(bytes, at, limit)?;
    command_list(alloc, bytes, at, count, limit)
}

/// The commands of so many peers without cookies, and their end.
fn plain_lists(
    alloc: Global,
    bytes: &[u8],
    at: usize,
    peers: u32,
    limit: usize,
) -> Result<(CommandLists, usize), NotRead>
    ensures { Gives (λ x. x) result (many (commands_at limit bytes.now) peers at) }
{
    let mut items = Vec::new(alloc);
    let mut place = at;
    for _ in 0..peers {
        let (item, end) = commands(alloc, bytes, place, limit)?;
        items.push(item)?;
        place = end;
    }
    Ok((CommandLists::from_vec(items), place))
}

/// So many cookies and as many commands, and their end. Room is taken as they are read.
fn entry_list(
    alloc: Global,
    bytes: &[u8],
    at: usize,
    count: u32,
    limit: usize,
) -> Result<(Nums, Commands, usize), NotRead>
    ensures gives { Gives (λ x. (zip x.0 x.1, x.2)) result
        (entry_list_at limit bytes.now count at) }
    ensures same { IfOk result (λ x. length x.0 ≡ length x.1) }
{
    let mut cookies = Vec::new(alloc);
    let mut items = Vec::new(alloc);
    let mut place = at;
    for _ in 0..count {
        let (cookie, item, end) = decode2_within(alloc, bytes, place, limit)?;
        cookies.push(cookie)?;
        items.push(item)?;
        place = end;
    }
    Ok((Nums::from_vec(cookies), Commands::from_vec(items), place))
}

/// The cookies and the commands of one peer, and their end.
#[tactic(auto, unfolding(crate::specs::Reading::entries_at))]
fn entries(
    alloc: Global,
    bytes: &[u8],
    at: usize,
    limit: usize,
) -> Result<(Nums, Commands, usize), NotRead>
    ensures gives { Gives (λ x. (zip x.0 x.1, x.2)) result (entries_at limit bytes.now at) }
    ensures same { IfOk result (λ x. length x.0 ≡ length x.1) }
{
    let (count, at) = number(bytes, at, limit)?;
    let at = zero(bytes, at, limit)?;
    entry_list(alloc, bytes, at, count, limit)
}

/// The cookies and the commands of so many peers, and their end.
fn entry_lists(
    alloc: Global,
    bytes: &[u8],
    at: usize,
    peers: u32,
    limit: usize,
) -> Result<(CookieLists, CommandLists, usize), NotRead>
    ensures gives { Gives (λ x. (entries_of x.0 x.1, x.2)) result
        (many (entries_at limit bytes.now) peers at) }
    ensures same { IfOk result (λ x. map length x.0 ≡ map length x.1) }
{
    let mut cookies = Vec::new(alloc);
    let mut items = Vec::new(alloc);
    let mut place = at;
    for _ in 0..peers {
        let (own, item, end) = entries(alloc, bytes, place, limit)?;
        cookies.push(own)?;
        items.push(item)?;
        place = end;
    }
    Ok((
        CookieLists::from_vec(cookies),
        CommandLists::from_vec(items),
        place,
    ))
}

/// The commands of so many peers, with their cookies where the version has them, and their end.
#[tactic(auto, unfolding(crate::specs::Reading::lists_at))]
pub fn read_lists(
    alloc: Global,
    bytes: &[u8],
    at: usize,
    version: Version,
    peers: u32,
    limit: usize,
) -> Result<(Option<CookieLists>, CommandLists, usize), NotRead>
    ensures { Gives (λ x. ((x.0, x.1), x.2)) result (lists_at limit bytes.now version peers at) }
{
    match version {
        Version::One => {
            let (commands, end) = plain_lists(alloc, bytes, at, peers, limit)?;
            Ok((None, commands, end))
        }
        Version::Two => {
            let (cookies, commands, end) = entry_lists(alloc, bytes, at, peers, limit)?;
            Ok((Some(cookies), commands, end))
        }
    }
}

/// So many turns, and their end. Room is taken as they are read.
pub fn read_turns(
    alloc: Global,
    bytes: &[u8],
    at: usize,
    peers: u32,
    count: u32,
    limit: usize,
) -> Result<(Turns, usize), NotRead>
    ensures { Gives (λ x. x) result (turns_at limit bytes.now peers count at) }
{
    let mut items = Vec::new(alloc);
    let mut place = at;
    for _ in 0..count {
        let (item, end) = peer_number(bytes, place, peers, limit)?;
        items.push(item)?;
        place = end;
    }
    Ok((Turns::from_vec(items), place))
}

/// The end of the reserved field behind an odd number of turns.
#[tactic(auto, unfolding(crate::specs::Reading::pad_at))]
pub fn pad_end(bytes: &[u8], at: usize, turns: u32, limit: usize) -> Result<usize, NotRead>
    ensures { Gives (λ end. (0, end)) result (pad_at limit bytes.now turns at) }
{
    if turns % 2 == 1 {
        zero(bytes, at, limit)
    } else {
        Ok(at)
    }
}
