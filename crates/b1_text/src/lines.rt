ghost use Rattle.std.specs.Prelude.{◌≡◌, ◌++◌, IfOk, codes};
ghost use Rattle.std.specs.List.{AllByRecursion};
ghost use Rattle.b1_records.specs.Spelling.{Is32};
ghost use Rattle.b1_text_words.specs.Words.{Reads};
ghost use Rattle.b1_text.specs.Texts.{statement_text};
ghost use Rattle.b1_text.specs.Drafts.{Fits};

use crate::fields::{behind, read_marked, read_peer, read_u32, read_u64, read_wire};
use crate::statement::{Entry, Statement};
use b1_model::{MOST_SCRIPT, Version};
use b1_script::Turns;
use b1_text_words::{Form, Item, is_text, read_command, read_list};
use std::alloc::{AllocError, Global};

/// What a line says, without its line feed; `None` where it is no statement's text. An error is want of memory.
pub fn read_line(alloc: Global, line: &[u8]) -> Result<Option<Statement>, AllocError>
    ensures { IfOk result (λ found. Reads statement_text Fits line.now found) }
{
    if let Some(body) = behind("bus1 script ", line) {
        return Ok(read_version(body));
    }
    if let Some(body) = behind("clock ", line) {
        return Ok(read_clock(body));
    }
    if let Some(body) = behind("peer ", line) {
        return Ok(read_peer_line(body));
    }
    if let Some(body) = behind("wire ", line) {
        return Ok(read_wire_line(body));
    }
    if let Some(body) = behind("commands ", line) {
        return Ok(read_commands(body));
    }
    if let Some(body) = behind("turns ", line) {
        return read_turns(alloc, body);
    }
    if let Some((cookie, command)) = read_marked(alloc, line)? {
        let cookie = Some(cookie);
        return Ok(Some(Statement::Command(Entry { cookie, command })));
    }
    match read_command(alloc, Form::Script, Version::One, line)? {
        Some(command) => Ok(Some(Statement::Command(Entry {
            cookie: None,
            command,
        }))),
        None => Ok(None),
    }
}

/// The version of a text.
fn read_version(body: &[u8]) -> Option<Statement>
    ensures { Reads statement_text Fits (codes "bus1 script " ++ body.now) result }
{
    if is_text("1", body) {
        return Some(Statement::Name {
            version: Version::One,
        });
    }
    if is_text("2", body) {
        return Some(Statement::Name {
            version: Version::Two,
        });
    }
    None
}

fn read_clock(body: &[u8]) -> Option<Statement>
    ensures { Reads statement_text Fits (codes "clock " ++ body.now) result }
{
    match read_u64(body) {
        Some(clock) => Some(Statement::Clock { clock }),
        None => None,
    }
}

fn read_peer_line(body: &[u8]) -> Option<Statement>
    ensures { Reads statement_text Fits (codes "peer " ++ body.now) result }
{
    match read_peer(body) {
        Some(peer) => Some(Statement::Peer(peer)),
        None => None,
    }
}

fn read_wire_line(body: &[u8]) -> Option<Statement>
    ensures { Reads statement_text Fits (codes "wire " ++ body.now) result }
{
    match read_wire(body) {
        Some(wire) => Some(Statement::Wire(wire)),
        None => None,
    }
}

fn read_commands(body: &[u8]) -> Option<Statement>
    ensures { Reads statement_text Fits (codes "commands " ++ body.now) result }
{
    match read_u32(body) {
        Some(peer) => Some(Statement::Commands { peer }),
        None => None,
    }
}

fn read_turns(alloc: Global, body: &[u8]) -> Result<Option<Statement>, AllocError>
    ensures { IfOk result (λ found. Reads statement_text Fits (codes "turns " ++ body.now) found) }
{
    let item = Item::UpTo(u32::MAX as u64);
    match read_list(alloc, item, MOST_SCRIPT as u64, body)? {
        Some(numbers) => {
            let turns = narrowed(alloc, numbers.as_slice())?;
            Ok(Some(Statement::Turns(Turns::from_vec(turns))))
        }
        None => Ok(None),
    }
}

/// The numbers, each of which has 32 bits.
fn narrowed(alloc: Global, numbers: &[u64]) -> Result<Vec<u32>, AllocError>
    requires { AllByRecursion Is32 numbers.now }
    ensures { IfOk result (λ items. items.items ≡ numbers.now) }
{
    let mut items = Vec::new(alloc);
    for number in numbers {
        items.push(*number as u32)?;
    }
    Ok(items)
}
