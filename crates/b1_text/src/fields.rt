ghost use Rattle.std.specs.Prelude.{◌≡◌, ◌≢◌, ◌++◌, ℕ, List, IfOk, MatchOption};
ghost use Rattle.std.specs.Fmt.{decimal};
ghost use Rattle.b1_records.specs.Spelling.{Is32, Is64, AreLimits};
ghost use Rattle.b1_script.specs.Spelling.{IsSpec};
ghost use Rattle.b1_text_words.specs.Numbers.{script_handle_text};
ghost use Rattle.b1_text_words.specs.Words.{Reads};
ghost use Rattle.b1_text.specs.Bodies.{two_text, AreTwo, limits_body, pool_body, IsPoolWithLimits, peer_body, end_body, IsEnd, wire_body, cookie_word, marked_body, IsMarked};
ghost use Rattle.b1_text.specs.Drafts.{HasWireFields};

use b1_model::{Command, Limits, PeerSpec, Version, Wire};
use b1_text_words::{Form, Item, read_command, read_item, split};
use std::alloc::{AllocError, Global};

/// What stands in a line behind these bytes; `None` where it doesn't begin with them.
pub fn behind<'a>(word: &str, line: &'a [u8]) -> Option<&'a [u8]>
    ensures { MatchOption result ((rest : List ℕ)
        → line.now ≢ word.now ++ rest) (λ rest. line.now ≡ word.now ++ rest.now) }
{
    line.strip_prefix(word.as_bytes())
}

/// A decimal number of 32 bits.
pub fn read_u32(word: &[u8]) -> Option<u32>
    ensures { Reads decimal Is32 word.now result }
{
    let number = read_item(Item::UpTo(u32::MAX as u64), word)?;
    Some(number as u32)
}

/// A decimal number of 64 bits.
pub fn read_u64(word: &[u8]) -> Option<u64>
    ensures { Reads decimal Is64 word.now result }
{
    read_item(Item::UpTo(u64::MAX), word)
}

/// A handle.
pub fn read_handle(word: &[u8]) -> Option<u64>
    ensures { Reads script_handle_text Is64 word.now result }
{
    read_item(Item::Handle(Form::Script), word)
}

fn read_two(line: &[u8]) -> Option<(u32, u32)>
    ensures { Reads two_text AreTwo line.now result }
{
    let (first, rest) = split(line, b' ')?;
    let one = read_u32(first)?;
    let two = read_u32(rest)?;
    Some((one, two))
}

fn read_limits(line: &[u8]) -> Option<Limits>
    ensures { Reads limits_body AreLimits line.now result }
{
    let (first, rest) = split(line, b' ')?;
    let entries = read_u32(first)?;
    let (bytes, handles) = read_two(rest)?;
    Some(Limits {
        entries,
        bytes,
        handles,
    })
}

fn read_pool(line: &[u8]) -> Option<(u32, Limits)>
    ensures { Reads pool_body IsPoolWithLimits line.now result }
{
    let (first, rest) = split(line, b' ')?;
    let pool = read_u32(first)?;
    let limits = read_limits(rest)?;
    Some((pool, limits))
}

/// A peer, behind its first word.
pub fn read_peer(line: &[u8]) -> Option<PeerSpec>
    ensures { Reads peer_body IsSpec line.now result }
{
    let (first, rest) = split(line, b' ')?;
    let user = read_u32(first)?;
    let (pool, limits) = read_pool(rest)?;
    Some(PeerSpec { user, pool, limits })
}

fn read_end(line: &[u8]) -> Option<(u64, u32)>
    ensures { Reads end_body IsEnd line.now result }
{
    let (first, rest) = split(line, b' ')?;
    let number = read_handle(first)?;
    let to = read_u32(rest)?;
    Some((number, to))
}

/// A wire, behind its first word.
pub fn read_wire(line: &[u8]) -> Option<Wire>
    ensures { Reads wire_body HasWireFields line.now result }
{
    let (first, rest) = split(line, b' ')?;
    let from = read_u32(first)?;
    let (number, to) = read_end(rest)?;
    Some(Wire { from, to, number })
}

/// A cookie.
pub fn read_cookie(word: &[u8]) -> Option<u64>
    ensures { Reads cookie_word Is64 word.now result }
{
    read_u64(behind("#", word)?)
}

/// A command behind its cookie. An error is want of memory.
pub fn read_marked(alloc: Global, line: &[u8]) -> Result<Option<(u64, Command)>, AllocError>
    ensures { IfOk result (λ found. Reads marked_body IsMarked line.now found) }
{
    let Some((first, rest)) = split(line, b' ') else {
        return Ok(None);
    };
    let Some(cookie) = read_cookie(first) else {
        return Ok(None);
    };
    match read_command(alloc, Form::Script, Version::Two, rest)? {
        Some(command) => Ok(Some((cookie, command))),
        None => Ok(None),
    }
}
