ghost use Rattle.std.specs.Prelude.{◌≤◌, ◌*◌, ◌==◌, ◌++◌, ◌↔◌, ◌&&◌, not, ℕ, IsTrue, IfOk, codes};
ghost use Rattle.std.specs.List.{list_all};
ghost use Rattle.b1_records.specs.Spelling.{AreLimits, most_numbers, most_bytes, rounded};
ghost use Rattle.b1_text_words.specs.declared.items.Form.TheVariants.{Script};
ghost use Rattle.b1_text_words.specs.Commands.{command_text_in, limits_text};
ghost use Rattle.b1_text_words.specs.Words.{Spells, Begins};
ghost use Rattle.b1_text.specs.Texts.{entry_text};
ghost use Rattle.b1_text.specs.Bodies.{marked_body};
ghost use Rattle.b1_text.specs.Drafts.{IsCarried, has_room, is_of, record_len};
ghost use Rattle.b1_text.specs.Nexts.{Passes, HasRoom, HasRoomBeside, HasMarkedRoom, HasRoomAs, is_plain, is_reference, is_reset, is_send, IsPayload, IsCargo, IsLoad, data_text, cargo_text, with_text, load_text};

use crate::begin_parts::{begins_one, begins_several};
use crate::draft::COOKIE_LEN;
use crate::fields::{behind, read_cookie};
use b1_model::{MOST_BYTES, MOST_NUMBERS, Version};
use b1_script::most_len;
use b1_text_words::{
    Form, Item, Kind, begins_bytes, begins_line, begins_list, begins_text, read_list, split,
};
use std::alloc::{AllocError, Global};

/// How many bytes the least command's record has, without a cookie.
const LEAST_RECORD: usize = 8;

/// Whether the line of a command for whose record there is room begins with these bytes, in a text of this version and of so
/// many peers. An error is want of memory.
pub fn begins_next_command(
    alloc: Global,
    version: Version,
    peers: usize,
    len: usize,
    line: &[u8],
) -> Result<bool, AllocError>
    ensures { IfOk result (λ can. IsTrue can
        ↔ Begins (Spells entry_text (Passes IsCarried (λ e. is_of version e.cookie
        && has_room peers len (record_len e)))) line.now) }
{
    let most = most_len(peers);
    if len > most {
        return Ok(false);
    }
    match version {
        Version::One => begins_command(alloc, most - len, line),
        Version::Two => begins_marked(alloc, most - len, line),
    }
}

/// Whether the line of a command and its cookie, whose record has so many bytes at most, begins with these bytes.
fn begins_marked(alloc: Global, room: usize, line: &[u8]) -> Result<bool, AllocError>
    ensures { IfOk result (λ can. IsTrue can
        ↔ Begins (Spells marked_body (HasMarkedRoom room)) line.now) }
{
    if room < LEAST_RECORD + COOKIE_LEN {
        return Ok(false);
    }
    let Some((first, rest)) = split(line, b' ') else {
        return Ok(begins_one("#", Item::UpTo(u64::MAX), line));
    };
    match read_cookie(first) {
        Some(_) => begins_beside(alloc, room - COOKIE_LEN, rest),
        None => Ok(false),
    }
}

/// Whether the line of a command that a record with a cookie can carry begins with these bytes, where the record has so
/// many bytes at most beside the cookie.
fn begins_beside(alloc: Global, room: usize, line: &[u8]) -> Result<bool, AllocError>
    ensures { IfOk result (λ can. IsTrue can
        ↔ Begins (Spells (command_text_in Script) (HasRoomBeside room)) line.now) }
{
    if room >= 24 && begins_limits("limit", line) {
        return Ok(true);
    }
    begins_command(alloc, room, line)
}

/// Whether the line of a command that a record without a cookie can carry begins with these bytes, where the record has so
/// many bytes at most.
fn begins_command(alloc: Global, room: usize, line: &[u8]) -> Result<bool, AllocError>
    ensures { IfOk result (λ can. IsTrue can
        ↔ Begins (Spells (command_text_in Script) (HasRoom room)) line.now) }
{
    if begins_plain(room, line) || begins_reference(room, line) || begins_reset(room, line) {
        return Ok(true);
    }
    begins_send(alloc, room, line)
}

/// The same of a command of one word.
fn begins_plain(room: usize, line: &[u8]) -> bool
    ensures { IsTrue result ↔ Begins
        (Spells (command_text_in Script) (HasRoomAs is_plain room)) line.now }
{
    if room < LEAST_RECORD {
        return false;
    }
    if begins_text("disconnect", line) || begins_text("query", line) || begins_text("recv", line) {
        return true;
    }
    begins_text("await", line)
}

/// The same of a command of handles or a slice alone.
fn begins_reference(room: usize, line: &[u8]) -> bool
    ensures { IsTrue result ↔ Begins
        (Spells (command_text_in Script) (HasRoomAs is_reference room)) line.now }
{
    if room < 16 {
        return false;
    }
    let handle = Item::Handle(Form::Script);
    if begins_one("release ", handle, line)
        || begins_one("slice ", Item::Offset(Form::Script), line)
    {
        return true;
    }
    begins_several("destroy ", handle, most_handles(room - 16), line)
}

/// The same of a PEER_RESET.
fn begins_reset(room: usize, line: &[u8]) -> bool
    ensures { IsTrue result ↔ Begins
        (Spells (command_text_in Script) (HasRoomAs is_reset room)) line.now }
{
    room >= 24 && begins_limits("reset", line)
}

/// Whether a line of this word and of limits begins with these bytes.
fn begins_limits(word: &str, line: &[u8]) -> bool
    requires { IsTrue (list_all (λ b. not (b == 32)) word.now) }
    ensures { IsTrue result ↔ Begins (Spells (λ l. word.now ++ codes " "
        ++ limits_text l) AreLimits) line.now }
{
    let limit = Kind::One(Item::UpTo(u32::MAX as u64));
    begins_line(b' ', &[Kind::Fixed(word), limit, limit, limit], line)
}

/// How many handles there are in so many bytes, at most.
fn most_handles(room: usize) -> u64
    ensures { (n : ℕ) → n ≤ result ↔ ((n ≤ most_numbers) × (8 * n ≤ room)) }
{
    let fit = room / 8;
    if fit < MOST_NUMBERS as usize {
        return fit as u64;
    }
    u64::from(MOST_NUMBERS)
}

/// The same of a SEND.
fn begins_send(alloc: Global, room: usize, line: &[u8]) -> Result<bool, AllocError>
    ensures { IfOk result (λ can. IsTrue can
        ↔ Begins (Spells (command_text_in Script) (HasRoomAs is_send room)) line.now) }
{
    if room < 24 {
        return Ok(false);
    }
    if begins_flag(alloc, "send 0 to ", room - 24, line)? {
        return Ok(true);
    }
    begins_flag(alloc, "send 1 to ", room - 24, line)
}

/// Whether a SEND of this flag begins with these bytes, where so many bytes are left for its lists and its payload.
fn begins_flag(alloc: Global, word: &str, room: usize, line: &[u8]) -> Result<bool, AllocError>
    ensures { IfOk result (λ can. IsTrue can
        ↔ Begins (Spells (λ x. word.now ++ load_text x) (IsLoad room)) line.now) }
{
    match behind(word, line) {
        Some(rest) => begins_load(alloc, room, rest),
        None => Ok(begins_text(word, line)),
    }
}

fn begins_load(alloc: Global, room: usize, line: &[u8]) -> Result<bool, AllocError>
    ensures { IfOk result (λ can. IsTrue can ↔ Begins (Spells load_text (IsLoad room)) line.now) }
{
    let Some((first, rest)) = split(line, b' ') else {
        return Ok(begins_list(Item::Handle(Form::Script), most_handles(room), line));
    };
    match read_list(alloc, Item::Handle(Form::Script), most_handles(room), first)? {
        Some(to) => begins_with(alloc, room - 8 * to.len(), rest),
        None => Ok(false),
    }
}

fn begins_with(alloc: Global, room: usize, line: &[u8]) -> Result<bool, AllocError>
    ensures { IfOk result (λ can. IsTrue can ↔ Begins (Spells with_text (IsCargo room)) line.now) }
{
    match behind("with ", line) {
        Some(rest) => begins_cargo(alloc, room, rest),
        None => Ok(begins_text("with ", line)),
    }
}

fn begins_cargo(alloc: Global, room: usize, line: &[u8]) -> Result<bool, AllocError>
    ensures { IfOk result (λ can. IsTrue can ↔ Begins (Spells cargo_text (IsCargo room)) line.now) }
{
    let Some((first, rest)) = split(line, b' ') else {
        return Ok(begins_list(Item::Handle(Form::Script), most_handles(room), line));
    };
    match read_list(alloc, Item::Handle(Form::Script), most_handles(room), first)? {
        Some(with) => Ok(begins_data(room - 8 * with.len(), rest)),
        None => Ok(false),
    }
}

fn begins_data(room: usize, line: &[u8]) -> bool
    ensures { IsTrue result ↔ Begins (Spells data_text (IsPayload room)) line.now }
{
    match behind("data ", line) {
        Some(rest) => begins_bytes(most_bytes(room), rest),
        None => begins_text("data ", line),
    }
}

/// How many bytes of a payload there are in so many bytes with their padding, at most.
fn most_bytes(room: usize) -> u64
    ensures { (n : ℕ) → n ≤ result ↔ ((n ≤ most_bytes) × (rounded n ≤ room)) }
{
    let fit = room / 8 * 8;
    if fit < MOST_BYTES as usize {
        return fit as u64;
    }
    u64::from(MOST_BYTES)
}
