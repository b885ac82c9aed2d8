ghost use Rattle.std.specs.Prelude.{◌≡◌, ◌++◌, ◌↔◌, codes, IsTrue, IfOk, MatchOption};
ghost use Rattle.b1_model.specs.declared.version.Version.TheVariants.{Two};
ghost use Rattle.b1_text_words.specs.Commands.{command_text_in, limits_text, flag_of, IsCommand, AreLimits, most_numbers as spec_numbers, most_bytes as spec_bytes};
ghost use Rattle.b1_text_words.specs.Verbs.{IsNotBehind, IsNoFlag, IsNoSend, AreSendWords, IsAloneIn, IsAwaitIn, IsNumberedIn, IsReleaseIn, IsSliceIn, IsResetIn, IsDestroyIn, IsSendIn};
ghost use Rattle.b1_text_words.specs.Words.{Spells, Reads, Begins};

use crate::bytes::read_bytes;
use crate::items::{Form, Item, read_item};
use crate::keys::{read_pair, read_small};
use crate::kinds::{Kind, begins_line};
use crate::lists::read_list;
use crate::splitting::{begins_text, is_text, split};
use b1_model::{Command, Limits, MOST_BYTES, MOST_NUMBERS, SendCmd, Version};
use std::alloc::{AllocError, Global};

/// The command that a line spells; `None` where it spells none of this form and version. An error is want of memory.
pub fn read_command(
    alloc: Global,
    form: Form,
    version: Version,
    line: &[u8],
) -> Result<Option<Command>, AllocError>
    ensures { IfOk result (λ r. Reads (command_text_in form) (IsCommand form version) line.now r) }
{
    match (version, read_either(alloc, form, line)?) {
        (Version::One, Some(Command::Limit { .. })) => Ok(None),
        (_, command) => Ok(command),
    }
}

/// The command that a line spells in either version: the second has all commands.
fn read_either(alloc: Global, form: Form, line: &[u8]) -> Result<Option<Command>, AllocError>
    ensures { IfOk result (λ r. Reads (command_text_in form) (IsCommand form Two) line.now r) }
{
    if let Some(rest) = behind("send ", line) {
        return read_send(alloc, form, rest);
    }
    if let Some(rest) = behind("destroy ", line) {
        return read_destroy(alloc, form, rest);
    }
    if let Some(rest) = behind("release ", line) {
        return Ok(read_release(form, rest));
    }
    if let Some(rest) = behind("slice ", line) {
        return Ok(read_slice(form, rest));
    }
    if let Some(rest) = behind("reset ", line) {
        return Ok(read_reset(form, rest));
    }
    if let Some(rest) = behind("limit ", line) {
        return Ok(read_limit(form, rest));
    }
    Ok(read_alone(form, line))
}

/// What stands behind this text.
pub(crate) fn behind<'a>(text: &str, line: &'a [u8]) -> Option<&'a [u8]>
    ensures { MatchOption result (IsNotBehind text.now line.now) (λ rest. line.now ≡ text.now
        ++ rest.now) }
{
    line.strip_prefix(text.as_bytes())
}

/// A command of one word.
fn read_alone(form: Form, word: &[u8]) -> Option<Command>
    ensures { Reads (command_text_in form) (IsAloneIn form) word.now result }
{
    if is_text("recv", word) {
        return Some(Command::Recv);
    }
    if is_text("query", word) {
        return Some(Command::Query);
    }
    if is_text("disconnect", word) {
        return Some(Command::Disconnect);
    }
    read_await(form, word)
}

/// An AWAIT stands in scripts alone.
fn read_await(form: Form, word: &[u8]) -> Option<Command>
    ensures { Reads (command_text_in form) (IsAwaitIn form) word.now result }
{
    match form {
        Form::Script if is_text("await", word) => Some(Command::Await),
        _ => None,
    }
}

fn read_release(form: Form, rest: &[u8]) -> Option<Command>
    ensures { Reads (command_text_in form) (IsCommand form Two) (codes "release " ++ rest.now) result }
{
    match read_item(Item::Handle(form), rest) {
        Some(number) => Some(Command::Release { number }),
        None => None,
    }
}

fn read_slice(form: Form, rest: &[u8]) -> Option<Command>
    ensures { Reads (command_text_in form) (IsCommand form Two) (codes "slice " ++ rest.now) result }
{
    match read_item(Item::Offset(form), rest) {
        Some(offset) => Some(Command::SliceRelease { offset }),
        None => None,
    }
}

fn read_reset(form: Form, rest: &[u8]) -> Option<Command>
    ensures { Reads (command_text_in form) (IsCommand form Two) (codes "reset " ++ rest.now) result }
{
    match read_limits(rest) {
        Some(limits) => Some(Command::Reset { limits }),
        None => None,
    }
}

fn read_limit(form: Form, rest: &[u8]) -> Option<Command>
    ensures { Reads (command_text_in form) (IsCommand form Two) (codes "limit " ++ rest.now) result }
{
    match read_limits(rest) {
        Some(limits) => Some(Command::Limit { limits }),
        None => None,
    }
}

fn read_limits(line: &[u8]) -> Option<Limits>
    ensures { Reads limits_text AreLimits line.now result }
{
    let Some((entries, rest)) = split(line, b' ') else {
        return None;
    };
    let Some(entries) = read_small(entries) else {
        return None;
    };
    match read_pair(b' ', rest) {
        Some((bytes, handles)) => Some(Limits {
            entries,
            bytes,
            handles,
        }),
        None => None,
    }
}

fn read_destroy(alloc: Global, form: Form, rest: &[u8]) -> Result<Option<Command>, AllocError>
    ensures { IfOk result (λ r. Reads (command_text_in form) (IsCommand form Two) (codes "destroy "
        ++ rest.now) r) }
{
    match read_list(alloc, Item::Handle(form), most_numbers(form), rest)? {
        Some(numbers) => Ok(Some(Command::Destroy { numbers })),
        None => Ok(None),
    }
}

fn read_send(alloc: Global, form: Form, rest: &[u8]) -> Result<Option<Command>, AllocError>
    ensures { IfOk result (λ r. Reads (command_text_in form) (IsCommand form Two) (codes "send "
        ++ rest.now) r) }
{
    let Some((go_on, rest)) = send_flag(rest) else {
        return Ok(None);
    };
    let Some((to, with, payload)) = send_words(rest) else {
        return Ok(None);
    };
    let item = Item::Handle(form);
    let Some(to) = read_list(alloc, item, most_numbers(form), to)? else {
        return Ok(None);
    };
    let Some(with) = read_list(alloc, item, most_numbers(form), with)? else {
        return Ok(None);
    };
    match read_bytes(alloc, most_bytes(form), payload)? {
        Some(payload) => Ok(Some(Command::Send(SendCmd {
            go_on,
            to,
            with,
            payload,
        }))),
        None => Ok(None),
    }
}

/// The flag of a SEND, and what stands behind `to`.
fn send_flag(line: &[u8]) -> Option<(bool, &[u8])>
    ensures { MatchOption result (IsNoFlag line.now) (λ x. line.now ≡ flag_of x.0 ++ x.1.now) }
{
    if let Some(rest) = behind("1 to ", line) {
        return Some((true, rest));
    }
    match behind("0 to ", line) {
        Some(rest) => Some((false, rest)),
        None => None,
    }
}

/// The destinations, the carried handles and the bytes of a SEND, each as a word.
fn send_words(line: &[u8]) -> Option<(&[u8], &[u8], &[u8])>
    ensures { MatchOption result (IsNoSend line.now) (λ x.
        AreSendWords x.0.now x.1.now x.2.now line.now) }
{
    let Some((to, rest)) = split(line, b' ') else {
        return None;
    };
    let Some(rest) = behind("with ", rest) else {
        return None;
    };
    let Some((with, rest)) = split(rest, b' ') else {
        return None;
    };
    match behind("data ", rest) {
        Some(payload) => Some((to, with, payload)),
        None => None,
    }
}

fn most_numbers(form: Form) -> u64
    ensures { result ≡ spec_numbers form }
{
    match form {
        Form::Script => u64::from(MOST_NUMBERS),
        Form::Report => u64::MAX,
    }
}

fn most_bytes(form: Form) -> u64
    ensures { result ≡ spec_bytes form }
{
    match form {
        Form::Script => u64::from(MOST_BYTES),
        Form::Report => u64::MAX,
    }
}

/// Whether a command's line of this form and version begins with these bytes.
pub fn begins_command(form: Form, version: Version, line: &[u8]) -> bool
    ensures { IsTrue result
        ↔ Begins (Spells (command_text_in form) (IsCommand form version)) line.now }
{
    if begins_alone(form, line) {
        return true;
    }
    if begins_numbers(form, version, line) {
        return true;
    }
    begins_send(form, line)
}

fn begins_alone(form: Form, line: &[u8]) -> bool
    ensures { IsTrue result ↔ Begins (Spells (command_text_in form) (IsAloneIn form)) line.now }
{
    if begins_text("recv", line) {
        return true;
    }
    if begins_text("query", line) {
        return true;
    }
    if begins_text("disconnect", line) {
        return true;
    }
    begins_await(form, line)
}

fn begins_await(form: Form, line: &[u8]) -> bool
    ensures { IsTrue result ↔ Begins (Spells (command_text_in form) (IsAwaitIn form)) line.now }
{
    match form {
        Form::Script => begins_text("await", line),
        Form::Report => false,
    }
}

fn begins_numbers(form: Form, version: Version, line: &[u8]) -> bool
    ensures { IsTrue result
        ↔ Begins (Spells (command_text_in form) (IsNumberedIn form version)) line.now }
{
    if begins_release(form, line) {
        return true;
    }
    if begins_slice(form, line) {
        return true;
    }
    if begins_reset(form, version, line) {
        return true;
    }
    begins_destroy(form, line)
}

fn begins_release(form: Form, line: &[u8]) -> bool
    ensures { IsTrue result ↔ Begins (Spells (command_text_in form) (IsReleaseIn form)) line.now }
{
    let kinds = [Kind::Fixed("release"), Kind::One(Item::Handle(form))];
    begins_line(b' ', &kinds, line)
}

fn begins_slice(form: Form, line: &[u8]) -> bool
    ensures { IsTrue result ↔ Begins (Spells (command_text_in form) (IsSliceIn form)) line.now }
{
    let kinds = [Kind::Fixed("slice"), Kind::One(Item::Offset(form))];
    begins_line(b' ', &kinds, line)
}

fn begins_reset(form: Form, version: Version, line: &[u8]) -> bool
    ensures { IsTrue result
        ↔ Begins (Spells (command_text_in form) (IsResetIn form version)) line.now }
{
    let limit = Kind::One(Item::UpTo(u32::MAX as u64));
    if begins_line(b' ', &[Kind::Fixed("reset"), limit, limit, limit], line) {
        return true;
    }
    match version {
        Version::One => false,
        Version::Two => begins_line(b' ', &[Kind::Fixed("limit"), limit, limit, limit], line),
    }
}

fn begins_destroy(form: Form, line: &[u8]) -> bool
    ensures { IsTrue result ↔ Begins (Spells (command_text_in form) (IsDestroyIn form)) line.now }
{
    let handles = Kind::Several(Item::Handle(form), most_numbers(form));
    begins_line(b' ', &[Kind::Fixed("destroy"), handles], line)
}

fn begins_send(form: Form, line: &[u8]) -> bool
    ensures { IsTrue result ↔ Begins (Spells (command_text_in form) (IsSendIn form)) line.now }
{
    let handles = Kind::Several(Item::Handle(form), most_numbers(form));
    let kinds = [
        Kind::Fixed("send"),
        Kind::One(Item::UpTo(1)),
        Kind::Fixed("to"),
        handles,
        Kind::Fixed("with"),
        handles,
        Kind::Fixed("data"),
        Kind::Bytes(most_bytes(form)),
    ];
    begins_line(b' ', &kinds, line)
}
