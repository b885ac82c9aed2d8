ghost use Rattle.std.specs.Prelude.{◌≡◌, IfOk, codes};
ghost use Rattle.b1_report_lines.specs.Forms.{answer_at};
ghost use Rattle.b1_report_lines.specs.Lines.{TellsCall, TellsCallStop};
ghost use Rattle.b1_report_lines.specs.Reading.{Gives, IsSpaced, behind, split_once};
ghost use Rattle.std.specs.Prelude.{None};

use crate::answers::answer;
use crate::marks::{after, halves};
use crate::unread::{Stop, Unread};
use b1_model::{Call, Command, Version};
use b1_text_words::{Form, begins_command, read_command, write_cookie};
use std::alloc::Global;

/// What stands before a space at the end.
fn spaced(bytes: &[u8]) -> Option<&[u8]>
    ensures { IsSpaced bytes.now result }
{
    match bytes {
        [word @ .., last] if *last == b' ' => Some(word),
        _ => None,
    }
}

/// A call whose command is known, and what stands behind the equals sign.
fn answered(alloc: Global, command: Command, right: &[u8]) -> Result<Call, Unread>
    ensures gives { Gives (λ call.
        call.answer) result (behind (codes " ") (answer_at command) right.now) }
    ensures command { IfOk result (λ call. call.command ≡ command) }
{
    let rest = after(right, " ")?;
    let answer = answer(alloc, &command, rest)?;
    Ok(Call { command, answer })
}

/// Why bytes without an equals sign are no call: they end in a command or behind one, or no command begins with them.
fn unanswered(alloc: Global, version: Version, bytes: &[u8]) -> Unread
    requires { split_once 61 bytes.now ≡ None }
    ensures { TellsCallStop version None bytes.now result }
{
    if begins_command(Form::Report, version, bytes) {
        return Unread::Stopped(Stop::Cut);
    }
    let Some(word) = spaced(bytes) else {
        return Unread::Stopped(Stop::Broken);
    };
    match read_command(alloc, Form::Report, version, word) {
        Ok(Some(_)) => Unread::Stopped(Stop::Cut),
        Ok(None) => Unread::Stopped(Stop::Broken),
        Err(_) => Unread::Memory,
    }
}

/// The call whose command and answer the bytes are.
fn read_call(alloc: Global, version: Version, bytes: &[u8]) -> Result<Call, Unread>
    ensures { TellsCall version None bytes.now result }
{
    let Some((left, right)) = halves(bytes, b'=') else {
        return Err(unanswered(alloc, version, bytes));
    };
    let Some(word) = spaced(left) else {
        return Err(Unread::Stopped(Stop::Broken));
    };
    match read_command(alloc, Form::Report, version, word) {
        Ok(Some(command)) => answered(alloc, command, right),
        Ok(None) => Err(Unread::Stopped(Stop::Broken)),
        Err(_) => Err(Unread::Memory),
    }
}

/// The call whose line the bytes are, with this cookie at its front, or with none.
pub(crate) fn numbered_call(
    alloc: Global,
    version: Version,
    cookie: Option<u64>,
    bytes: &[u8],
) -> Result<Call, Unread>
    ensures { TellsCall version cookie bytes.now result }
{
    let mut words = String::new(alloc);
    write_cookie(&mut words, cookie)?;
    match after(bytes, words.as_str()) {
        Ok(rest) => read_call(alloc, version, rest),
        Err(stop) => Err(Unread::Stopped(stop)),
    }
}
