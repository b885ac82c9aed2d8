ghost use Rattle.std.specs.Prelude.{◌≡◌, ◌++◌, ◌-◌, ◌<◌, ◌≤◌, ◌^◌, All, IfSome, OnOk, codes, flat_map, length, string_bytes};
ghost use Rattle.b1_model.specs.declared.version.Version.TheVariants.{Two};
ghost use Rattle.b1_text_words.specs.Commands.{command_text_in, cookie_text, limits_text, send_text_in, AreLimits, HasWords, IsCommand, IsSend};
ghost use Rattle.b1_text_words.specs.declared.items.Form.TheVariants.{Report};
ghost use Rattle.b1_text_words.specs.Items.{item_text};
ghost use Rattle.b1_text_words.specs.Numbers.{number_text, script_handle_text, script_offset_text, hex_digit, hex_text, list_text};

use crate::items::{Form, Item};
use b1_model::{Command, INVALID, Limits, SendCmd};
use std::alloc::AllocError;
use std::fmt::Write;

/// Appends a number of a kind. An error is want of memory.
pub fn write_item(out: &mut String, item: Item, number: u64) -> Result<(), AllocError>
    ensures text { OnOk result (string_bytes out.new ≡ string_bytes out.old
        ++ item_text item number) }
    ensures fits { number < 2 ^ 64 }
{
    match item {
        Item::UpTo(_) => write!(out, "{number}"),
        Item::Among(_) => write!(out, "{number}"),
        Item::Known => write_known(out, number),
        Item::Handle(Form::Report) if number == INVALID => out.push_str("invalid"),
        Item::Offset(Form::Report) if number == INVALID => out.push_str("invalid"),
        Item::Handle(_) => write_handle(out, number),
        Item::Offset(_) => write_offset(out, number),
    }
}

fn write_known(out: &mut String, number: u64) -> Result<(), AllocError>
    ensures { OnOk result (string_bytes out.new ≡ string_bytes out.old ++ number_text number) }
{
    if number == INVALID {
        out.push_str("invalid")
    } else {
        write!(out, "{number}")
    }
}

/// A number, or a reference to a slot of a receipt.
fn write_handle(out: &mut String, number: u64) -> Result<(), AllocError>
    ensures { OnOk result (string_bytes out.new ≡ string_bytes out.old
        ++ script_handle_text number) }
{
    if number % 2 == 1 {
        let receipt = number / 128;
        let slot = number / 2 % 64;
        write!(out, "@{receipt}.{slot}")
    } else {
        write!(out, "{number}")
    }
}

/// An offset, or a reference to a receipt.
fn write_offset(out: &mut String, number: u64) -> Result<(), AllocError>
    ensures { OnOk result (string_bytes out.new ≡ string_bytes out.old
        ++ script_offset_text number) }
{
    if number % 2 == 1 {
        let receipt = number / 2;
        write!(out, "@{receipt}")
    } else {
        write!(out, "{number}")
    }
}

/// Appends a list of numbers of a kind. An error is want of memory.
pub fn write_list(out: &mut String, item: Item, numbers: &[u64]) -> Result<(), AllocError>
    ensures text { OnOk result (string_bytes out.new ≡ string_bytes out.old
        ++ list_text (item_text item) numbers.now) }
    ensures fits { OnOk result (All (λ n. n < 2 ^ 64) numbers.now) }
    ensures few { length numbers.now ≤ 2 ^ 64 - 1 }
{
    let [first, rest @ ..] = numbers else {
        return out.push_str("-");
    };
    write_item(out, item, *first)?;
    write_more(out, item, rest)
}

/// Appends further numbers of a list, each behind a comma.
fn write_more(out: &mut String, item: Item, numbers: &[u64]) -> Result<(), AllocError>
    ensures text { OnOk result (string_bytes out.new ≡ string_bytes out.old
        ++ flat_map (λ n. codes "," ++ item_text item n) numbers.now) }
    ensures fits { OnOk result (All (λ n. n < 2 ^ 64) numbers.now) }
{
    for number in numbers {
        out.push_str(",")?;
        write_item(out, item, *number)?;
    }
    Ok(())
}

/// Appends bytes as lower-case pairs of hexadecimal digits. An error is want of memory.
pub fn write_bytes(out: &mut String, bytes: &[u8]) -> Result<(), AllocError>
    ensures text { OnOk result (string_bytes out.new ≡ string_bytes out.old
        ++ hex_text bytes.now) }
    ensures fits { OnOk result (All (λ b. b < 256) bytes.now) }
    ensures few { length bytes.now ≤ 2 ^ 64 - 1 }
{
    if bytes.is_empty() {
        return out.push_str("-");
    }
    for byte in bytes {
        out.push(digit(*byte / 16))?;
        out.push(digit(*byte % 16))?;
    }
    Ok(())
}

fn digit(value: u8) -> char
    requires { value < 16 }
    ensures value { result ≡ hex_digit value }
    ensures ascii { result < 128 }
{
    if value < 10 {
        char::from(b'0' + value)
    } else {
        char::from(b'a' + (value - 10))
    }
}

/// Appends what stands before a command's words: its cookie, or nothing. An error is want of memory.
pub fn write_cookie(out: &mut String, cookie: Option<u64>) -> Result<(), AllocError>
    ensures text { OnOk result (string_bytes out.new ≡ string_bytes out.old
        ++ cookie_text cookie) }
    ensures fits { IfSome cookie (λ n. n < 2 ^ 64) }
{
    match cookie {
        Some(cookie) => write!(out, "#{cookie} "),
        None => Ok(()),
    }
}

/// Appends a command of this form, without a line feed. An error is want of memory.
#[tactic(auto, using(crate::proofs::Fits::are_items, crate::proofs::Fits::are_bytes))]
pub fn write_command(out: &mut String, form: Form, command: &Command) -> Result<(), AllocError>
    requires { HasWords form command.now }
    ensures text { OnOk result (string_bytes out.new ≡ string_bytes out.old
        ++ command_text_in form command.now) }
    // Its numbers fit the fields that hold them.
    ensures fits { form ≡ Report → OnOk result (IsCommand Report Two command.now) }
{
    match command {
        Command::Disconnect => out.push_str("disconnect"),
        Command::Query => out.push_str("query"),
        Command::Reset { limits } => {
            out.push_str("reset ")?;
            write_limits(out, *limits)
        }
        Command::Limit { limits } => {
            out.push_str("limit ")?;
            write_limits(out, *limits)
        }
        Command::Release { number } => {
            out.push_str("release ")?;
            write_item(out, Item::Handle(form), *number)
        }
        Command::Destroy { numbers } => {
            out.push_str("destroy ")?;
            write_list(out, Item::Handle(form), numbers.as_slice())
        }
        Command::SliceRelease { offset } => {
            out.push_str("slice ")?;
            write_item(out, Item::Offset(form), *offset)
        }
        Command::Send(send) => write_send(out, form, send),
        Command::Recv => out.push_str("recv"),
        Command::Await => out.push_str("await"),
    }
}

fn write_limits(out: &mut String, limits: Limits) -> Result<(), AllocError>
    ensures text { OnOk result (string_bytes out.new ≡ string_bytes out.old
        ++ limits_text limits) }
    ensures fits { AreLimits limits }
{
    write!(
        out,
        "{} {} {}",
        limits.entries, limits.bytes, limits.handles
    )
}

#[tactic(auto, using(crate::proofs::Fits::are_items, crate::proofs::Fits::are_bytes))]
fn write_send(out: &mut String, form: Form, send: &SendCmd) -> Result<(), AllocError>
    ensures text { OnOk result (string_bytes out.new ≡ string_bytes out.old
        ++ send_text_in form send.now) }
    ensures fits { OnOk result (IsSend Report send.now) }
{
    out.push_str("send ")?;
    out.push_str(if send.go_on { "1 to " } else { "0 to " })?;
    write_list(out, Item::Handle(form), send.to.as_slice())?;
    out.push_str(" with ")?;
    write_list(out, Item::Handle(form), send.with.as_slice())?;
    out.push_str(" data ")?;
    write_bytes(out, send.payload.as_slice())
}
