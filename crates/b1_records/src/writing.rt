ghost use Rattle.std.specs.Prelude.{◌≡◌, ◌++◌, ◌≤◌, length, OnOk, OnErr};
ghost use Rattle.std.specs.List.{flat_map};
ghost use Rattle.b1_wire.specs.Numbers.{u64_bytes};
ghost use Rattle.b1_records.specs.Spelling.{head, flags_of, kind_of_command, has_flag, limits_spelling, list_spelling, counts_spelling, send_spelling, body_spelling, padded, spelling, spelling2, IsWithin, IsWithin2, IsSendWithin, most_numbers};
ghost use Rattle.b1_records.specs.Writing.{Extends};

use crate::kinds::{Kind, code_of_kind, flags, flags_of_command, kind_of};
use b1_model::{Command, Limits, SendCmd};
use b1_wire::{put_u32, put_u64};
use std::alloc::AllocError;

#[tactic(auto, using(crate::proofs::Appended::extends_on))]
fn put_head(kind: Kind, flags: u32, out: &mut Vec<u8>) -> Result<(), AllocError>
    ensures ok { OnOk result (out.new.items ≡ out.old.items ++ head kind flags) }
    ensures err { OnErr result (Extends out.old.items out.new.items) }
{
    put_u32(out, code_of_kind(kind))?;
    put_u32(out, flags)
}

#[tactic(auto, using(crate::proofs::Appended::extends_on))]
fn put_limits(limits: &Limits, out: &mut Vec<u8>) -> Result<(), AllocError>
    ensures ok { OnOk result (out.new.items ≡ out.old.items ++ limits_spelling limits.now) }
    ensures err { OnErr result (Extends out.old.items out.new.items) }
{
    put_u32(out, limits.entries)?;
    put_u32(out, limits.bytes)?;
    put_u32(out, limits.handles)?;
    put_u32(out, 0)
}

#[tactic(auto, using(crate::proofs::Appended::extends_on))]
fn put_numbers(numbers: &[u64], out: &mut Vec<u8>) -> Result<(), AllocError>
    ensures ok { OnOk result (out.new.items ≡ out.old.items ++ flat_map u64_bytes numbers.now) }
    ensures err { OnErr result (Extends out.old.items out.new.items) }
{
    for number in numbers {
        put_u64(out, *number)?;
    }
    Ok(())
}

#[tactic(auto, using(crate::proofs::Appended::extends_on))]
fn put_list(numbers: &[u64], out: &mut Vec<u8>) -> Result<(), AllocError>
    requires { length numbers.now ≤ most_numbers }
    ensures ok { OnOk result (out.new.items ≡ out.old.items ++ list_spelling numbers.now) }
    ensures err { OnErr result (Extends out.old.items out.new.items) }
{
    put_u32(out, numbers.len() as u32)?;
    put_u32(out, 0)?;
    put_numbers(numbers, out)
}

/// A payload, and zeros up to a multiple of 8.
#[tactic(auto, using(crate::proofs::Appended::extends_on))]
fn put_payload(payload: &[u8], out: &mut Vec<u8>) -> Result<(), AllocError>
    ensures ok { OnOk result (out.new.items ≡ out.old.items ++ padded payload.now) }
    ensures err { OnErr result (Extends out.old.items out.new.items) }
{
    let padding = [0; 7];
    out.extend_from_slice(payload)?;
    out.extend_from_slice(&padding[..(8 - payload.len() % 8) % 8])
}

/// How many destinations, handles and bytes a SEND has, and a reserved zero.
#[tactic(auto, using(crate::proofs::Appended::extends_on))]
fn put_counts(send: &SendCmd, out: &mut Vec<u8>) -> Result<(), AllocError>
    requires { IsSendWithin send.now }
    ensures ok { OnOk result (out.new.items ≡ out.old.items ++ counts_spelling send.now) }
    ensures err { OnErr result (Extends out.old.items out.new.items) }
{
    put_u32(out, send.to.len() as u32)?;
    put_u32(out, send.with.len() as u32)?;
    put_u32(out, send.payload.len() as u32)?;
    put_u32(out, 0)
}

#[tactic(auto, using(crate::proofs::Appended::extends_on))]
fn put_send(send: &SendCmd, out: &mut Vec<u8>) -> Result<(), AllocError>
    requires { IsSendWithin send.now }
    ensures ok { OnOk result (out.new.items ≡ out.old.items ++ send_spelling send.now) }
    ensures err { OnErr result (Extends out.old.items out.new.items) }
{
    put_counts(send, out)?;
    put_numbers(send.to.as_slice(), out)?;
    put_numbers(send.with.as_slice(), out)?;
    put_payload(send.payload.as_slice(), out)
}

#[tactic(auto, using(crate::proofs::Appended::extends_on))]
fn put_command(command: &Command, out: &mut Vec<u8>) -> Result<(), AllocError>
    requires { IsWithin command.now }
    ensures ok { OnOk result (out.new.items ≡ out.old.items ++ spelling command.now) }
    ensures err { OnErr result (Extends out.old.items out.new.items) }
{
    match command {
        Command::Disconnect => put_head(Kind::Disconnect, 0, out),
        Command::Query => put_head(Kind::Query, 0, out),
        Command::Reset { limits } => {
            put_head(Kind::Reset, 0, out)?;
            put_limits(limits, out)
        }
        Command::Limit { .. } => unreachable!(),
        Command::Release { number } => {
            put_head(Kind::Release, 0, out)?;
            put_u64(out, *number)
        }
        Command::Destroy { numbers } => {
            put_head(Kind::Destroy, 0, out)?;
            put_list(numbers.as_slice(), out)
        }
        Command::SliceRelease { offset } => {
            put_head(Kind::SliceRelease, 0, out)?;
            put_u64(out, *offset)
        }
        Command::Send(send) => {
            put_head(Kind::Send, flags(send.go_on), out)?;
            put_send(send, out)
        }
        Command::Recv => put_head(Kind::Recv, 0, out),
        Command::Await => put_head(Kind::Await, 0, out),
    }
}

/// Appends a command's record. A PEER_RESET without flush has none. An error is want of memory, and leaves the bytes as
/// they were.
pub fn encode(command: &Command, out: &mut Vec<u8>) -> Result<(), AllocError>
    requires { IsWithin command.now }
    ensures ok { OnOk result (out.new.items ≡ out.old.items ++ spelling command.now) }
    ensures err { OnErr result (out.new.items ≡ out.old.items) }
{
    let len = out.len();
    let result = put_command(command, out);
    if result.is_err() {
        out.truncate(len);
    }
    result
}

/// What follows a record's code, flags and cookie.
#[tactic(auto, using(crate::proofs::Appended::extends_on))]
fn put_body(command: &Command, out: &mut Vec<u8>) -> Result<(), AllocError>
    requires { IsWithin2 command.now }
    ensures ok { OnOk result (out.new.items ≡ out.old.items ++ body_spelling command.now) }
    ensures err { OnErr result (Extends out.old.items out.new.items) }
{
    match command {
        Command::Reset { limits } | Command::Limit { limits } => put_limits(limits, out),
        Command::Release { number } => put_u64(out, *number),
        Command::Destroy { numbers } => put_list(numbers.as_slice(), out),
        Command::SliceRelease { offset } => put_u64(out, *offset),
        Command::Send(send) => put_send(send, out),
        Command::Disconnect | Command::Query | Command::Recv | Command::Await => Ok(()),
    }
}

/// The code and the flags of a command's record that has a cookie.
fn put_head2(command: &Command, out: &mut Vec<u8>) -> Result<(), AllocError>
    ensures ok { OnOk result (out.new.items ≡ out.old.items ++ head (kind_of_command command.now)
        (flags_of (has_flag command.now))) }
    ensures err { OnErr result (Extends out.old.items out.new.items) }
{
    put_head(kind_of(command), flags_of_command(command), out)
}

#[tactic(auto, using(crate::proofs::Appended::extends_on))]
fn put_command2(cookie: u64, command: &Command, out: &mut Vec<u8>) -> Result<(), AllocError>
    requires { IsWithin2 command.now }
    ensures ok { OnOk result (out.new.items ≡ out.old.items ++ spelling2 cookie command.now) }
    ensures err { OnErr result (Extends out.old.items out.new.items) }
{
    put_head2(command, out)?;
    put_u64(out, cookie)?;
    put_body(command, out)
}

/// Appends a command's record of version 2, with its cookie. An error is want of memory, and leaves the bytes as they
/// were.
pub fn encode2(cookie: u64, command: &Command, out: &mut Vec<u8>) -> Result<(), AllocError>
    requires { IsWithin2 command.now }
    ensures ok { OnOk result (out.new.items ≡ out.old.items ++ spelling2 cookie command.now) }
    ensures err { OnErr result (out.new.items ≡ out.old.items) }
{
    let len = out.len();
    let result = put_command2(cookie, command, out);
    if result.is_err() {
        out.truncate(len);
    }
    result
}
