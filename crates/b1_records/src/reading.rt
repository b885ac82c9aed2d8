ghost use Rattle.std.specs.Prelude.{◌≡◌, ℕ, List, IfOk, IfErr};
ghost use Rattle.std.specs.List.{AllByRecursion};
ghost use Rattle.b1_model.specs.declared.commands.Command.{Command};
ghost use Rattle.b1_records.specs.Spelling.{IsByte, IsRecord, IsRecord2};
ghost use Rattle.b1_records.specs.Reading.{Gives, IsFault, bad_record, bad_record2, kind_at, flag_at, flags_at, limits_at, list_at, send_at, reset_at, body_at, body2_at, command_at, command2_at};

use crate::fields::{count, long_number, number, numbers, payload, zero};
use crate::kinds::{Kind, flag, goes_on, kind_of_code};
use b1_errs::{Cause, NotRead};
use b1_model::{Command, Limits, MOST_BYTES, MOST_NUMBERS, Nums, SendCmd};
use std::alloc::Global;

#[tactic(auto, unfolding(crate::specs::Reading::kind_at))]
fn kind_of_record(bytes: &[u8], at: usize, limit: usize) -> Result<(Kind, usize), NotRead>
    ensures { Gives (λ x. x) result (kind_at limit bytes.now at) }
{
    let (code, end) = number(bytes, at, limit)?;
    match kind_of_code(code) {
        Some(kind) => Ok((kind, end)),
        None => Err(NotRead::Bad {
            at,
            cause: Cause::Command,
        }),
    }
}

#[tactic(auto, unfolding(crate::specs::Reading::flags_at))]
fn go_on_of_record(
    bytes: &[u8],
    at: usize,
    kind: Kind,
    limit: usize,
) -> Result<(bool, usize), NotRead>
    ensures { Gives (λ x. x) result (flags_at limit bytes.now kind at) }
{
    let (flags, end) = number(bytes, at, limit)?;
    match goes_on(kind, flags) {
        Some(go_on) => Ok((go_on, end)),
        None => Err(NotRead::Bad {
            at,
            cause: Cause::Flags,
        }),
    }
}

#[tactic(auto, unfolding(crate::specs::Reading::limits_at))]
fn limits(bytes: &[u8], at: usize, limit: usize) -> Result<(Limits, usize), NotRead>
    ensures { Gives (λ x. x) result (limits_at limit bytes.now at) }
{
    let (entries, at) = number(bytes, at, limit)?;
    let (size, at) = number(bytes, at, limit)?;
    let (handles, at) = number(bytes, at, limit)?;
    let at = zero(bytes, at, limit)?;
    let limits = Limits {
        entries,
        bytes: size,
        handles,
    };
    Ok((limits, at))
}

#[tactic(auto, unfolding(crate::specs::Reading::list_at))]
fn list(alloc: Global, bytes: &[u8], at: usize, limit: usize) -> Result<(Nums, usize), NotRead>
    ensures { Gives (λ x. x) result (list_at limit bytes.now at) }
{
    let (len, at) = count(bytes, at, MOST_NUMBERS, limit)?;
    let at = zero(bytes, at, limit)?;
    numbers(alloc, bytes, at, len, limit)
}

#[tactic(auto, unfolding(crate::specs::Reading::send_at))]
fn send(
    alloc: Global,
    bytes: &[u8],
    at: usize,
    go_on: bool,
    limit: usize,
) -> Result<(SendCmd, usize), NotRead>
    ensures { Gives (λ x. x) result (send_at limit bytes.now go_on at) }
{
    let (destinations, at) = count(bytes, at, MOST_NUMBERS, limit)?;
    let (handles, at) = count(bytes, at, MOST_NUMBERS, limit)?;
    let (len, at) = count(bytes, at, MOST_BYTES, limit)?;
    let at = zero(bytes, at, limit)?;
    let (to, at) = numbers(alloc, bytes, at, destinations, limit)?;
    let (with, at) = numbers(alloc, bytes, at, handles, limit)?;
    let (payload, at) = payload(alloc, bytes, at, len, limit)?;
    let send = SendCmd {
        go_on,
        to,
        with,
        payload,
    };
    Ok((send, at))
}

#[tactic(auto, unfolding(crate::specs::Reading::body_at))]
fn body(
    alloc: Global,
    bytes: &[u8],
    at: usize,
    kind: Kind,
    go_on: bool,
    limit: usize,
) -> Result<(Command, usize), NotRead>
    ensures { Gives (λ x. x) result (body_at limit bytes.now kind go_on at) }
{
    match kind {
        Kind::Disconnect => Ok((Command::Disconnect, at)),
        Kind::Query => Ok((Command::Query, at)),
        Kind::Reset => {
            let (limits, at) = limits(bytes, at, limit)?;
            Ok((Command::Reset { limits }, at))
        }
        Kind::Release => {
            let (number, at) = long_number(bytes, at, limit)?;
            Ok((Command::Release { number }, at))
        }
        Kind::Destroy => {
            let (numbers, at) = list(alloc, bytes, at, limit)?;
            Ok((Command::Destroy { numbers }, at))
        }
        Kind::SliceRelease => {
            let (offset, at) = long_number(bytes, at, limit)?;
            Ok((Command::SliceRelease { offset }, at))
        }
        Kind::Send => {
            let (send, at) = send(alloc, bytes, at, go_on, limit)?;
            Ok((Command::Send(send), at))
        }
        Kind::Recv => Ok((Command::Recv, at)),
        Kind::Await => Ok((Command::Await, at)),
    }
}

/// The command whose record begins at a place, and the record's end, where no field of it passes the limit.
#[tactic(auto, unfolding(crate::specs::Reading::command_at))]
pub fn decode_within(
    alloc: Global,
    bytes: &[u8],
    at: usize,
    limit: usize,
) -> Result<(Command, usize), NotRead>
    ensures { Gives (λ x. x) result (command_at limit bytes.now at) }
{
    let (kind, at) = kind_of_record(bytes, at, limit)?;
    let (go_on, at) = go_on_of_record(bytes, at, kind, limit)?;
    body(alloc, bytes, at, kind, go_on, limit)
}

/// The command whose record begins at a place, and the record's end. Bytes may follow it.
pub fn decode(alloc: Global, bytes: &[u8], at: usize) -> Result<(Command, usize), NotRead>
    // What is read is spelled there.
    ensures found { IfOk result (λ read. IsRecord bytes.now at read.0 read.1) }
    // What is spelled there is read, unless memory runs out.
    ensures only { (command : Command) (end : ℕ) → IsRecord bytes.now at command end
        → Gives (λ x. x) result (Ok (command, end)) }
    // A fault is the first rule that is broken.
    ensures bad { IfErr result (λ why. IsFault why (bad_record bytes.now at)) }
{
    decode_within(alloc, bytes, at, bytes.len())
}

#[tactic(auto, unfolding(crate::specs::Reading::flag_at))]
fn flag_of_record(
    bytes: &[u8],
    at: usize,
    kind: Kind,
    limit: usize,
) -> Result<(bool, usize), NotRead>
    ensures { Gives (λ x. x) result (flag_at limit bytes.now kind at) }
{
    let (flags, end) = number(bytes, at, limit)?;
    match flag(kind, flags) {
        Some(is_set) => Ok((is_set, end)),
        None => Err(NotRead::Bad {
            at,
            cause: Cause::Flags,
        }),
    }
}

#[tactic(auto, unfolding(crate::specs::Reading::reset_at))]
fn reset(bytes: &[u8], at: usize, flush: bool, limit: usize) -> Result<(Command, usize), NotRead>
    ensures { Gives (λ x. x) result (reset_at limit bytes.now flush at) }
{
    let (limits, at) = limits(bytes, at, limit)?;
    let command = if flush {
        Command::Reset { limits }
    } else {
        Command::Limit { limits }
    };
    Ok((command, at))
}

#[tactic(auto, unfolding(crate::specs::Reading::body2_at))]
fn body2(
    alloc: Global,
    bytes: &[u8],
    at: usize,
    kind: Kind,
    flag: bool,
    limit: usize,
) -> Result<(Command, usize), NotRead>
    ensures { Gives (λ x. x) result (body2_at limit bytes.now kind flag at) }
{
    match kind {
        Kind::Reset => reset(bytes, at, flag, limit),
        _ => body(alloc, bytes, at, kind, flag, limit),
    }
}

/// The cookie and the command whose record of version 2 begins at a place, and the record's end, where no field of it
/// passes the limit.
#[tactic(auto, unfolding(crate::specs::Reading::command2_at))]
pub fn decode2_within(
    alloc: Global,
    bytes: &[u8],
    at: usize,
    limit: usize,
) -> Result<(u64, Command, usize), NotRead>
    ensures { Gives (λ x. ((x.0, x.1), x.2)) result (command2_at limit bytes.now at) }
{
    let (kind, at) = kind_of_record(bytes, at, limit)?;
    let (flag, at) = flag_of_record(bytes, at, kind, limit)?;
    let (cookie, at) = long_number(bytes, at, limit)?;
    let (command, at) = body2(alloc, bytes, at, kind, flag, limit)?;
    Ok((cookie, command, at))
}

/// The cookie and the command whose record of version 2 begins at a place, and the record's end. Bytes may follow it.
pub fn decode2(alloc: Global, bytes: &[u8], at: usize) -> Result<(u64, Command, usize), NotRead>
    // What is read is spelled there.
    ensures found { IfOk result (λ read. IsRecord2 bytes.now at read.0 read.1 read.2) }
    // What is spelled there is read, unless memory runs out.
    ensures only { (cookie : ℕ) (command : Command) (end : ℕ)
        → IsRecord2 bytes.now at cookie command end
        → Gives (λ x. x) result (Ok (cookie, command, end)) }
    // A fault is the first rule that is broken.
    ensures bad { IfErr result (λ why. IsFault why (bad_record2 bytes.now at)) }
{
    decode2_within(alloc, bytes, at, bytes.len())
}

/// A place in bytes has no first fault exactly where a command's record begins there.
pub fn every_place_has_a_record_or_a_fault()
    ensures none { (bytes : List ℕ) (at : ℕ) → AllByRecursion IsByte bytes
        → bad_record bytes at ≡ None
        → (command : Command) × (end : ℕ) × IsRecord bytes at command end }
    ensures some { (bytes : List ℕ) (at : ℕ) (command : Command) (end : ℕ)
        → AllByRecursion IsByte bytes
        → IsRecord bytes at command end → bad_record bytes at ≡ None }
    ensures none2 { (bytes : List ℕ) (at : ℕ) → AllByRecursion IsByte bytes
        → bad_record2 bytes at ≡ None
        → (cookie : ℕ) × (command : Command) × (end : ℕ) × IsRecord2 bytes at cookie command end }
    ensures some2 { (bytes : List ℕ) (at cookie : ℕ) (command : Command) (end : ℕ)
        → AllByRecursion IsByte bytes
        → IsRecord2 bytes at cookie command end → bad_record2 bytes at ≡ None }
{}
