ghost use Rattle.std.specs.Prelude.{◌≡◌, map, slice_get, IfOk};
ghost use Rattle.std.specs.Option.{option_map};
ghost use Rattle.b1_model.specs.Script.{data_of, data_receipts, handle_in, offset_in, resolved_handle, resolved_offset, resolved};
ghost use Rattle.b1_receipts.specs.Places.{data_places};
ghost use Rattle.b1_script.specs.Resolving.{data_seen, list_seen};

use b1_model::{Answer, Bytes, Call, Calls, Command, INVALID, Nums, Receipt, SendCmd};
use b1_receipts::data_places;
use std::alloc::{AllocError, Global};

/// The offset of the slice and the handles of an answer that is a data receipt.
fn data(answer: &Answer) -> Option<(u32, &[u64])>
    ensures { list_seen result ≡ data_of answer.now }
{
    match answer {
        Answer::Got(
            Receipt::Message {
                offset,
                handles,
                ..
            },
        ) => Some((*offset, handles.as_slice())),
        _ => None,
    }
}

/// The data receipt of this index among the calls, counted from 0, where the places of the data receipts are known.
fn data_at<'a>(calls: &'a [Call], places: &[usize], index: u64) -> Option<(u32, &'a [u64])>
    requires { places.now ≡ data_places calls.now }
    ensures { option_map data_seen result ≡ slice_get (data_receipts calls.now) index }
{
    match places.get(index as usize) {
        Some(place) => match calls.get(*place) {
            Some(call) => data(&call.answer),
            None => None,
        },
        None => None,
    }
}

/// A handle of a data receipt by its place, 2^64 - 1 where there is none.
fn handle_in(found: Option<(u32, &[u64])>, place: usize) -> u64
    ensures { result ≡ handle_in place (option_map data_seen found.entry) }
{
    match found {
        Some((_, handles)) => match handles.get(place) {
            Some(handle) => *handle,
            None => INVALID,
        },
        None => INVALID,
    }
}

/// The slice's offset of a data receipt, 2^64 - 1 where there is none.
fn offset_in(found: Option<(u32, &[u64])>) -> u64
    ensures { result ≡ offset_in (option_map data_seen found.entry) }
{
    match found {
        Some((offset, _)) => offset as u64,
        None => INVALID,
    }
}

/// What a handle's number stands for after these calls: an odd one for a handle of a data receipt, and for 2^64 - 1
/// where there is none. Takes a time that doesn't grow with the calls.
fn handle_after(calls: &[Call], places: &[usize], number: u64) -> u64
    requires { places.now ≡ data_places calls.now }
    ensures { result ≡ resolved_handle calls.now number }
{
    if number % 2 != 1 {
        return number;
    }
    let found = data_at(calls, places, number / 128);
    handle_in(found, (number % 128 / 2) as usize)
}

/// What an offset stands for after these calls: an odd one for the slice of a data receipt, and for 2^64 - 1 where there
/// is none. Takes a time that doesn't grow with the calls.
fn offset_after(calls: &[Call], places: &[usize], offset: u64) -> u64
    requires { places.now ≡ data_places calls.now }
    ensures { result ≡ resolved_offset calls.now offset }
{
    if offset % 2 != 1 {
        return offset;
    }
    offset_in(data_at(calls, places, offset / 2))
}

fn resolve_all(
    alloc: Global,
    numbers: &[u64],
    calls: &[Call],
    places: &[usize],
) -> Result<Nums, AllocError>
    requires { places.now ≡ data_places calls.now }
    ensures { IfOk result (λ list. list ≡ map (resolved_handle calls.now) numbers.now) }
{
    let mut items = Vec::with_capacity(alloc, numbers.len())?;
    for number in numbers {
        items.push(handle_after(calls, places, *number))?;
    }
    Ok(Nums::from_vec(items))
}

fn resolve_send(
    alloc: Global,
    send: &SendCmd,
    calls: &[Call],
    places: &[usize],
) -> Result<SendCmd, AllocError>
    requires { places.now ≡ data_places calls.now }
    ensures { IfOk result (λ s. s
        ≡ record send.now {
          to = map (resolved_handle calls.now) send.now.to;
          with = map (resolved_handle calls.now) send.now.with;
        }) }
{
    Ok(SendCmd {
        go_on: send.go_on,
        to: resolve_all(alloc, send.to.as_slice(), calls, places)?,
        with: resolve_all(alloc, send.with.as_slice(), calls, places)?,
        payload: Bytes::from_slice(alloc, send.payload.as_slice())?,
    })
}

/// A command that begins after these calls, with the references among its operands resolved: an odd operand stands for a
/// handle or the slice of an earlier data receipt, and for 2^64 - 1 where there is none. An error is want of memory. Goes
/// through the calls for the places of their data receipts; who has them calls `resolve_after`.
pub fn resolve(alloc: Global, command: &Command, calls: &Calls) -> Result<Command, AllocError>
    ensures { IfOk result (λ c. c ≡ resolved command.now calls.now) }
{
    let places = data_places(alloc, calls.as_slice())?;
    resolve_after(alloc, command, calls.as_slice(), places.as_slice())
}

/// The same after calls that stand in a slice, with the places of their data receipts. An error is want of memory. Takes
/// the time of the command alone.
pub fn resolve_after(
    alloc: Global,
    command: &Command,
    calls: &[Call],
    places: &[usize],
) -> Result<Command, AllocError>
    requires { places.now ≡ data_places calls.now }
    ensures { IfOk result (λ c. c ≡ resolved command.now calls.now) }
{
    match command {
        Command::Disconnect => Ok(Command::Disconnect),
        Command::Query => Ok(Command::Query),
        Command::Reset { limits } => Ok(Command::Reset { limits: *limits }),
        Command::Limit { limits } => Ok(Command::Limit { limits: *limits }),
        Command::Release { number } => Ok(Command::Release {
            number: handle_after(calls, places, *number),
        }),
        Command::Destroy { numbers } => Ok(Command::Destroy {
            numbers: resolve_all(alloc, numbers.as_slice(), calls, places)?,
        }),
        Command::SliceRelease { offset } => Ok(Command::SliceRelease {
            offset: offset_after(calls, places, *offset),
        }),
        Command::Send(send) => Ok(Command::Send(resolve_send(alloc, send, calls, places)?)),
        Command::Recv => Ok(Command::Recv),
        Command::Await => Ok(Command::Await),
    }
}
