//! The data receipts of the calls behind which a walk stands, and what references to them stand for.

ghost use Rattle.std.specs.Prelude.{◌≡◌, suc, ◌<◌, ◌++◌, length, OnOk, OnErr};
ghost use Rattle.std.specs.Option.{option_copied, option_to_list};
ghost use Rattle.b1_model.specs.Script.{data_of, handle_in, resolved_handle, resolved_offset};
ghost use Rattle.b1_judge.specs.Behind.{behind};

use b1_model::{Answer, Call, INVALID, Receipt};
use std::alloc::{AllocError, Global};
use std::marker::Model;

/// The offset of the slice and the handles of a data receipt.
#[derive(Drop)]
struct Data<'a> {
    offset: u32,
    handles: &'a [u64],
}

impl<'a> Model for Data<'a> {
    ghost use Rattle.b1_model.specs.Script.{Data as Found};

    ghost Value = { Found };

    ghost view = { λ x. record { offset = x.offset; handles = x.handles.now } };
}

/// A peer's calls, how many of them lie behind, and the data receipts of those.
#[derive(Drop)]
pub(crate) struct Receipts<'a> {
    calls: &'a [Call],
    count: usize,
    found: Vec<Data<'a>>,
}

impl<'a> Model for Receipts<'a> {
    ghost use Rattle.b1_judge.specs.Behind.{Passed};

    ghost Value = { Passed };

    ghost use Rattle.std.specs.Prelude.{◌≡◌, take};
    ghost use Rattle.b1_model.specs.Script.{data_receipts};

    ghost view = { λ x. record { calls = x.calls.now; count = x.count } };

    ghost invariant = { λ x. x.found.items ≡ data_receipts (take x.count x.calls.now) };
}

impl<'a> Receipts<'a> {
    /// Before the first of a peer's calls.
    pub(crate) fn start(alloc: Global, calls: &'a [Call]) -> Receipts<'a>
        ensures { result ≡ record { calls = calls.now; count = 0 } }
    {
        Receipts {
            calls,
            count: 0,
            found: Vec::new(alloc),
        }
    }

    /// Goes past the next call. An error is want of memory.
    pub(crate) fn pass(&mut self) -> Result<(), AllocError>
        requires { self.old.count < length self.old.calls }
        ensures { OnOk result (self.new ≡ record self.old { count = suc self.old.count }) }
    {
        let calls = self.calls;
        let call = &calls[self.count];
        put_data(&mut self.found, &call.answer)?;
        self.count += 1;
        Ok(())
    }

    /// What a handle's number stands for after the calls that lie behind. Takes the same time for any number of calls.
    pub(crate) fn handle(&self, number: u64) -> u64
        ensures { result ≡ resolved_handle (behind self.now) number }
    {
        if number % 2 != 1 {
            return number;
        }
        handle_in(
            self.found.get((number / 128) as usize),
            (number % 128 / 2) as usize,
        )
    }

    /// What an offset stands for after the calls that lie behind. Takes the same time for any number of calls.
    pub(crate) fn offset(&self, offset: u64) -> u64
        ensures { result ≡ resolved_offset (behind self.now) offset }
    {
        if offset % 2 != 1 {
            return offset;
        }
        match self.found.get((offset / 2) as usize) {
            Some(data) => data.offset as u64,
            None => INVALID,
        }
    }
}

/// Puts the data receipt of an answer, if it is one, behind the others. An error is want of memory.
fn put_data<'a>(found: &mut Vec<Data<'a>>, answer: &'a Answer) -> Result<(), AllocError>
    ensures ok { OnOk result (found.new.items ≡ found.old.items ++ data_of answer.now) }
    ensures err { OnErr result (found.new.items ≡ found.old.items) }
{
    if let Some(data) = read_data(answer) {
        found.push(data)?;
    }
    Ok(())
}

/// The data receipt of an answer, if it is one.
fn read_data<'a>(answer: &'a Answer) -> Option<Data<'a>>
    ensures { option_to_list result ≡ data_of answer.now }
{
    match answer {
        Answer::Got(
            Receipt::Message {
                offset,
                handles,
                ..
            },
        ) => Some(Data {
            offset: *offset,
            handles: handles.as_slice(),
        }),
        _ => None,
    }
}

/// A slot of a data receipt, or what stands for none.
fn handle_in(found: Option<&Data<'_>>, slot: usize) -> u64
    ensures { result ≡ handle_in slot (option_copied found.entry) }
{
    match found {
        Some(data) => match data.handles.get(slot) {
            Some(handle) => *handle,
            None => INVALID,
        },
        None => INVALID,
    }
}
