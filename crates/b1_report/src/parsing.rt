ghost use Rattle.std.specs.Prelude.{◌≡◌, ◌+◌, ◌^◌, ◌<◌, ◌↔◌, [], length, IsTrue, IfOk, IfErr};
ghost use Rattle.std.specs.Option.{option_copied};
ghost use Rattle.b1_model.specs.declared.records.Record.{Record};
ghost use Rattle.b1_report_lines.specs.Lines.{IsPlace, next_place};
ghost use Rattle.b1_report.specs.Parsing.{IsReport, TellsReport, WasRead, TellsFault};
ghost use Rattle.b1_report.specs.Runs.{IsDrafted, TellsUnfinished, CanFollow, cut_short, line_fault};

use crate::drafts::Draft;
use b1_errs::{Cause, NotRead};
use b1_model::{CookieLists, Record};
use b1_report_lines::{Line, Place, Stop, Unread, read_line};
use b1_text_words::split;
use std::alloc::Global;

/// Where a report stands behind a line.
fn behind(place: Place, line: &Line) -> Place
    requires { CanFollow place line.now }
    ensures { result ≡ next_place place line.now }
{
    match place {
        Place::Header => Place::Count,
        Place::Count => Place::Peers { begun: 0, calls: 0 },
        Place::Peers { begun, calls } => match line {
            Line::Peer { .. } => Place::Peers {
                begun: begun + 1,
                calls: 0,
            },
            Line::Call(_) => Place::Peers {
                begun,
                calls: calls + 1,
            },
            Line::End => Place::Done,
            _ => place,
        },
        Place::Done => Place::Done,
    }
}

/// Why a whole line that begins there was not read.
fn fault(why: Unread, at: usize) -> NotRead
    ensures { result ≡ line_fault at why }
{
    match why {
        Unread::Stopped(_) => NotRead::Bad {
            at,
            cause: Cause::Line,
        },
        Unread::Memory => NotRead::Memory,
    }
}

/// Why a last line, which has no line feed, is not whole.
fn stop(read: Result<Line, Unread>) -> Unread
    ensures { result ≡ cut_short read }
{
    match read {
        Ok(_) => Unread::Stopped(Stop::Cut),
        Err(why) => why,
    }
}

/// Why the last line, which has no line feed and begins there, was not read.
fn unfinished(
    alloc: Global,
    peers: u32,
    cookies: Option<&CookieLists>,
    place: Place,
    left: &[u8],
    at: usize,
) -> NotRead
    requires known { IsPlace peers place }
    requires room { at + length left.now < 2 ^ 64 }
    ensures { TellsUnfinished (option_copied cookies.entry) peers place left.now at result }
{
    match stop(read_line(alloc, peers, cookies, place, left)) {
        Unread::Memory => NotRead::Memory,
        Unread::Stopped(Stop::Broken) => NotRead::Bad {
            at,
            cause: Cause::Line,
        },
        Unread::Stopped(Stop::Cut) => NotRead::Bad {
            at: at + left.len(),
            cause: Cause::Line,
        },
    }
}

/// Whether a report ended, and nothing stands behind it.
fn is_done(place: Place, left: &[u8]) -> bool
    ensures { IsTrue result ↔ ((place ≡ Place.Done) × (left.now ≡ [])) }
{
    match place {
        Place::Done => left.is_empty(),
        _ => false,
    }
}

/// The draft of a report's record, into which each line goes as it is read.
fn read_draft(
    alloc: Global,
    bytes: &[u8],
    peers: u32,
    cookies: Option<&CookieLists>,
) -> Result<Draft, NotRead>
    ensures read { IfOk result (λ draft.
        IsDrafted (option_copied cookies.entry) peers bytes.now draft) }
    ensures bad { IfErr result (λ why.
        TellsFault (option_copied cookies.entry) peers bytes.now why) }
{
    let mut draft = Draft::new(alloc);
    let mut place = Place::Header;
    let mut left = bytes;
    while !is_done(place, left) {
        let at = bytes.len() - left.len();
        let Some((text, rest)) = split(left, b'\n') else {
            return Err(unfinished(alloc, peers, cookies, place, left, at));
        };
        match read_line(alloc, peers, cookies, place, text) {
            Ok(line) => {
                place = behind(place, &line);
                draft.take(alloc, line)?;
                left = rest;
            }
            Err(why) => return Err(fault(why, at)),
        }
    }
    Ok(draft)
}

/// The record whose report the bytes are, with this number of peers and these cookies, or with none. A fault is
/// `Cause::Line` at the first line behind which no such report can go on, or at the end, where the bytes end too early.
/// Takes a time that grows with the bytes alone.
pub fn parse(
    alloc: Global,
    bytes: &[u8],
    peers: u32,
    cookies: Option<&CookieLists>,
) -> Result<Record, NotRead>
    // The bytes are the report of what is read; a fault is where they stop being one.
    ensures tells { TellsReport (option_copied cookies.entry) peers bytes.now result }
    // The record whose report they are is read, unless memory runs out.
    ensures only { (rec : Record) → IsReport (option_copied cookies.entry) peers bytes.now rec
        → WasRead rec result }
{
    let draft = read_draft(alloc, bytes, peers, cookies)?;
    let peers = draft.finish(alloc)?;
    Ok(Record { peers })
}
