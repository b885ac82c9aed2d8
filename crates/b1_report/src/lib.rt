//! The report's text, both ways: what happened on a bus, a line for each call. `docs/FORMATS.md` has its form.
#![tactic(auto)]

mod answers;
mod drafts;
mod parsing;

ghost use Rattle.std.specs.Prelude.{◌≡◌, ◌++◌, ◌+◌, ◌-◌, ℕ, All, List, IfOk, OnOk, length, slice_get, string_bytes};
ghost use Rattle.std.specs.Option.{option_copied};
ghost use Rattle.b1_model.specs.Versions.{version_number, version_of as spec_version};
ghost use Rattle.b1_model.specs.declared.records.Record.{Record};
ghost use Rattle.b1_model.specs.declared.version.Version.TheVariants.{Two};
ghost use Rattle.b1_report.specs.Parsing.{HasCallFields, HasPeerFields, HasRecordFields, IsReport, IsFault};
ghost use Rattle.b1_report.specs.Report.{Cookies, call_text, calls_text, head_text, peer_text, peers_text, report_text};
ghost use Rattle.b1_report.specs.Report.{HasSpelling, AllSpelled, EachSpelled};

use answers::write_answer;
use b1_model::{Call, Calls, CookieLists, PeerCalls, Record, Version};
use b1_report_lines::{cookies_of, version_of};
use b1_text_words::{Form, write_command, write_cookie};
pub use parsing::parse;
use std::alloc::{AllocError, Global};
use std::fmt::Write;

/// The line of one call that has one: no AWAIT, a reset as the answer of a reset or a disconnect alone, and an even number
/// in a notice of a destruction. Its cookie stands at the front, where it has one. An error is want of memory.
pub fn print_call(alloc: Global, call: &Call, cookie: Option<u64>) -> Result<Vec<u8>, AllocError>
    requires { HasSpelling Two call.now }
    ensures { IfOk result (λ text. text.items ≡ call_text cookie call.now) }
{
    let mut out = String::new(alloc);
    write_call(&mut out, cookie, call)?;
    Ok(out.into_bytes())
}

/// The report of a record each of whose calls has a line: of the first version without cookies, in which a PEER_RESET
/// without flush has no line, and of the second with the cookies of each peer's commands. An error is want of memory.
/// Takes a time that grows with the record alone.
pub fn print(
    alloc: Global,
    rec: &Record,
    cookies: Option<&CookieLists>,
) -> Result<Vec<u8>, AllocError>
    requires { EachSpelled (spec_version (option_copied cookies)) rec.now.peers }
    ensures text { IfOk result (λ text.
        text.items ≡ report_text (option_copied cookies.entry) rec.now) }
    // The text is a report, which is read again as this record.
    ensures report { IfOk result (λ text.
        IsReport (option_copied cookies.entry) (length rec.now.peers) text.items rec.now) }
{
    let mut out = String::new(alloc);
    write_record(&mut out, cookies, rec)?;
    Ok(out.into_bytes())
}

fn write_record(
    out: &mut String,
    cookies: Option<&CookieLists>,
    rec: &Record,
) -> Result<(), AllocError>
    requires { EachSpelled Two rec.now.peers }
    ensures text { OnOk result (string_bytes out.new ≡ string_bytes out.old
        ++ report_text (option_copied cookies.entry) rec.now) }
    ensures fits { OnOk result (HasRecordFields rec.now) }
{
    write_head(out, version_of(cookies), rec.peers.len())?;
    write_peers(out, cookies, rec.peers.as_slice())?;
    write!(out, "end\n")
}

/// The number of a version.
fn number_of_version(version: Version) -> u32
    ensures { result ≡ version_number version }
{
    match version {
        Version::One => 1,
        Version::Two => 2,
    }
}

fn write_head(out: &mut String, version: Version, peers: usize) -> Result<(), AllocError>
    ensures { OnOk result (string_bytes out.new ≡ string_bytes out.old
        ++ head_text version peers) }
{
    let number = number_of_version(version);
    write!(out, "bus1 report {number}\npeers {peers}\n")
}

fn write_peers(
    out: &mut String,
    cookies: Option<&CookieLists>,
    peers: &[PeerCalls],
) -> Result<(), AllocError>
    requires { EachSpelled Two peers.now }
    ensures text { OnOk result (string_bytes out.new ≡ string_bytes out.old
        ++ peers_text (option_copied cookies.entry) peers.now) }
    ensures fits { OnOk result (All HasPeerFields peers.now) }
{
    for (number, peer) in peers.iter().enumerate() {
        write_peer(out, cookies, number, peer)?;
    }
    Ok(())
}

fn write_peer(
    out: &mut String,
    cookies: Option<&CookieLists>,
    number: usize,
    peer: &PeerCalls,
) -> Result<(), AllocError>
    requires { AllSpelled Two peer.now.calls }
    ensures text { OnOk result (string_bytes out.new ≡ string_bytes out.old
        ++ peer_text (option_copied cookies.entry) (number, peer.now)) }
    ensures fits { OnOk result (HasPeerFields peer.now) }
{
    let epoch = peer.epoch;
    let clock = peer.clock;
    write!(out, "peer {number} epoch {epoch} clock {clock}\n")?;
    write_calls(out, cookies_of(cookies, number), &peer.calls)
}

fn write_calls(out: &mut String, cookies: &[u64], calls: &Calls) -> Result<(), AllocError>
    requires { AllSpelled Two calls.now }
    ensures text { OnOk result (string_bytes out.new ≡ string_bytes out.old
        ++ calls_text cookies.now calls.now) }
    ensures fits { OnOk result (All HasCallFields calls.now) }
{
    for (place, call) in calls.as_slice().iter().enumerate() {
        write_call(out, cookie_at(cookies, place), call)?;
    }
    Ok(())
}

/// The cookie of the call at a place, where it has one.
fn cookie_at(cookies: &[u64], place: usize) -> Option<u64>
    ensures { result ≡ slice_get cookies.now place }
{
    cookies.get(place).copied()
}

fn write_call(out: &mut String, cookie: Option<u64>, call: &Call) -> Result<(), AllocError>
    requires { HasSpelling Two call.now }
    ensures text { OnOk result (string_bytes out.new ≡ string_bytes out.old
        ++ call_text cookie call.now) }
    ensures fits { OnOk result (HasCallFields call.now) }
{
    write_cookie(out, cookie)?;
    write_command(out, Form::Report, &call.command)?;
    out.push_str(" = ")?;
    write_answer(out, &call.command, &call.answer)?;
    out.push_str("\n")
}

/// Bytes stop being a report in one place at most, and a report nowhere.
pub fn a_report_breaks_in_one_place()
    ensures one { (cookies : Cookies) (peers : ℕ) (bytes : List ℕ) (at end : ℕ)
        → IsFault cookies peers bytes at → IsFault cookies peers bytes end → at ≡ end }
    ensures none { (cookies : Cookies) (peers : ℕ) (bytes : List ℕ) (rec : Record) (at : ℕ)
        → IsReport cookies peers bytes rec → ¬ (IsFault cookies peers bytes at) }
{}
