ghost use Rattle.std.specs.Prelude.{◌≡◌, ◌≤◌, ◌<◌};
ghost use Rattle.std.specs.Option.{option_copied};
ghost use Rattle.b1_model.specs.Versions.{cookies_of as spec_cookies, version_of as spec_version};
ghost use Rattle.b1_report_lines.specs.Lines.{IsPlace, TellsLine, count_line, header_line, next_cookie as spec_cookie};
ghost use Rattle.b1_report_lines.specs.Markers.{fixed_at, peer_at, marker_at};
ghost use Rattle.b1_report_lines.specs.Reading.{Gives};

use crate::calls::numbered_call;
use crate::fields::{long, long_before};
use crate::marks::{after, alone};
use crate::unread::{Stop, Unread};
use b1_model::{Call, CookieLists, Version};
use std::alloc::Global;

/// A line of a report.
#[derive(Debug, Drop)]
pub enum Line {
    /// The name of the format.
    Header,
    /// How many peers there are.
    Count,
    /// A peer, with its epoch and its clock.
    Peer { epoch: u64, clock: u64 },
    /// A call of the peer that began last.
    Call(Call),
    /// The last line.
    End,
}

/// Where in a report a line is to stand.
#[derive(Clone, Copy, Debug, PartialEq, Eq)]
pub enum Place {
    /// At the front.
    Header,
    /// Behind the header.
    Count,
    /// Behind the number of peers: so many peers have begun, and the last of them has so many calls.
    Peers { begun: u32, calls: usize },
    /// Behind the last line.
    Done,
}

/// The version of a report with these cookies, or with none.
pub fn version_of(cookies: Option<&CookieLists>) -> Version
    ensures { result ≡ spec_version (option_copied cookies.entry) }
{
    match cookies {
        Some(_) => Version::Two,
        None => Version::One,
    }
}

/// The cookies of a peer's commands: none where there is no such peer, and where there are no cookies.
pub fn cookies_of(cookies: Option<&CookieLists>, peer: usize) -> &[u64]
    ensures { result.now ≡ spec_cookies (option_copied cookies.entry) peer }
{
    let Some(lists) = cookies else {
        return &[];
    };
    match lists.get(peer) {
        Some(list) => list.as_slice(),
        None => &[],
    }
}

/// The cookie of the next call, where it has one.
fn next_cookie(cookies: Option<&CookieLists>, begun: u32, calls: usize) -> Option<u64>
    requires { 0 < begun }
    ensures { result ≡ spec_cookie (option_copied cookies.entry) begun calls }
{
    let of_peer = cookies_of(cookies, begun as usize - 1);
    of_peer.get(calls).copied()
}

fn fixed(line: Line, bytes: &[u8], word: &str) -> Result<Line, Unread>
    ensures { Gives (λ x. x) result (fixed_at word.now line bytes.now) }
{
    let rest = after(bytes, word)?;
    alone(line, rest)
}

fn header(version: Version, bytes: &[u8]) -> Result<Line, Unread>
    ensures { Gives (λ x. x) result (fixed_at (header_line version) Line.Header bytes.now) }
{
    match version {
        Version::One => fixed(Line::Header, bytes, "bus1 report 1"),
        Version::Two => fixed(Line::Header, bytes, "bus1 report 2"),
    }
}

fn count(alloc: Global, peers: u32, bytes: &[u8]) -> Result<Line, Unread>
    ensures { Gives (λ x. x) result (fixed_at (count_line peers) Line.Count bytes.now) }
{
    let words = format!(in alloc; "peers {peers}")?;
    fixed(Line::Count, bytes, words.as_str())
}

#[tactic(auto, unfolding(crate::specs::Markers::peer_at))]
fn peer(alloc: Global, begun: u32, bytes: &[u8]) -> Result<Line, Unread>
    ensures { Gives (λ x. x) result (peer_at begun bytes.now) }
{
    let words = format!(in alloc; "peer {begun} epoch ")?;
    let rest = after(bytes, words.as_str())?;
    let (epoch, rest) = long_before(rest, b' ')?;
    let rest = after(rest, "clock ")?;
    let clock = long(rest)?;
    Ok(Line::Peer { epoch, clock })
}

#[tactic(auto, unfolding(crate::specs::Markers::marker_at))]
fn marker(alloc: Global, peers: u32, begun: u32, bytes: &[u8]) -> Result<Line, Unread>
    ensures { Gives (λ x. x) result (marker_at peers begun bytes.now) }
{
    if begun < peers {
        peer(alloc, begun, bytes)
    } else {
        fixed(Line::End, bytes, "end")
    }
}

fn behind_count(
    alloc: Global,
    peers: u32,
    cookies: Option<&CookieLists>,
    begun: u32,
    calls: usize,
    bytes: &[u8],
) -> Result<Line, Unread>
    requires { begun ≤ peers }
    ensures { TellsLine (option_copied cookies.entry) peers (Place.Peers begun calls) bytes.now
        result }
{
    match marker(alloc, peers, begun, bytes) {
        Ok(line) => Ok(line),
        Err(Unread::Memory) => Err(Unread::Memory),
        Err(Unread::Stopped(Stop::Cut)) => Err(Unread::Stopped(Stop::Cut)),
        Err(Unread::Stopped(Stop::Broken)) => {
            if begun == 0 {
                return Err(Unread::Stopped(Stop::Broken));
            }
            let cookie = next_cookie(cookies, begun, calls);
            match numbered_call(alloc, version_of(cookies), cookie, bytes) {
                Ok(call) => Ok(Line::Call(call)),
                Err(why) => Err(why),
            }
        }
    }
}

/// The line that the bytes are, without a line feed, among those that may stand at a place of a report of so many peers
/// with these cookies, or with none. `Stop::Cut` where they are none and some such line begins with them, `Stop::Broken`
/// where none does, or want of memory. Takes a time that grows with the bytes alone.
pub fn read_line(
    alloc: Global,
    peers: u32,
    cookies: Option<&CookieLists>,
    place: Place,
    bytes: &[u8],
) -> Result<Line, Unread>
    requires { IsPlace peers place }
    ensures { TellsLine (option_copied cookies.entry) peers place bytes.now result }
{
    match place {
        Place::Header => header(version_of(cookies), bytes),
        Place::Count => count(alloc, peers, bytes),
        Place::Peers { begun, calls } => behind_count(alloc, peers, cookies, begun, calls, bytes),
        Place::Done => Err(Unread::Stopped(Stop::Broken)),
    }
}
