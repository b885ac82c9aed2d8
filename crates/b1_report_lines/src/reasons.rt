ghost use Rattle.std.specs.Prelude.{◌≡◌};
ghost use Rattle.b1_report_lines.specs.Reading.{Gives, before, mapped};
ghost use Rattle.b1_report_lines.specs.Forms.{reason_kind_at, reason_of, reason_at, place_at, places_at, quota_at, quota_made};
ghost use Rattle.b1_report_lines.specs.Seen.{kind_seen, value_seen};

use crate::fields::{known, long, long_before, short, short_before};
use crate::marks::{after, alone, ended, halves, or_after};
use crate::unread::{Stop, Unread};
use b1_model::{Front, Places, Quantity, Reason};
use std::alloc::Global;

/// The forms of reasons, each with its word at the front.
#[derive(Clone, Copy, Debug)]
pub(crate) enum ReasonKind {
    Unknown,
    Absent,
    Staged,
    Memory,
    Invalid,
    Full,
    Overflow,
    Size,
    Shutdown,
    Gone,
    Entries,
    Bytes,
    Handles,
}

fn reason_kind(bytes: &[u8]) -> Result<(ReasonKind, &[u8]), Stop>
    ensures { kind_seen result ≡ reason_kind_at bytes.now }
{
    let found = Err(Stop::Broken);
    let found = or_after(found, ReasonKind::Unknown, bytes, "ENXIO:");
    let found = or_after(found, ReasonKind::Absent, bytes, "EAGAIN:absent");
    let found = or_after(found, ReasonKind::Staged, bytes, "EAGAIN:staged:");
    let found = or_after(found, ReasonKind::Memory, bytes, "ENOMEM");
    let found = or_after(found, ReasonKind::Invalid, bytes, "EINVAL");
    let found = or_after(found, ReasonKind::Full, bytes, "EXFULL:");
    let found = or_after(found, ReasonKind::Overflow, bytes, "EOVERFLOW:");
    let found = or_after(found, ReasonKind::Size, bytes, "EMSGSIZE:");
    let found = or_after(found, ReasonKind::Shutdown, bytes, "ESHUTDOWN");
    let found = or_after(found, ReasonKind::Gone, bytes, "EHOSTUNREACH:");
    let found = or_after(found, ReasonKind::Entries, bytes, "EDQUOT:entries:");
    let found = or_after(found, ReasonKind::Bytes, bytes, "EDQUOT:bytes:");
    or_after(found, ReasonKind::Handles, bytes, "EDQUOT:handles:")
}

/// Why something is refused.
#[tactic(auto, unfolding(crate::specs::Forms::reason_at))]
pub(crate) fn reason(bytes: &[u8]) -> Result<Reason, Unread>
    ensures { Gives (λ x. x) result (reason_at bytes.now) }
{
    let (kind, rest) = reason_kind(bytes)?;
    reason_of_kind(kind, rest)
}

#[tactic(auto, unfolding(crate::specs::Forms::reason_of))]
fn reason_of_kind(kind: ReasonKind, bytes: &[u8]) -> Result<Reason, Unread>
    ensures { Gives (λ x. x) result (reason_of kind bytes.now) }
{
    match kind {
        ReasonKind::Unknown => {
            let number = known(bytes)?;
            Ok(Reason::Unknown { number })
        }
        ReasonKind::Absent => alone(Reason::Again(Front::Absent), bytes),
        ReasonKind::Staged => {
            let (origin, rest) = short_before(bytes, b':')?;
            let stamp = long(rest)?;
            Ok(Reason::Again(Front::Staged { origin, stamp }))
        }
        ReasonKind::Memory => alone(Reason::Memory, bytes),
        ReasonKind::Invalid => alone(Reason::Invalid, bytes),
        ReasonKind::Full => {
            let (asked, rest) = short_before(bytes, b':')?;
            let largest = short(rest)?;
            Ok(Reason::Full { asked, largest })
        }
        ReasonKind::Overflow => {
            let clock = long(bytes)?;
            Ok(Reason::Overflow { clock })
        }
        ReasonKind::Size => {
            let len = long(bytes)?;
            Ok(Reason::Size { len })
        }
        ReasonKind::Shutdown => alone(Reason::Shutdown, bytes),
        ReasonKind::Gone => {
            let (owner, rest) = short_before(bytes, b'.')?;
            let serial = short(rest)?;
            Ok(Reason::Gone { owner, serial })
        }
        ReasonKind::Entries => quota(Quantity::Entries, bytes),
        ReasonKind::Bytes => quota(Quantity::Bytes, bytes),
        ReasonKind::Handles => quota(Quantity::Handles, bytes),
    }
}

fn quota(what: Quantity, bytes: &[u8]) -> Result<Reason, Unread>
    ensures { Gives (λ x. x) result (mapped (quota_made what) (quota_at bytes.now)) }
{
    let (own, rest) = long_before(bytes, b':')?;
    let (others, rest) = long_before(rest, b':')?;
    let (limit, rest) = short_before(rest, b':')?;
    let asked = short(rest)?;
    Ok(Reason::Quota {
        what,
        own,
        others,
        limit,
        asked,
    })
}

pub(crate) fn reason_before(bytes: &[u8], mark: u8) -> Result<(Reason, &[u8]), Unread>
    ensures { Gives value_seen result (before mark reason_at bytes.now) }
{
    match halves(bytes, mark) {
        Some((part, rest)) => match reason(part) {
            Ok(reason) => Ok((reason, rest)),
            Err(why) => Err(ended(why)),
        },
        None => match reason(bytes) {
            Ok(_) => Err(Unread::Stopped(Stop::Cut)),
            Err(why) => Err(why),
        },
    }
}

/// What one destination answered.
#[tactic(auto, unfolding(crate::specs::Forms::place_at))]
fn place(bytes: &[u8]) -> Result<Option<Reason>, Unread>
    ensures { Gives (λ x. x) result (place_at bytes.now) }
{
    match after(bytes, "ok") {
        Ok(rest) => return alone(None, rest),
        Err(Stop::Cut) => return Err(Unread::Stopped(Stop::Cut)),
        Err(Stop::Broken) => {}
    }
    let reason = reason(bytes)?;
    Ok(Some(reason))
}

/// What each destination answered, with commas between them, or a dash.
#[tactic(auto, unfolding(crate::specs::Forms::places_at))]
pub(crate) fn places(alloc: Global, bytes: &[u8]) -> Result<Places, Unread>
    ensures { Gives (λ x. x) result (places_at bytes.now) }
{
    match after(bytes, "-") {
        Ok(rest) => return alone(Places::new(alloc), rest),
        Err(Stop::Cut) => return Err(Unread::Stopped(Stop::Cut)),
        Err(Stop::Broken) => {}
    }
    let mut places = Vec::new(alloc);
    let mut left = bytes;
    while let Some((part, rest)) = halves(left, b',') {
        match place(part) {
            Ok(place) => places.push(place)?,
            Err(why) => return Err(ended(why)),
        }
        left = rest;
    }
    let last = place(left)?;
    places.push(last)?;
    Ok(Places::from_vec(places))
}
