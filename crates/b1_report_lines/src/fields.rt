ghost use Rattle.std.specs.Prelude.{◌≡◌, ◌<◌, length};
ghost use Rattle.b1_report_lines.specs.Reading.{Gives, before, quarter_at, known_at, hex_at, dash};
ghost use Rattle.b1_report_lines.specs.Forms.{short_at, long_at, numbers_at, doomed_at};
ghost use Rattle.b1_report_lines.specs.Seen.{value_seen, no_number_why};

use crate::marks::{after, alone, ended, halves};
use crate::unread::{Stop, Unread};
use b1_model::{Bytes, Nums};
use b1_text_words::{Item, begins_bytes, read_bytes, read_item};
use std::alloc::Global;

/// The last number behind which a digit may stand, so that the whole is below 2^64.
const LAST_TO_GO_ON: u64 = 1_844_674_407_370_955_161;

/// Why bytes are no decimal number: they are none at all, or no number begins with them.
fn no_number(bytes: &[u8]) -> Unread
    ensures { result ≡ no_number_why bytes.now }
{
    if bytes.is_empty() {
        Unread::Stopped(Stop::Cut)
    } else {
        Unread::Stopped(Stop::Broken)
    }
}

/// A decimal number below 2^32.
pub(crate) fn short(bytes: &[u8]) -> Result<u32, Unread>
    ensures { Gives (λ x. x) result (short_at bytes.now) }
{
    match read_item(Item::UpTo(0xffff_ffff), bytes) {
        Some(number) => Ok(number as u32),
        None => Err(no_number(bytes)),
    }
}

/// A decimal number below 2^64.
pub(crate) fn long(bytes: &[u8]) -> Result<u64, Unread>
    ensures { Gives (λ x. x) result (long_at bytes.now) }
{
    match read_item(Item::UpTo(u64::MAX), bytes) {
        Some(number) => Ok(number),
        None => Err(no_number(bytes)),
    }
}

/// A decimal number, or `invalid` for 2^64 - 1.
pub(crate) fn known(bytes: &[u8]) -> Result<u64, Unread>
    ensures { Gives (λ x. x) result (known_at bytes.now) }
{
    match after(bytes, "invalid") {
        Ok(rest) => return alone(u64::MAX, rest),
        Err(Stop::Cut) => return Err(Unread::Stopped(Stop::Cut)),
        Err(Stop::Broken) => {}
    }
    match read_item(Item::UpTo(u64::MAX - 1), bytes) {
        Some(number) => Ok(number),
        None => Err(no_number(bytes)),
    }
}

/// A decimal number with this rest when it is divided by four.
fn quarter(rest: u64, bytes: &[u8]) -> Result<u64, Unread>
    requires { rest < 4 }
    ensures { Gives (λ x. x) result (quarter_at rest bytes.now) }
{
    let number = long(bytes)?;
    if number % 4 == rest {
        Ok(number)
    } else if number == 0 || number > LAST_TO_GO_ON {
        Err(Unread::Stopped(Stop::Broken))
    } else {
        Err(Unread::Stopped(Stop::Cut))
    }
}

/// `node N` or `handle N`: the number of a destroyed node.
#[tactic(auto, unfolding(crate::specs::Forms::doomed_at))]
pub(crate) fn doomed(bytes: &[u8]) -> Result<u64, Unread>
    ensures { Gives (λ x. x) result (doomed_at bytes.now) }
{
    match after(bytes, "node ") {
        Ok(rest) => return quarter(0, rest),
        Err(Stop::Cut) => return Err(Unread::Stopped(Stop::Cut)),
        Err(Stop::Broken) => {}
    }
    let rest = after(bytes, "handle ")?;
    quarter(2, rest)
}

/// A stamp, or a dash where there is none.
pub(crate) fn stamp(bytes: &[u8]) -> Result<Option<u64>, Unread>
    ensures { Gives (λ x. x) result (dash long_at bytes.now) }
{
    match after(bytes, "-") {
        Ok(rest) => return alone(None, rest),
        Err(Stop::Cut) => return Err(Unread::Stopped(Stop::Cut)),
        Err(Stop::Broken) => {}
    }
    let stamp = long(bytes)?;
    Ok(Some(stamp))
}

/// Numbers of a receipt with commas between them, or a dash.
#[tactic(auto, unfolding(crate::specs::Forms::numbers_at))]
fn numbers(alloc: Global, bytes: &[u8]) -> Result<Nums, Unread>
    ensures { Gives (λ x. x) result (numbers_at bytes.now) }
{
    match after(bytes, "-") {
        Ok(rest) => return alone(Nums::new(alloc), rest),
        Err(Stop::Cut) => return Err(Unread::Stopped(Stop::Cut)),
        Err(Stop::Broken) => {}
    }
    let mut numbers = Vec::new(alloc);
    let mut left = bytes;
    while let Some((part, rest)) = halves(left, b',') {
        match known(part) {
            Ok(number) => numbers.push(number)?,
            Err(why) => return Err(ended(why)),
        }
        left = rest;
    }
    let last = known(left)?;
    numbers.push(last)?;
    Ok(Nums::from_vec(numbers))
}

/// How many bytes there are, so that what they spell is counted too.
fn size(bytes: &[u8]) -> usize
    ensures { result ≡ length bytes.now }
{
    bytes.len()
}

/// Bytes as pairs of digits, or a dash.
pub(crate) fn payload(alloc: Global, bytes: &[u8]) -> Result<Bytes, Unread>
    ensures { Gives (λ x. x) result (hex_at bytes.now) }
{
    let _size = size(bytes);
    match read_bytes(alloc, u64::MAX, bytes) {
        Ok(Some(payload)) => Ok(payload),
        Ok(None) if begins_bytes(u64::MAX, bytes) => Err(Unread::Stopped(Stop::Cut)),
        Ok(None) => Err(Unread::Stopped(Stop::Broken)),
        Err(_) => Err(Unread::Memory),
    }
}

pub(crate) fn short_before(bytes: &[u8], mark: u8) -> Result<(u32, &[u8]), Unread>
    ensures { Gives value_seen result (before mark short_at bytes.now) }
{
    match halves(bytes, mark) {
        Some((part, rest)) => match short(part) {
            Ok(number) => Ok((number, rest)),
            Err(why) => Err(ended(why)),
        },
        None => match short(bytes) {
            Ok(_) => Err(Unread::Stopped(Stop::Cut)),
            Err(why) => Err(why),
        },
    }
}

pub(crate) fn long_before(bytes: &[u8], mark: u8) -> Result<(u64, &[u8]), Unread>
    ensures { Gives value_seen result (before mark long_at bytes.now) }
{
    match halves(bytes, mark) {
        Some((part, rest)) => match long(part) {
            Ok(number) => Ok((number, rest)),
            Err(why) => Err(ended(why)),
        },
        None => match long(bytes) {
            Ok(_) => Err(Unread::Stopped(Stop::Cut)),
            Err(why) => Err(why),
        },
    }
}

pub(crate) fn known_before(bytes: &[u8], mark: u8) -> Result<(u64, &[u8]), Unread>
    ensures { Gives value_seen result (before mark known_at bytes.now) }
{
    match halves(bytes, mark) {
        Some((part, rest)) => match known(part) {
            Ok(number) => Ok((number, rest)),
            Err(why) => Err(ended(why)),
        },
        None => match known(bytes) {
            Ok(_) => Err(Unread::Stopped(Stop::Cut)),
            Err(why) => Err(why),
        },
    }
}

pub(crate) fn numbers_before(alloc: Global, bytes: &[u8], mark: u8) -> Result<(Nums, &[u8]), Unread>
    ensures { Gives value_seen result (before mark numbers_at bytes.now) }
{
    match halves(bytes, mark) {
        Some((part, rest)) => match numbers(alloc, part) {
            Ok(numbers) => Ok((numbers, rest)),
            Err(why) => Err(ended(why)),
        },
        None => match numbers(alloc, bytes) {
            Ok(_) => Err(Unread::Stopped(Stop::Cut)),
            Err(why) => Err(why),
        },
    }
}
