//! Fields in bytes: each is wholly there and ends by the limit, or is the fault.

ghost use Rattle.std.specs.Prelude.{◌≡◌, ◌==◌, length, IfOk};
ghost use Rattle.std.specs.List.{list_all};
ghost use Rattle.b1_records.specs.Reading.{Gives, field_at, number_at, long_number_at, zero_at, count_at, numbers_at, payload_at};

use b1_errs::{Cause, NotRead};
use b1_model::{Bytes, Nums};
use b1_wire::{take_u32, take_u64};
use std::alloc::Global;

/// The bytes of a field of `len` bytes at a place, and its end.
#[tactic(auto, unfolding(crate::specs::Reading::field_at))]
pub fn field(bytes: &[u8], at: usize, len: usize, limit: usize) -> Result<(&[u8], usize), NotRead>
    ensures exact { Gives (λ x. (x.0.now, x.1)) result (field_at limit bytes.now len at) }
    ensures length { IfOk result (λ x. length x.0.now ≡ len) }
{
    if at > bytes.len() || bytes.len() - at < len {
        return Err(NotRead::Bad {
            at,
            cause: Cause::Short,
        });
    }
    let end = at + len;
    if end > limit {
        return Err(NotRead::Bad {
            at: limit,
            cause: Cause::Long,
        });
    }
    Ok((&bytes[at..end], end))
}

/// The number of four bytes at a place, and its end.
#[tactic(auto, unfolding(crate::specs::Reading::number_at, crate::specs::Reading::field_at))]
pub fn number(bytes: &[u8], at: usize, limit: usize) -> Result<(u32, usize), NotRead>
    ensures { Gives (λ x. x) result (number_at limit bytes.now at) }
{
    match take_u32(bytes, at) {
        Ok(value) => {
            let (_, end) = field(bytes, at, 4, limit)?;
            Ok((value, end))
        }
        Err(short) => Err(NotRead::Bad {
            at: short.at,
            cause: Cause::Short,
        }),
    }
}

/// The number of eight bytes at a place, and its end.
#[tactic(auto, unfolding(crate::specs::Reading::long_number_at, crate::specs::Reading::field_at))]
pub fn long_number(bytes: &[u8], at: usize, limit: usize) -> Result<(u64, usize), NotRead>
    ensures { Gives (λ x. x) result (long_number_at limit bytes.now at) }
{
    match take_u64(bytes, at) {
        Ok(value) => {
            let (_, end) = field(bytes, at, 8, limit)?;
            Ok((value, end))
        }
        Err(short) => Err(NotRead::Bad {
            at: short.at,
            cause: Cause::Short,
        }),
    }
}

/// The end of a reserved field.
#[tactic(auto, unfolding(crate::specs::Reading::zero_at))]
pub fn zero(bytes: &[u8], at: usize, limit: usize) -> Result<usize, NotRead>
    ensures { Gives (λ end. (0, end)) result (zero_at limit bytes.now at) }
{
    let (value, end) = number(bytes, at, limit)?;
    if value != 0 {
        return Err(NotRead::Bad {
            at,
            cause: Cause::Reserved,
        });
    }
    Ok(end)
}

/// A number of things, of which there are so many at most, and its end.
#[tactic(auto, unfolding(crate::specs::Reading::count_at))]
pub fn count(bytes: &[u8], at: usize, most: u32, limit: usize) -> Result<(u32, usize), NotRead>
    ensures { Gives (λ x. x) result (count_at limit bytes.now most at) }
{
    let (value, end) = number(bytes, at, limit)?;
    if value > most {
        return Err(NotRead::Bad {
            at,
            cause: Cause::Count,
        });
    }
    Ok((value, end))
}

/// So many numbers of eight bytes each, and their end. Room is taken as they are read.
pub fn numbers(
    alloc: Global,
    bytes: &[u8],
    at: usize,
    count: u32,
    limit: usize,
) -> Result<(Nums, usize), NotRead>
    ensures { Gives (λ x. x) result (numbers_at limit bytes.now count at) }
{
    let mut items = Vec::new(alloc);
    let mut place = at;
    for _ in 0..count {
        let (value, end) = long_number(bytes, place, limit)?;
        items.push(value)?;
        place = end;
    }
    Ok((Nums::from_vec(items), place))
}

/// Whether all bytes are zero.
fn are_zero(bytes: &[u8]) -> bool
    ensures { result ≡ list_all (λ b. b == 0) bytes.now }
{
    bytes.iter().all(|b| *b == 0)
}

/// A payload of `len` bytes with the zeros behind it, and their end.
#[tactic(auto, unfolding(crate::specs::Reading::payload_at))]
pub fn payload(
    alloc: Global,
    bytes: &[u8],
    at: usize,
    len: u32,
    limit: usize,
) -> Result<(Bytes, usize), NotRead>
    ensures { Gives (λ x. x) result (payload_at limit bytes.now len at) }
{
    let len = len as usize;
    let (padded, end) = field(bytes, at, (len + 7) / 8 * 8, limit)?;
    let (payload, padding) = padded.split_at(len);
    if !are_zero(padding) {
        return Err(NotRead::Bad {
            at,
            cause: Cause::Reserved,
        });
    }
    Ok((Bytes::from_slice(alloc, payload)?, end))
}
