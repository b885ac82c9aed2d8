ghost use Rattle.b1_report_lines.specs.Reading.{Gives};
ghost use Rattle.b1_report_lines.specs.Forms.{message_of};

use crate::fields::{known_before, long_before, numbers_before, payload, short_before};
use crate::marks::after;
use crate::unread::Unread;
use b1_model::{Answer, Key, Receipt};
use std::alloc::Global;

/// A received message, behind its first word.
pub(crate) fn message(alloc: Global, bytes: &[u8]) -> Result<Answer, Unread>
    ensures { Gives (λ x. x) result (message_of bytes.now) }
{
    let (stamp, rest) = long_before(bytes, b'.')?;
    let (origin, rest) = short_before(rest, b'.')?;
    let (index, rest) = short_before(rest, b' ')?;
    let rest = after(rest, "node ")?;
    let (number, rest) = known_before(rest, b' ')?;
    let rest = after(rest, "slice ")?;
    let (offset, rest) = short_before(rest, b' ')?;
    let rest = after(rest, "handles ")?;
    let (handles, rest) = numbers_before(alloc, rest, b' ')?;
    let rest = after(rest, "bytes ")?;
    let payload = payload(alloc, rest)?;
    Ok(Answer::Got(Receipt::Message {
        key: Key {
            stamp,
            origin,
            index,
        },
        number,
        offset,
        handles,
        payload,
    }))
}
