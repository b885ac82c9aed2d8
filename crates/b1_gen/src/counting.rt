ghost use Rattle.std.specs.Prelude.{◌≡◌, ◌+◌, sum_by};
ghost use Rattle.b1_gen.specs.Counted.{worth, total, within, HasCounts};

use b1_model::{Answer, Call, Receipt, Record};

/// What is counted in a record.
#[derive(Clone, Copy, Debug, PartialEq, Eq)]
pub enum Quantity {
    /// The SENDs that were accepted.
    Sends,
    /// The places at which they were accepted.
    Entries,
    /// The messages that were taken.
    Receipts,
    /// The bytes of these messages.
    Bytes,
}

/// The counts of a record.
#[derive(Clone, Copy, Debug, PartialEq, Eq)]
pub struct Counts {
    /// The SENDs that were accepted.
    pub sends: u64,
    /// The places at which they were accepted.
    pub entries: u64,
    /// The messages that were taken.
    pub receipts: u64,
    /// The bytes of these messages.
    pub bytes: u64,
}

/// How much one answer counts.
fn worth_of(quantity: Quantity, answer: &Answer) -> u64
    ensures { result ≡ worth quantity answer.now }
{
    match (quantity, answer) {
        (Quantity::Sends, Answer::Sent(_)) => 1,
        (Quantity::Entries, Answer::Sent(sent)) => sent
            .places
            .as_slice()
            .iter()
            .filter(|place| place.is_none())
            .count() as u64,
        (Quantity::Receipts, Answer::Got(Receipt::Message { .. })) => 1,
        (Quantity::Bytes, Answer::Got(Receipt::Message { payload, .. })) => payload.len() as u64,
        _ => 0,
    }
}

/// A count with that of these calls; `None` where it passes 2^64 - 1.
fn with_calls(quantity: Quantity, count: u64, calls: &[Call]) -> Option<u64>
    ensures { result ≡ within (count + sum_by (λ c. worth quantity c.answer) calls.now) }
{
    let mut sum = count;
    for call in calls {
        sum = sum.checked_add(worth_of(quantity, &call.answer))?;
    }
    Some(sum)
}

/// How often this stands in a record; `None` where the count passes 2^64 - 1.
pub fn count_of(quantity: Quantity, run: &Record) -> Option<u64>
    ensures { result ≡ within (total quantity run.now) }
{
    let mut count = 0;
    for peer in run.peers.as_slice() {
        count = with_calls(quantity, count, peer.calls.as_slice())?;
    }
    Some(count)
}

/// The counts of a record; `None` exactly where one of them passes 2^64 - 1.
pub fn count_all(run: &Record) -> Option<Counts>
    ensures { HasCounts run.now result }
{
    Some(Counts {
        sends: count_of(Quantity::Sends, run)?,
        entries: count_of(Quantity::Entries, run)?,
        receipts: count_of(Quantity::Receipts, run)?,
        bytes: count_of(Quantity::Bytes, run)?,
    })
}
