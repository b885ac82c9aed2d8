ghost use Rattle.std.specs.Prelude.{◌≡◌, ◌++◌, ◌≤◌, ◌^◌, length, flat_map, IfOk, OnOk};
ghost use Rattle.b1_model.specs.Names.{calls_of};
ghost use Rattle.b1_model.specs.Ledger.{stamp_of, stamp_at, in_order, order, stamps_from, peers_of};

use crate::answers::{Answer, Sent};
use crate::lists::Items;
use crate::records::{Call, Record, Stamp, Stamps};
use std::alloc::{AllocError, Global};

/// The stamp of a send or a destruction; `None` of any other answer.
pub fn answer_stamp(answer: &Answer) -> Option<u64>
    ensures { result ≡ stamp_of answer.now }
{
    match answer {
        Answer::Sent(Sent { stamp, .. }) => Some(*stamp),
        Answer::Destroyed { stamp } => Some(*stamp),
        Answer::Reset { stamp } => *stamp,
        _ => None,
    }
}

/// The bus order of a record: its sends and destructions, ascending by stamp and then by origin. Takes a time of
/// n log n in the number of the stamped calls. An error is want of memory.
pub fn order_of(alloc: Global, rec: &Record) -> Result<Stamps, AllocError>
    requires { length rec.now.peers ≤ 2 ^ 32 }
    ensures { IfOk result (λ stamps. stamps ≡ order rec.now) }
{
    let mut stamps = gathered(alloc, rec)?;
    sort(&mut stamps)?;
    Ok(Items::from_vec(stamps))
}

/// The stamped calls, peer after peer.
fn gathered(alloc: Global, rec: &Record) -> Result<Vec<Stamp>, AllocError>
    requires { length rec.now.peers ≤ 2 ^ 32 }
    ensures { IfOk result (λ stamps. stamps.items
        ≡ flat_map (λ p. stamps_from p 0 (calls_of rec.now p)) (peers_of rec.now)) }
{
    let mut stamps = Vec::new(alloc);
    for (origin, peer) in rec.peers.as_slice().iter().enumerate() {
        gather(&mut stamps, origin as u32, peer.calls.as_slice())?;
    }
    Ok(stamps)
}

/// Puts the stamped calls of one peer behind the others.
fn gather(stamps: &mut Vec<Stamp>, origin: u32, calls: &[Call]) -> Result<(), AllocError>
    ensures { OnOk result (stamps.new.items ≡ stamps.old.items ++ stamps_from origin 0 calls.now) }
{
    for (index, call) in calls.iter().enumerate() {
        gather_one(stamps, origin, index, answer_stamp(&call.answer))?;
    }
    Ok(())
}

/// Puts a call behind the others, if it is stamped.
fn gather_one(
    stamps: &mut Vec<Stamp>,
    origin: u32,
    index: usize,
    stamp: Option<u64>,
) -> Result<(), AllocError>
    ensures { OnOk result (stamps.new.items ≡ stamps.old.items ++ stamp_at origin index stamp) }
{
    if let Some(stamp) = stamp {
        stamps.push(Stamp {
            stamp,
            origin,
            call: index as u64,
        })?;
    }
    Ok(())
}

/// Puts stamped calls in the bus order.
fn sort(stamps: &mut Vec<Stamp>) -> Result<(), AllocError>
    ensures { OnOk result (stamps.new.items ≡ in_order stamps.old.items) }
{
    stamps.sort_by_key(|s| (s.stamp, s.origin))?;
    Ok(())
}
