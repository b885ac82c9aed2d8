//! What is written into the slices of a pool.

ghost use Rattle.std.specs.Prelude.{◌≡◌, ◌+◌, ◌*◌, ◌≤◌, IsTrue, Some, None, length};
ghost use Rattle.b1_model.specs.declared.tables.Usage.TheVariants.{Unpublished};
ghost use Rattle.b1_model.specs.MachinePool.{slice_len, taken, taken_offset, slice_at};
ghost use Rattle.b1_pool.specs.Bytes.{written};
ghost use Rattle.b1_pool.specs.Slices.{IsPool as Covers};
ghost use Rattle.b1_peer_pool.specs.Slices.{is_queued, len_at, IsPool};
ghost use Rattle.b1_peer_pool.specs.Words.{all_in_words};
ghost use Rattle.b1_peer_pool.specs.Content.{padded, number_bytes};
ghost use Rattle.b1_peer_pool.specs.Stored.{full_reason};

use crate::lengths::{padded_length, slice_length};
use b1_model::{MOST_HANDLES, MOST_PAYLOAD};
use b1_pool::PoolKind;

/// Takes a slice for a message that fits, of at most `MOST_PAYLOAD` bytes and `MOST_HANDLES` handles, and writes the payload at its begin,
/// with zeros up to a multiple of 8. The answer is where the slice begins.
pub(crate) fn put_message<P: PoolKind>(pool: &mut P, payload: &[u8], handles: u32) -> u32
    requires spare { 1 ≤ P.spare pool.old }
    requires payload { length payload.now ≤ MOST_PAYLOAD }
    requires handles { handles ≤ MOST_HANDLES }
    requires fits { full_reason (all_in_words (P.slices pool.old)) (length payload.now) handles
        ≡ None }
    ensures offset { result ≡ taken_offset (slice_len (length payload.now) handles)
        (all_in_words (P.slices pool.old)) }
    ensures slices { all_in_words (P.slices pool.new)
        ≡ taken (slice_len (length payload.now) handles) (all_in_words (P.slices pool.old)) }
    ensures taken { slice_at result (all_in_words (P.slices pool.new))
        ≡ Some (record {
          offset = result;
          len = slice_len (length payload.now) handles;
          usage = Unpublished;
        }) }
    ensures bytes { P.content pool.new ≡ written result (padded payload.now) (P.content pool.old) }
    ensures spare { P.spare pool.old ≤ P.spare pool.new + 1 }
    ensures sound { Covers (length (P.content pool.new)) (P.slices pool.new) }
{
    let size = payload.len() as u32;
    let offset = pool.alloc(slice_length(size, handles));
    pool.write(offset, 0, payload);
    let padding = padded_length(size) - size;
    pool.write(offset, size, &[0; 8][..padding as usize]);
    offset
}

/// Writes numbers into the slice of a queued message from its byte `at` on, eight bytes each, the lowest first.
pub(crate) fn put_numbers<P: PoolKind>(pool: &mut P, offset: u32, at: u32, numbers: &[u64])
    requires sound { IsPool (length (P.content pool.old)) (all_in_words (P.slices pool.old)) }
    requires queued { IsTrue (is_queued offset (all_in_words (P.slices pool.old))) }
    requires within { at + 8 * length numbers.now
        ≤ len_at offset (all_in_words (P.slices pool.old)) }
    ensures slices { P.slices pool.new ≡ P.slices pool.old }
    ensures bytes { P.content pool.new
        ≡ written (offset + at) (number_bytes numbers.now) (P.content pool.old) }
    ensures spare { P.spare pool.new ≡ P.spare pool.old }
{
    let mut place = at;
    for number in numbers {
        pool.write(offset, place, &number.to_le_bytes());
        place += 8;
    }
}
