ghost use Rattle.std.specs.Prelude.{◌≡◌, ◌==◌, ◌+◌, ◌-◌, ◌<◌, ◌≤◌, ◌^◌, All, length, max, replicate, slice_index, slice_set, IfOk, OnOk, vec_len};
ghost use Rattle.std.specs.List.{list_all};

use b1_model::Nums;
use std::alloc::{AllocError, Global};

/// A count of 0 for each peer. An error is want of memory.
pub fn zeros(alloc: Global, peers: u32) -> Result<Vec<u64>, AllocError>
    ensures { IfOk result (λ v. v.items ≡ replicate peers 0) }
{
    Vec::from_elem(alloc, 0, peers as usize)
}

/// Makes counts of 0 until there are `n` of them. An error is want of memory, and leaves at least what was there.
pub fn add_rooms(
    rooms: &mut Vec<Nums>,
    alloc: Global,
    peers: u32,
    n: usize,
) -> Result<(), AllocError>
    requires { All (λ r. r ≡ replicate peers 0) rooms.old.items }
    ensures zeros { All (λ r. r ≡ replicate peers 0) rooms.new.items }
    ensures enough { OnOk result (n ≤ vec_len rooms.new) }
    ensures more { vec_len rooms.old ≤ vec_len rooms.new }
    ensures no_more { vec_len rooms.new ≤ max (vec_len rooms.old) n }
{
    while rooms.len() < n {
        rooms.push(Nums::from_vec(zeros(alloc, peers)?))?;
    }
    Ok(())
}

/// The count of a peer; one that takes no room is 0.
pub fn count_in(counts: &[u64], peer: u32) -> u64
    ensures { result ≡ slice_index counts.now peer }
{
    match counts.get(peer as usize) {
        Some(count) => *count,
        None => 0,
    }
}

/// Whether every count is 0.
pub fn are_zero(counts: &[u64]) -> bool
    ensures { result ≡ list_all (λ k. k == 0) counts.now }
{
    counts.iter().all(|k| *k == 0)
}

/// Counts one more reference of a peer.
pub fn raise_in(counts: &mut Vec<u64>, peer: u32)
    requires within { peer < length counts.old.items }
    requires fits { slice_index counts.old.items peer < 2 ^ 63 }
    ensures { counts.new.items
        ≡ slice_set counts.old.items peer (slice_index counts.old.items peer + 1) }
{
    counts[peer as usize] += 1;
}

/// Counts `k` fewer references of a peer.
pub fn lower_in(counts: &mut Vec<u64>, peer: u32, k: u64)
    requires within { peer < length counts.old.items }
    requires enough { k ≤ slice_index counts.old.items peer }
    ensures { counts.new.items
        ≡ slice_set counts.old.items peer (slice_index counts.old.items peer - k) }
{
    counts[peer as usize] -= k;
}
