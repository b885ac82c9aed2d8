ghost use Rattle.std.specs.Prelude.{◌≡◌, ◌+◌, ◌≤◌, IfOk};
ghost use Rattle.b1_model.specs.declared.limits.TheConstants as limits;
ghost use Rattle.b1_records.specs.Reading.{Gives};
ghost use Rattle.b1_script.specs.Reading.{is_pool, pool_at, peer_at, peers_at};

use b1_errs::{Cause, NotRead};
use b1_model::{Limits, MOST_POOL, MOST_POOLS, PeerSpec, Peers};
use b1_records::fields::{number, zero};
use std::alloc::Global;

/// Whether a pool may have this size: a multiple of 8 from 8 to `MOST_POOL`.
fn may_be_pool(size: u32) -> bool
    ensures { result ≡ is_pool size }
{
    size % 8 == 0 && size >= 8 && size <= MOST_POOL
}

/// A pool, where those before it have so many bytes together.
#[tactic(auto, unfolding(crate::specs::Reading::pool_at))]
fn pool(bytes: &[u8], at: usize, before: u64, limit: usize) -> Result<(u32, usize), NotRead>
    requires { before ≤ limits.MOST_POOLS }
    ensures gives { Gives (λ x. x) result (pool_at limit bytes.now before at) }
    ensures together { IfOk result (λ x. before + x.0 ≤ limits.MOST_POOLS) }
{
    let (size, end) = number(bytes, at, limit)?;
    if !may_be_pool(size) || before + u64::from(size) > MOST_POOLS {
        return Err(NotRead::Bad {
            at,
            cause: Cause::Range,
        });
    }
    Ok((size, end))
}

#[tactic(auto, unfolding(crate::specs::Reading::peer_at))]
fn peer(bytes: &[u8], at: usize, before: u64, limit: usize) -> Result<(PeerSpec, usize), NotRead>
    requires { before ≤ limits.MOST_POOLS }
    ensures gives { Gives (λ x. x) result (peer_at limit bytes.now before at) }
    ensures together { IfOk result (λ x. before + x.0.pool ≤ limits.MOST_POOLS) }
{
    let (user, at) = number(bytes, at, limit)?;
    let (pool, at) = pool(bytes, at, before, limit)?;
    let (entries, at) = number(bytes, at, limit)?;
    let (size, at) = number(bytes, at, limit)?;
    let (handles, at) = number(bytes, at, limit)?;
    let at = zero(bytes, at, limit)?;
    let limits = Limits {
        entries,
        bytes: size,
        handles,
    };
    Ok((PeerSpec { user, pool, limits }, at))
}

/// So many peers, and their end.
pub fn read_peers(
    alloc: Global,
    bytes: &[u8],
    at: usize,
    count: u32,
    limit: usize,
) -> Result<(Peers, usize), NotRead>
    ensures { Gives (λ x. x) result (peers_at limit bytes.now 0 count at) }
{
    let mut items = Vec::new(alloc);
    let mut before = 0;
    let mut place = at;
    for _ in 0..count {
        let (item, end) = peer(bytes, place, before, limit)?;
        before += u64::from(item.pool);
        items.push(item)?;
        place = end;
    }
    Ok((Peers::from_vec(items), place))
}
