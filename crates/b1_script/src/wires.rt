ghost use Rattle.std.specs.Prelude.{◌≡◌, []};
ghost use Rattle.b1_records.specs.Reading.{Gives};
ghost use Rattle.b1_script.specs.Reading.{gives_foreign, peer_number_at, other_number_at, wire_at, wires_at};

use b1_errs::{Cause, NotRead};
use b1_model::{Held, Wire, Wires};
use b1_records::fields::{long_number, number};
use std::alloc::Global;

/// The number of one of the `peers` peers, and its end.
#[tactic(auto, unfolding(crate::specs::Reading::peer_number_at))]
pub fn peer_number(
    bytes: &[u8],
    at: usize,
    peers: u32,
    limit: usize,
) -> Result<(u32, usize), NotRead>
    ensures { Gives (λ x. x) result (peer_number_at limit bytes.now peers at) }
{
    let (peer, end) = number(bytes, at, limit)?;
    if peer >= peers {
        return Err(NotRead::Bad {
            at,
            cause: Cause::Range,
        });
    }
    Ok((peer, end))
}

/// The number of another peer than `from`, and its end.
#[tactic(auto, unfolding(crate::specs::Reading::other_number_at))]
fn other_number(
    bytes: &[u8],
    at: usize,
    peers: u32,
    from: u32,
    limit: usize,
) -> Result<(u32, usize), NotRead>
    ensures { Gives (λ x. x) result (other_number_at limit bytes.now peers from at) }
{
    let (peer, end) = peer_number(bytes, at, peers, limit)?;
    if peer == from {
        return Err(NotRead::Bad {
            at,
            cause: Cause::Wiring,
        });
    }
    Ok((peer, end))
}

/// Whether a wire names a node that the other peer doesn't own.
fn gives_another_owners(held: &Held, wire: &Wire) -> bool
    ensures { result ≡ gives_foreign held.now wire.now }
{
    match held.from_owner(wire) {
        Some(given) => given.from != wire.to,
        None => false,
    }
}

#[tactic(auto, unfolding(crate::specs::Reading::wire_at))]
fn wire(
    bytes: &[u8],
    at: usize,
    peers: u32,
    held: &Held,
    limit: usize,
) -> Result<(Wire, usize), NotRead>
    ensures { Gives (λ x. x) result (wire_at limit bytes.now peers held.now at) }
{
    let (from, at) = peer_number(bytes, at, peers, limit)?;
    let (to, at) = other_number(bytes, at, peers, from, limit)?;
    let (number, end) = long_number(bytes, at, limit)?;
    let wire = Wire { from, to, number };
    if !gives_another_owners(held, &wire) {
        return Err(NotRead::Bad {
            at,
            cause: Cause::Wiring,
        });
    }
    Ok((wire, end))
}

/// So many wires, and their end.
pub fn read_wires(
    alloc: Global,
    bytes: &[u8],
    at: usize,
    peers: u32,
    count: u32,
    limit: usize,
) -> Result<(Wires, usize), NotRead>
    ensures { Gives (λ x. x) result (wires_at limit bytes.now peers [] count at) }
{
    let mut items = Vec::new(alloc);
    let mut held = Held::new(alloc);
    let mut place = at;
    for _ in 0..count {
        let (item, end) = wire(bytes, place, peers, &held, limit)?;
        held.add(&item)?;
        items.push(item)?;
        place = end;
    }
    Ok((Wires::from_vec(items), place))
}
