//! What wires give: the nodes that each peer holds.

ghost use Rattle.std.specs.Prelude.{◌≡◌, [], ◌∷◌, ◌++◌, slice_get, OnOk, false, unwrap_or};
ghost use Rattle.std.specs.List.{list_any};
ghost use Rattle.std.specs.BTreeMap.{get};
ghost use Rattle.std.specs.Ordering.{nat_cmp};
ghost use Rattle.b1_model.specs.Opening.{held_by, from_owner, is_same, after_wire};
ghost use Rattle.b1_model.specs.Held.{AreIndexed};

use crate::naming::Wire;
use std::alloc::{AllocError, Global};
use std::collections::BTreeMap;
use std::marker::Model;

/// The wires so far, each from the owner of its node and by the owner's own number, once for each peer and node.
#[derive(Drop)]
pub struct Held {
    wires: Vec<Wire>,
    /// The place of a wire by what it says: giver, getter and number.
    places: BTreeMap<(u32, u32, u64), usize>,
    /// The wire that gave a peer its node of an index.
    rows: BTreeMap<(u32, u64), Wire>,
    /// How many nodes a peer holds.
    counts: BTreeMap<u32, u64>,
}

impl Model for Held {
    ghost use Rattle.std.specs.Prelude.{List};
    ghost use Rattle.b1_model.specs.declared.naming.Wire.{Wire};
    ghost use Rattle.b1_model.specs.Held.{AreIndexed};

    ghost Value = { List Wire };

    ghost view = { λ h. h.wires.items };

    ghost invariant = { λ h. AreIndexed h.wires.items h.places h.rows h.counts };
}

impl Held {
    /// Nothing is held.
    pub fn new(alloc: Global) -> Held
        ensures { result ≡ [] }
    {
        Held {
            wires: Vec::new(alloc),
            places: BTreeMap::new(alloc),
            rows: BTreeMap::new(alloc),
            counts: BTreeMap::new(alloc),
        }
    }

    /// The wire from the owner that gives what a wire gives; `None` where the wire's number names nothing. Takes a time of
    /// log n.
    pub fn from_owner(&self, wire: &Wire) -> Option<Wire>
        ensures { result ≡ from_owner self.now wire.now }
    {
        match wire.number % 4 {
            0 => Some(*wire),
            2 => {
                let given = self.nth_held(wire.from, wire.number / 4)?;
                Some(Wire {
                    from: given.from,
                    to: wire.to,
                    number: given.number,
                })
            }
            _ => None,
        }
    }

    /// Makes a wire. An error is want of memory. Takes a time of log n.
    pub fn add(&mut self, wire: &Wire) -> Result<(), AllocError>
        ensures { OnOk result (self.new ≡ after_wire self.old wire.now) }
    {
        match self.from_owner(wire) {
            Some(given) => {
                if self.holds(&given) {
                    return Ok(());
                }
                let places = &mut self.places;
                put(
                    &mut self.wires,
                    places,
                    &mut self.rows,
                    &mut self.counts,
                    given,
                )
            }
            None => Ok(()),
        }
    }

    /// The wire that gave a peer its node of this index.
    fn nth_held(&self, peer: u32, index: u64) -> Option<Wire>
        ensures { result ≡ slice_get (held_by self.now peer) index }
    {
        if index < count_of(&self.counts, peer) {
            self.rows.get(&(peer, index)).copied()
        } else {
            None
        }
    }

    /// Whether a wire stands among those so far.
    fn holds(&self, wire: &Wire) -> bool
        ensures { result ≡ list_any (λ h. is_same h wire.now) self.now }
    {
        match self.places.get(&(wire.from, wire.to, wire.number)) {
            Some(place) => *place < self.wires.len() && self.wires[*place] == *wire,
            None => false,
        }
    }
}

/// How many nodes a peer holds.
fn count_of(counts: &BTreeMap<u32, u64>, peer: u32) -> u64
    ensures { result ≡ unwrap_or (get nat_cmp counts.now peer) 0 }
{
    match counts.get(&peer) {
        Some(count) => *count,
        None => 0,
    }
}

/// Adds a new wire, which the list gets last: without memory for an index, no index says more than the list.
fn put(
    wires: &mut Vec<Wire>,
    places: &mut BTreeMap<(u32, u32, u64), usize>,
    rows: &mut BTreeMap<(u32, u64), Wire>,
    counts: &mut BTreeMap<u32, u64>,
    wire: Wire,
) -> Result<(), AllocError>
    requires indexed { AreIndexed wires.old.items places.old rows.old counts.old }
    requires new { list_any (λ h. is_same h wire) wires.old.items ≡ false }
    ensures indexed { AreIndexed wires.new.items places.new rows.new counts.new }
    ensures put { OnOk result (wires.new.items ≡ wires.old.items ++ wire ∷ []) }
{
    wires.reserve(1)?;
    let count = count_of(counts, wire.to);
    places.insert((wire.from, wire.to, wire.number), wires.len())?;
    rows.insert((wire.to, count), wire)?;
    counts.insert(wire.to, count + 1)?;
    wires.push(wire)?;
    Ok(())
}
