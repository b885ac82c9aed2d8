ghost use Rattle.std.specs.Prelude.{◌≡◌, slice_get, Some};
ghost use Rattle.b1_model.specs.Ledger.{to_at, is_accepted, is_entry, slots_in};

use crate::node::NodeId;
use crate::table::slot;
use b1_model::{Bytes, Items, Places, Reason};
use std::marker::Model;

/// A send of a record, with the nodes that its numbers named at its origin.
#[derive(Drop)]
pub struct Message<'a> {
    to: Items<Option<NodeId>>,
    carried: Items<Option<NodeId>>,
    places: &'a Places,
    payload: &'a Bytes,
}

impl<'a> Model for Message<'a> {
    ghost use Rattle.b1_model.specs.Ledger.{Message as Messages};

    ghost Value = { Messages };

    ghost view = { λ m. record {
      to = m.to;
      carried = m.carried;
      places = m.places.now;
      payload = m.payload.now;
    } };
}

impl<'a> Message<'a> {
    /// A send with these nodes. Takes no memory.
    pub(crate) fn new(
        to: Items<Option<NodeId>>,
        carried: Items<Option<NodeId>>,
        places: &'a Places,
        payload: &'a Bytes,
    ) -> Message<'a>
        ensures { result ≡ record {
          to = to;
          carried = carried;
          places = places.now;
          payload = payload.now;
        } }
    {
        Message {
            to,
            carried,
            places,
            payload,
        }
    }

    /// The node of each destination; `None` where its number named nothing.
    pub fn to(&self) -> &[Option<NodeId>]
        ensures { result.now ≡ self.now.to }
    {
        self.to.as_slice()
    }

    /// The node of each carried handle; `None` where its number named nothing.
    pub fn carried(&self) -> &[Option<NodeId>]
        ensures { result.now ≡ self.now.carried }
    {
        self.carried.as_slice()
    }

    /// What each destination answered.
    pub fn places(&self) -> &[Option<Reason>]
        ensures { result.now ≡ self.now.places }
    {
        self.places.as_slice()
    }

    /// The node that a place goes to; `None` past the last, and where its number named nothing.
    pub fn to_at(&self, place: u32) -> Option<NodeId>
        ensures { result ≡ to_at self.now place }
    {
        slot(self.to.as_slice(), place as usize)
    }

    /// Whether a place makes an entry at a peer: it was accepted, and goes to a node of the peer.
    pub fn is_entry(&self, peer: u32, place: u32) -> bool
        ensures { result ≡ is_entry peer place self.now }
    {
        if !is_accepted(self.places.as_slice(), place) {
            return false;
        }
        match self.to_at(place) {
            Some(node) => node.owner == peer,
            None => false,
        }
    }

    /// The nodes of the slots of the entry that a place makes at a peer; none where it makes no entry there.
    pub(crate) fn slots(&self, peer: u32, place: u32) -> &[Option<NodeId>]
        ensures { result.now ≡ slots_in peer place (Some self.now) }
    {
        if self.is_entry(peer, place) {
            self.carried.as_slice()
        } else {
            &[]
        }
    }

    /// The bytes.
    pub fn payload(&self) -> &[u8]
        ensures { result.now ≡ self.now.payload }
    {
        self.payload.as_slice()
    }
}

/// Whether a place was accepted.
fn is_accepted(places: &[Option<Reason>], place: u32) -> bool
    ensures { result ≡ is_accepted (slice_get places.now place) }
{
    match places.get(place as usize) {
        Some(refusal) => refusal.is_none(),
        None => false,
    }
}
