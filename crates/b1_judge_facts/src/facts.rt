ghost use Rattle.std.specs.Prelude.{◌≡◌, length, AllPairs, IfOk};
ghost use Rattle.std.specs.Option.{option_copied};
ghost use Rattle.b1_model.specs.Opening.{IsOpening};
ghost use Rattle.b1_model.specs.Ledger.{order, message, slots, doomed_at, is_late};
ghost use Rattle.b1_judge_facts.specs.Epochs.{IsBeforeEpoch};
ghost use Rattle.b1_judge_facts.specs.Facts.{Rises, doomed};
ghost use Rattle.b1_judge_facts.specs.Orders.{IsNotAfter};
ghost use Rattle.b1_judge_facts.specs.Steps.{slots_for};

use crate::epochs::{first_places, nodes_at};
use crate::gather::{Gathering, slots};
use crate::keep::comes_before;
use crate::message::Message;
use crate::node::NodeId;
use crate::standing::Standing;
use crate::start::starts;
use crate::table::slot;
use b1_model::{Answer, Items, Key, Opening, Record, Stamp, Stamps, order_of};
use std::alloc::{AllocError, Global};
use std::collections::BTreeMap;
use std::marker::Model;

/// What a record's sends and destructions named: the bus order, the messages, the nodes that are destroyed, and the first
/// call about each epoch.
///
/// It takes memory in proportion to the record.
#[derive(Drop)]
pub struct Facts<'a> {
    pub(crate) opening: &'a Opening,
    pub(crate) rec: &'a Record,
    /// Where each peer stands before its first call.
    pub(crate) starts: Vec<Standing>,
    order: Stamps,
    /// The messages, by stamp and origin.
    messages: BTreeMap<(u64, u32), Message<'a>>,
    /// The nodes of each destruction, by stamp and origin.
    destroyed: BTreeMap<(u64, u32), Items<Option<NodeId>>>,
    /// The stamp and origin of the first destruction of each node, by owner and serial.
    first: BTreeMap<(u32, u64), (u64, u32)>,
    /// The place in the bus order of the first call about each epoch, by peer and epoch.
    places: BTreeMap<(u32, u64), usize>,
}

impl<'a> Model for Facts<'a> {
    ghost use Rattle.b1_judge_facts.specs.Facts.{Gathered};

    ghost Value = { Gathered };

    ghost use Rattle.b1_judge_facts.specs.Known.{IsFacts};

    ghost view = { λ f. record { wires = f.opening.now.wires; rec = f.rec.now } };

    ghost invariant = { λ f. IsFacts f.opening.now f.rec.now f.starts.items f.order
        f.messages f.destroyed f.first f.places };
}

impl<'a> Facts<'a> {
    /// Gathers them in two passes over the bus order. An error is want of memory.
    pub fn gather(
        alloc: Global,
        opening: &'a Opening,
        rec: &'a Record,
    ) -> Result<Facts<'a>, AllocError>
        requires opening { IsOpening opening.now }
        requires peers { length rec.now.peers ≡ length opening.now.peers }
        requires order { Rises rec.now }
        ensures { IfOk result (λ facts. (facts.wires ≡ opening.now.wires) × (facts.rec ≡ rec.now)) }
    {
        let order = order_of(alloc, rec)?;
        let mut gathering = Gathering::start(alloc, rec, starts(alloc, opening, rec)?)?;
        for stamp in order.as_slice() {
            gathering.take(stamp)?;
        }
        let Gathering {
            messages,
            destroyed,
            first,
            ..
        } = gathering;
        let places = first_places(alloc, order.as_slice(), &messages, &destroyed)?;
        Ok(Facts {
            opening,
            rec,
            starts: starts(alloc, opening, rec)?,
            order,
            messages,
            destroyed,
            first,
            places,
        })
    }

    /// The record.
    pub fn rec(&self) -> &'a Record
        ensures { result.now ≡ self.now.rec }
    {
        self.rec
    }

    /// The sends and destructions in the bus order.
    pub fn order(&self) -> &[Stamp]
        ensures order { result.now ≡ order self.now.rec }
        ensures sorted { AllPairs IsNotAfter result.now }
    {
        self.order.as_slice()
    }

    /// The message with a stamp of an origin. Takes a time of log n.
    pub fn message(&self, stamp: u64, origin: u32) -> Option<&Message<'a>>
        ensures { option_copied result ≡ message self.now.wires self.now.rec stamp origin }
    {
        self.messages.get(&(stamp, origin))
    }

    /// The nodes of the slots of what an answer received at a peer; none where it is no message.
    pub(crate) fn slots(&self, peer: u32, answer: &Answer) -> &[Option<NodeId>]
        ensures { result.now ≡ slots_for (slots self.now.wires self.now.rec peer) answer.now }
    {
        slots(&self.messages, peer, answer)
    }

    /// How many of the sends and destructions stand in the bus order before the first that goes to a node of a peer's
    /// epoch or destroys one; all of them where there is none. Takes a time of log n.
    pub fn before_epoch(&self, peer: u32, epoch: u64) -> usize
        ensures { IsBeforeEpoch self.now.wires self.now.rec peer epoch result }
    {
        match self.places.get(&(peer, epoch)) {
            Some(place) => *place,
            None => self.order.as_slice().len(),
        }
    }

    /// The nodes of the destruction with a stamp of an origin; none where there is no such. Takes a time of log n.
    pub fn doomed(&self, stamp: u64, origin: u32) -> &[Option<NodeId>]
        ensures { result.now ≡ doomed self.now.wires self.now.rec stamp origin }
    {
        nodes_at(&self.destroyed, stamp, origin)
    }

    /// The node of the destroy notice with a key. Takes a time of log n.
    pub fn doomed_at(&self, key: &Key) -> Option<NodeId>
        ensures { result ≡ doomed_at self.now.wires self.now.rec key.now }
    {
        slot(self.doomed(key.stamp, key.origin), key.index as usize)
    }

    /// Whether a node was destroyed before the call of a key. Takes a time of log n.
    pub fn is_late(&self, node: &NodeId, key: &Key) -> bool
        ensures { result ≡ is_late self.now.wires self.now.rec node.now key.now }
    {
        comes_before(self.first.get(&(node.owner, node.serial)), key)
    }
}
