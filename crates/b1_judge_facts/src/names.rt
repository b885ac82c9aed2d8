ghost use Rattle.std.specs.Prelude.{◌≡◌, false, if◌then◌else◌, [], ◌∷◌, ◌++◌, map, Option, Some, IfOk, OnOk};
ghost use Rattle.b1_model.specs.Names.{is_known, add_new, own_node, number_at};
ghost use Rattle.b1_judge_facts.specs.Indexes.{HasPlaces, named_at};
ghost use Rattle.b1_judge_facts.specs.Kept.{is_gone};
ghost use Rattle.b1_judge_facts.specs.Steps.{with_name, live};

use crate::gone::Gone;
use crate::node::NodeId;
use b1_model::Items;
use std::alloc::{AllocError, Global};
use std::collections::BTreeMap;
use std::marker::Model;

/// An own number whose node was made, and the epoch in which it was made.
#[derive(Clone, Copy, Debug)]
pub(crate) struct Name {
    /// A multiple of 4.
    number: u64,
    /// How often the peer had flushed its queue.
    epoch: u64,
}

impl Model for Name {
    ghost use Rattle.b1_model.specs.Names.{Name as OwnName};

    ghost Value = { OwnName };

    ghost view = { λ x. record { number = x.number; epoch = x.epoch } };

    ghost inverse = { λ x. record { number = x.number; epoch = x.epoch } };
}

/// The own numbers of a peer, in the order of their nodes' places.
#[derive(Drop)]
pub(crate) struct Names {
    names: Vec<Name>,
    /// The place of each number.
    places: BTreeMap<u64, usize>,
}

impl Model for Names {
    ghost use Rattle.std.specs.Prelude.{List};
    ghost use Rattle.b1_model.specs.Names.{Name as OwnName};

    ghost Value = { List OwnName };

    ghost use Rattle.b1_judge_facts.specs.Indexes.{HasPlaces};

    ghost view = { λ x. x.names.items };

    ghost invariant = { λ x. HasPlaces x.names.items x.places };
}

impl Names {
    /// No numbers.
    pub(crate) fn new(alloc: Global) -> Names
        ensures { result ≡ [] }
    {
        Names {
            names: Vec::new(alloc),
            places: BTreeMap::new(alloc),
        }
    }

    /// Adds the own numbers that aren't known yet, as made in an epoch. Takes a time of log n for each.
    pub(crate) fn add(&mut self, epoch: u64, numbers: &[u64]) -> Result<(), AllocError>
        ensures { OnOk result (self.new ≡ add_new epoch self.old numbers.now) }
    {
        for number in numbers {
            self.add_one(epoch, *number)?;
        }
        Ok(())
    }

    /// Adds a number, if it is an own one and isn't known yet. Takes a time of log n.
    pub(crate) fn add_one(&mut self, epoch: u64, number: u64) -> Result<(), AllocError>
        ensures { OnOk result (self.new ≡ with_name epoch number self.old) }
    {
        if number % 4 != 0 || self.is_known(number) {
            return Ok(());
        }
        put(&mut self.names, &mut self.places, Name { number, epoch })
    }

    /// Whether a number stands among the names. Takes a time of log n.
    fn is_known(&self, number: u64) -> bool
        ensures { result ≡ is_known number self.now }
    {
        self.places.contains_key(&number)
    }

    /// The node that an own number names. Takes a time of log n.
    pub(crate) fn node(&self, owner: u32, number: u64) -> Option<NodeId>
        ensures { result ≡ own_node owner self.now number }
    {
        match self.places.get(&number) {
            Some(place) => node_at(self.names.as_slice(), owner, *place),
            None => None,
        }
    }

    /// All nodes of a peer but those that are gone. Takes a time in proportion to the nodes that were made since the
    /// last time that all were gone, but for a logarithm. An error is want of memory.
    pub(crate) fn live(
        &self,
        alloc: Global,
        owner: u32,
        gone: &mut Gone,
    ) -> Result<Items<Option<NodeId>>, AllocError>
        ensures nodes { IfOk result (λ nodes. nodes
            ≡ map Some (live (is_gone gone.old) owner self.now)) }
        ensures gone { gone.new ≡ gone.old }
    {
        let mut nodes = Vec::new(alloc);
        let first = gone.skip(owner, self.names.len());
        for serial in first..self.names.len() {
            let node = NodeId {
                owner,
                serial: serial as u64,
                epoch: self.names[serial].epoch,
            };
            push_live(&mut nodes, node, gone)?;
        }
        Ok(Items::from_vec(nodes))
    }

    /// The own number of the node at a place.
    pub(crate) fn number_at(&self, serial: u64) -> Option<u64>
        ensures { result ≡ number_at self.now serial }
    {
        match self.names.get(serial as usize) {
            Some(name) => Some(name.number),
            None => None,
        }
    }

    /// The same numbers again. An error is want of memory.
    pub(crate) fn copy(&self, alloc: Global) -> Result<Names, AllocError>
        ensures { IfOk result (λ names. names ≡ self.now) }
    {
        Ok(Names {
            names: Vec::from_slice(alloc, self.names.as_slice())?,
            places: self.places.clone()?,
        })
    }
}

/// Puts a name that isn't known behind the others. An error is want of memory.
fn put(
    names: &mut Vec<Name>,
    places: &mut BTreeMap<u64, usize>,
    name: Name,
) -> Result<(), AllocError>
    requires placed { HasPlaces names.old.items places.old }
    requires new { is_known name.number names.old.items ≡ false }
    ensures placed { HasPlaces names.new.items places.new }
    ensures put { OnOk result (names.new.items ≡ names.old.items ++ name ∷ []) }
{
    names.reserve(1)?;
    places.insert(name.number, names.len())?;
    match names.push(name) {
        Ok(()) => Ok(()),
        Err(_) => unreachable!(),
    }
}

/// The node of the name at a place.
fn node_at(names: &[Name], owner: u32, place: usize) -> Option<NodeId>
    ensures { result ≡ named_at owner place names.now }
{
    match names.get(place) {
        Some(name) => Some(NodeId {
            owner,
            serial: place as u64,
            epoch: name.epoch,
        }),
        None => None,
    }
}

/// Adds a node, unless it is gone.
fn push_live(nodes: &mut Vec<Option<NodeId>>, node: NodeId, gone: &Gone) -> Result<(), AllocError>
    ensures { OnOk result (nodes.new.items ≡ nodes.old.items
        ++ (if is_gone gone.now node then [] else Some node ∷ [])) }
{
    if gone.has(&node) {
        return Ok(());
    }
    nodes.push(Some(node))?;
    Ok(())
}
