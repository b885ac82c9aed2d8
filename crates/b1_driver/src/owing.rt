ghost use Rattle.std.specs.Prelude.{◌≡◌, ◌==◌, ◌+◌, ◌<◌, ◌≤◌, [], ◌∷◌, ◌++◌, drop, length, option_to_list, slice_get, filter_map, zip, IfOk, OnOk, vec_len, vec_capacity};
ghost use Rattle.b1_model.specs.MachineReceive.{reference_of};
ghost use Rattle.b1_model.specs.MachineTook.{drops_of, place_references};

use b1_model::{Dead, Drops, NodeRef, Owed, OwedDrop, Sending, Slot};
use std::alloc::{AllocError, Global};
use std::marker::Model;

/// The drops that a driver owes: the references of one holder, with one clock.
#[derive(Drop)]
pub struct Owing {
    holder: u32,
    clock: u64,
    references: Vec<(NodeRef, u64)>,
    item: Drops,
    alloc: Global,
}

impl Model for Owing {
    ghost use Rattle.std.specs.Prelude.{◌++◌, ◌≤◌, vec_capacity};
    ghost use Rattle.b1_model.specs.MachineTook.{drops_of};
    ghost use Rattle.b1_driver.specs.Parts.{Owed};

    ghost Value = { Owed };

    ghost view = { λ o. record {
      drops = drops_of o.holder o.clock (o.references.items ++ o.item);
      room = vec_capacity o.references;
    } };

    ghost invariant = { λ o. 1 ≤ vec_capacity o.references };
}

impl Owing {
    /// No drop is owed. An error is want of memory.
    pub fn make(alloc: Global) -> Result<Owing, AllocError>
        ensures { IfOk result (λ o. o.drops ≡ []) }
    {
        Ok(Owing {
            holder: 0,
            clock: 0,
            references: Vec::with_capacity(alloc, 1)?,
            item: Drops::new(alloc),
            alloc,
        })
    }

    /// Makes room for `n` drops. An error is want of memory.
    pub fn reserve(&mut self, n: usize) -> Result<(), AllocError>
        ensures drops { self.new.drops ≡ self.old.drops }
        ensures enough { OnOk result (n ≤ self.new.room) }
        ensures room { self.old.room ≤ self.new.room }
    {
        self.references.reserve(n)
    }

    /// Whether no drop is owed.
    pub fn is_empty(&self) -> bool
        ensures { result ≡ (length self.now.drops == 0) }
    {
        self.references.is_empty() && self.item.is_empty()
    }

    /// The first drop that is owed.
    pub fn first(&self) -> Option<OwedDrop>
        ensures { result ≡ slice_get self.now.drops 0 }
    {
        let (node, amount) = first_of(&self.references, self.item.as_slice())?;
        Some(OwedDrop {
            node,
            holder: self.holder,
            amount,
            clock: self.clock,
        })
    }

    /// The first drop was done.
    pub fn take_first(&mut self)
        ensures drops { self.new.drops ≡ drop 1 self.old.drops }
        ensures room { self.new.room ≡ self.old.room }
    {
        if self.references.is_empty() {
            drop_first(self.alloc, &mut self.item);
        } else {
            self.references.remove(0);
        }
    }

    /// A released reference is owed, with its holder's clock.
    pub fn owe_one(&mut self, holder: u32, owed: Owed)
        requires { self.old.drops ≡ [] }
        ensures drops { self.new.drops ≡ drops_of holder owed.clock ((owed.node, 1) ∷ []) }
        ensures room { self.new.room ≡ self.old.room }
    {
        self.holder = holder;
        self.clock = owed.clock;
        self.references.push_reserved((owed.node, 1));
    }

    /// The references of an item are owed, with the holder's clock.
    pub fn owe_item(&mut self, holder: u32, item: Dead)
        requires { self.old.drops ≡ [] }
        ensures drops { self.new.drops ≡ drops_of holder item.clock item.drops }
        ensures room { self.new.room ≡ self.old.room }
    {
        self.holder = holder;
        self.clock = item.clock;
        self.item = item.drops;
    }

    /// The references of a place of a SEND are owed, with the SEND's stamp.
    pub fn owe_place(&mut self, holder: u32, stamp: u64, sending: &Sending, place: u32)
        requires nothing { self.old.drops ≡ [] }
        requires room { length sending.now.begun.with ≤ self.old.room }
        ensures drops { self.new.drops
            ≡ drops_of holder stamp (place_references sending.now place) }
        ensures room { self.new.room ≡ self.old.room }
    {
        self.holder = holder;
        self.clock = stamp;
        let nodes = sending.begun.with.as_slice();
        match sending.slots.get(place as usize) {
            Some(slots) => add_references(&mut self.references, nodes, slots.as_slice()),
            None => {}
        }
    }
}

// The first reference of two lists.
fn first_of(references: &[(NodeRef, u64)], item: &[(NodeRef, u64)]) -> Option<(NodeRef, u64)>
    ensures { result ≡ slice_get (references.now ++ item.now) 0 }
{
    match references.first() {
        Some(reference) => Some(*reference),
        None => item.first().copied(),
    }
}

// Leaves the first of a list out.
fn drop_first(alloc: Global, item: &mut Drops)
    ensures { item.new ≡ drop 1 item.old }
{
    let mut references = std::mem::replace(item, Drops::new(alloc)).into_vec();
    if !references.is_empty() {
        references.remove(0);
    }
    *item = Drops::from_vec(references);
}

// Puts the attached nodes behind the others, each once.
fn add_references(references: &mut Vec<(NodeRef, u64)>, nodes: &[NodeRef], slots: &[Slot])
    requires { vec_len references.old + length nodes.now ≤ vec_capacity references.old }
    ensures items { references.new.items ≡ references.old.items
        ++ filter_map reference_of (zip nodes.now slots.now) }
    ensures capacity { vec_capacity references.new ≡ vec_capacity references.old }
{
    for (index, node) in nodes.iter().enumerate() {
        let Some(slot) = slot_at(slots, index) else {
            return;
        };
        add_reference(references, *node, slot);
    }
}

// The slot at an index.
fn slot_at(slots: &[Slot], index: usize) -> Option<Slot>
    ensures { result ≡ slice_get slots.now index }
{
    slots.get(index).copied()
}

// Puts a node behind the others, once, if it is attached.
fn add_reference(references: &mut Vec<(NodeRef, u64)>, node: NodeRef, slot: Slot)
    requires { vec_len references.old < vec_capacity references.old }
    ensures items { references.new.items ≡ references.old.items
        ++ option_to_list (reference_of (node, slot)) }
    ensures len { vec_len references.new ≤ vec_len references.old + 1 }
    ensures capacity { vec_capacity references.new ≡ vec_capacity references.old }
{
    match slot {
        Slot::Attached => references.push_reserved((node, 1)),
        Slot::Unattached | Slot::Own | Slot::Void => {}
    }
}
