ghost use Rattle.std.specs.Prelude.{◌≡◌, ◌≤◌, [], max, replicate, IfOk, vec_len, vec_capacity};
ghost use Rattle.b1_model.specs.declared.parts.Slot.TheVariants.{Unattached};

use b1_model::{Reason, Slot, SlotLists, Slots};
use std::alloc::{AllocError, Global};
use std::marker::Model;

/// The room that a SEND needs for its places and slots, taken before it begins.
#[derive(Drop)]
pub struct SendRoom {
    places: Vec<Option<Reason>>,
    slots: Vec<Slots>,
    handles: usize,
}

impl Model for SendRoom {
    ghost use Rattle.std.specs.Prelude.{◌≡◌, [], replicate, vec_len, vec_capacity};
    ghost use Rattle.b1_model.specs.declared.parts.Slot.TheVariants.{Unattached};
    ghost use Rattle.b1_driver.specs.Parts.{Room};

    ghost Value = { Room };

    ghost view = { λ r. record {
      places = vec_capacity r.places;
      lists = vec_len r.slots;
      handles = r.handles;
    } };

    ghost invariant = { λ r. record {
      empty : r.places.items ≡ [];
      slots : r.slots.items ≡ replicate (vec_len r.slots) (replicate r.handles Unattached);
    } };
}

impl SendRoom {
    /// No room. It takes no memory.
    pub fn none(alloc: Global) -> SendRoom
        ensures { result ≡ record { places = 0; lists = 0; handles = 0 } }
    {
        SendRoom {
            places: Vec::new(alloc),
            slots: Vec::new(alloc),
            handles: 0,
        }
    }

    /// The room of a SEND to so many destinations with so many handles. An error is want of memory.
    pub fn make(alloc: Global, destinations: usize, handles: usize) -> Result<SendRoom, AllocError>
        ensures places { IfOk result (λ r. max 1 destinations ≤ r.places) }
        ensures lists { IfOk result (λ r. r.lists ≡ destinations) }
        ensures handles { IfOk result (λ r. r.handles ≡ handles) }
    {
        Ok(SendRoom {
            places: Vec::with_capacity(alloc, destinations.max(1))?,
            slots: slot_lists(alloc, destinations, handles)?,
            handles,
        })
    }

    /// Hands the room out, and has none then.
    pub fn take(&mut self, alloc: Global) -> (Vec<Option<Reason>>, SlotLists)
        ensures empty { result.0.items ≡ [] }
        ensures places { vec_capacity result.0 ≡ self.old.places }
        ensures handles { self.new.handles ≡ self.old.handles }
        ensures slots { result.1
            ≡ replicate self.old.lists (replicate self.old.handles Unattached) }
    {
        let places = std::mem::replace(&mut self.places, Vec::new(alloc));
        let slots = std::mem::replace(&mut self.slots, Vec::new(alloc));
        (places, SlotLists::from_vec(slots))
    }
}

// So many lists of slots, nothing attached in any. An error is want of memory.
fn slot_lists(alloc: Global, lists: usize, handles: usize) -> Result<Vec<Slots>, AllocError>
    ensures { IfOk result (λ v. v.items ≡ replicate lists (replicate handles Unattached)) }
{
    let mut all = Vec::with_capacity(alloc, lists)?;
    for _ in 0..lists {
        all.push(slot_list(alloc, handles)?)?;
    }
    Ok(all)
}

// So many slots, nothing attached. An error is want of memory.
fn slot_list(alloc: Global, handles: usize) -> Result<Slots, AllocError>
    ensures { IfOk result (λ list. list ≡ replicate handles Unattached) }
{
    Ok(Slots::from_vec(Vec::from_elem(alloc, Slot::Unattached, handles)?))
}
