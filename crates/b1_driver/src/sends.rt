ghost use Rattle.std.specs.Prelude.{◌≡◌, ◌+◌, ◌<◌, ◌≤◌, ◌^◌, [], get_or, length, set, vec_capacity};
ghost use Rattle.b1_model.specs.MachineDriver.{accepted_from, node_of_place, slot_of, collected_with, with_slot, attaching, staging, unstaging, place_done, syncing, send_of};
ghost use Rattle.b1_driver.specs.Stages.{send_phase, send_turn, send_handles, send_after_handles, unattached, IsStaging, IsSend, IsSendAfter};

use crate::places::{accepted_from as first_accepted, all_refused, is_place};
use crate::stage::{SendAfter, SendStage};
use b1_model::{
    Answer, Attach, Begun, Command, NodeRef, NodeRefs, Places, Reason, Refused, Sending, Slot,
    SlotLists, Slots,
};
use std::alloc::Global;

/// The node at a place of a list.
pub fn node_of_place(nodes: &NodeRefs, place: usize) -> NodeRef
    ensures { result ≡ node_of_place nodes.now place }
{
    match nodes.get(place) {
        Some(node) => *node,
        None => NodeRef {
            owner: 0,
            serial: 0,
        },
    }
}

// Whether a command is a SEND with CONTINUE.
fn goes_on(command: &Command) -> bool
    ensures { result ≡ (send_of command.now).go_on }
{
    match command {
        Command::Send(send) => send.go_on,
        _ => false,
    }
}

/// A SEND attaches from a handle for a place on, or is at its stamp.
fn attaching(sending: Sending, place: u32, handle: usize) -> SendStage
    requires { length sending.places < 2 ^ 32 }
    ensures phase { send_phase result ≡ attaching sending place handle }
    ensures holds { IsSend result }
    ensures handles { send_handles result ≤ length sending.begun.with }
{
    let handles = sending.begun.with.len();
    if handle < handles {
        return SendStage::Attaching {
            sending,
            place,
            handle,
        };
    }
    let next = first_accepted(place as usize + 1, sending.places.as_slice());
    if 0 < handles && is_place(next, sending.places.as_slice()) {
        return SendStage::Attaching {
            sending,
            place: next,
            handle: 0,
        };
    }
    SendStage::Stamping { sending }
}

/// After a place of a SEND was done.
fn staging(begun: Begun, places: Vec<Option<Reason>>, slots: SlotLists, collected: u64) -> SendAfter
    requires few_destinations { length begun.to < 2 ^ 32 }
    requires few_places { length places.items < 2 ^ 32 }
    requires room { length begun.to ≤ vec_capacity places }
    requires slots { slots ≡ unattached begun }
    ensures turn { send_turn result ≡ staging begun places.items collected }
    ensures holds { IsSendAfter result }
    ensures handles { send_after_handles result ≤ length begun.with }
{
    if places.len() < begun.to.len() {
        return SendAfter::Goes(SendStage::Staging {
            begun,
            places,
            slots,
            collected,
        });
    }
    let first = first_accepted(0, &places);
    if !is_place(first, &places) {
        return SendAfter::Ends(all_refused(&places));
    }
    let sending = Sending {
        begun,
        places: Places::from_vec(places),
        collected,
        slots,
    };
    SendAfter::Goes(attaching(sending, first, 0))
}

/// A refused SEND takes back what it staged, from a place on.
fn unstaging(begun: Begun, places: Places, refused: Refused, place: u32) -> SendAfter
    requires { length places < 2 ^ 32 }
    ensures turn { send_turn result ≡ unstaging begun places refused place }
    ensures holds { IsSendAfter result }
    ensures handles { send_after_handles result ≡ 0 }
{
    if !is_place(place, places.as_slice()) {
        return SendAfter::Ends(Answer::Refused(refused));
    }
    SendAfter::Goes(SendStage::Unstaging {
        begun,
        places,
        refused,
        place,
    })
}

/// A destination answered.
pub fn place_done(
    command: &Command,
    begun: Begun,
    places: Vec<Option<Reason>>,
    slots: SlotLists,
    collected: u64,
    got: Result<u64, Reason>,
) -> SendAfter
    requires { IsStaging begun places.items (vec_capacity places) slots }
    ensures turn { send_turn result ≡ place_done command.now begun places.items collected got }
    ensures holds { IsSendAfter result }
    ensures handles { send_after_handles result ≤ length begun.with }
{
    let mut places = places;
    let place = places.len() as u32;
    match got {
        Ok(clock) => {
            places.push_reserved(None);
            staging(begun, places, slots, collected.max(clock))
        }
        Err(reason) => {
            places.push_reserved(Some(reason));
            if goes_on(command) {
                return staging(begun, places, slots, collected);
            }
            let refused = Refused {
                reason,
                place: Some(place),
            };
            let first = first_accepted(0, &places);
            unstaging(begun, Places::from_vec(places), refused, first)
        }
    }
}

/// A staged message was taken back.
pub fn unstage_done(begun: Begun, places: Places, refused: Refused, place: u32) -> SendAfter
    requires { length places < 2 ^ 32 }
    ensures turn { send_turn result
        ≡ unstaging begun places refused (accepted_from (place + 1) places) }
    ensures holds { IsSendAfter result }
    ensures handles { send_after_handles result ≡ 0 }
{
    let next = first_accepted(place as usize + 1, places.as_slice());
    unstaging(begun, places, refused, next)
}

// What a carried handle is by its owner's answer.
fn slot_of(got: Attach) -> Slot
    ensures { result ≡ slot_of got }
{
    match got {
        Attach::Counted => Slot::Attached,
        Attach::Own => Slot::Own,
        Attach::Void { .. } => Slot::Void,
    }
}

// The clock that an attach collects.
fn collected_with(collected: u64, got: Attach) -> u64
    ensures { result ≡ collected_with collected got }
{
    match got {
        Attach::Counted | Attach::Own => collected,
        Attach::Void { stamp } => collected.max(stamp),
    }
}

// Puts a slot in its place.
fn set_slot(alloc: Global, slots: &mut SlotLists, place: usize, handle: usize, slot: Slot)
    ensures { slots.new ≡ set slots.old place (set (get_or slots.old place []) handle slot) }
{
    if place < slots.len() {
        let mut list = slots.replace(place, Slots::new(alloc));
        set_in(&mut list, handle, slot);
        slots.replace(place, list);
    }
}

// Puts a slot in its place of a list.
fn set_in(list: &mut Slots, handle: usize, slot: Slot)
    ensures { list.new ≡ set list.old handle slot }
{
    if handle < list.len() {
        list.replace(handle, slot);
    }
}

/// A carried node's owner answered.
pub fn attach_done(
    alloc: Global,
    sending: Sending,
    place: u32,
    handle: usize,
    got: Attach,
) -> SendStage
    requires few { length sending.places < 2 ^ 32 }
    requires handle { handle < length sending.begun.with }
    ensures phase { send_phase result
        ≡ attaching (with_slot sending place handle got) place (handle + 1) }
    ensures holds { IsSend result }
    ensures handles { send_handles result ≤ length sending.begun.with }
{
    let mut sending = sending;
    set_slot(
        alloc,
        &mut sending.slots,
        place as usize,
        handle,
        slot_of(got),
    );
    sending.collected = collected_with(sending.collected, got);
    attaching(sending, place, handle + 1)
}

/// A SEND with its stamp syncs from a place on, then commits.
pub fn syncing(sending: Sending, stamp: u64, from: usize) -> SendStage
    requires { length sending.places < 2 ^ 32 }
    ensures phase { send_phase result ≡ syncing sending stamp (accepted_from from sending.places) }
    ensures holds { IsSend result }
    ensures handles { send_handles result ≤ length sending.begun.with }
{
    let place = first_accepted(from, sending.places.as_slice());
    if is_place(place, sending.places.as_slice()) {
        return SendStage::Syncing {
            sending,
            stamp,
            place,
        };
    }
    let place = first_accepted(0, sending.places.as_slice());
    SendStage::Committing {
        sending,
        stamp,
        place,
    }
}
