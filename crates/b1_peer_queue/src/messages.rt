ghost use Rattle.std.specs.Prelude.{◌≡◌, ◌≤◌, length};
ghost use Rattle.b1_model.specs.MachinePool.{slice_len as slice_len_of};
ghost use Rattle.b1_model.specs.MachineSend.{with_slots};
ghost use Rattle.b1_peer_queue.specs.Charged.{IsSmall, HasSlots, charge_for as charge_for_message, charge_of as charge_of_entry, reason_of as reason_for};

use b1_model::{Charge, Entry, MOST_HANDLES, MOST_PAYLOAD, Reason, Slot, Slots};
use b1_quota::Over;

/// The length of a message's slice.
fn slice_len(payload: u32, handles: u32) -> u32
    requires payload { payload ≤ MOST_PAYLOAD }
    requires handles { handles ≤ MOST_HANDLES }
    ensures { result ≡ slice_len_of payload handles }
{
    ((payload + 7) / 8 * 8 + 8 * handles).max(8)
}

/// What a message is charged.
pub fn charge_for(payload: u32, handles: u32) -> Charge
    requires payload { payload ≤ MOST_PAYLOAD }
    requires handles { handles ≤ MOST_HANDLES }
    ensures { result ≡ charge_for_message payload handles }
{
    Charge {
        entries: 1,
        bytes: slice_len(payload, handles),
        handles,
    }
}

/// Whom an entry is charged to, and what; `None` for a notice.
pub fn charge_of(entry: &Entry) -> Option<(u32, Charge)>
    requires { IsSmall entry.now }
    ensures { result ≡ charge_of_entry entry.now }
{
    match entry {
        Entry::Message {
            user,
            len,
            with,
            ..
        } => Some((*user, charge_for(*len, with.len() as u32))),
        _ => None,
    }
}

/// A quota's refusal as a reason.
pub fn reason_of(over: Over) -> Reason
    ensures { result ≡ reason_for over }
{
    Reason::Quota {
        what: over.what,
        own: over.own,
        others: over.others,
        limit: over.limit,
        asked: over.asked,
    }
}

/// Writes slots over as many others.
fn fill(old: &mut Slots, new: &[Slot])
    requires { length old.old ≡ length new.now }
    ensures { old.new ≡ new.now }
{
    for i in 0..new.len() {
        old.replace(i, new[i]);
    }
}

/// Gives an entry its slots.
pub fn set_slots(entry: &mut Entry, slots: &[Slot])
    requires { HasSlots (length slots.now) entry.old }
    ensures { entry.new ≡ with_slots slots.now entry.old }
{
    match entry {
        Entry::Message { slots: old, .. } => fill(old, slots),
        _ => {}
    }
}
