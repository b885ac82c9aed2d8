ghost use Rattle.std.specs.Prelude.{◌≡◌, ◌≢◌, ◌≤◌, ℕ, ◌+◌, length, find, is_some, true, false, if◌then◌else◌};
ghost use Rattle.std.specs.VecDeque.{deque_capacity};
ghost use Rattle.std.specs.Option.{IfSome};
ghost use Rattle.b1_model.specs.MachineParts.{is_odd};
ghost use Rattle.b1_model.specs.MachineTables.{is_stage};
ghost use Rattle.b1_model.specs.MachineSend.{with_slots};
ghost use Rattle.b1_step.specs.Ordered.{Ascending, NewKey};
ghost use Rattle.b1_step.specs.Rights.{Has};
ghost use Rattle.b1_queue.specs.Queue.{restamped};
ghost use Rattle.b1_entry.specs.Table.{entry_at};
ghost use Rattle.b1_peer_queue.specs.Mail.{count, DistinctIndexes, NewUnder, committed_queue, notices_queue, staged_notices};
ghost use Rattle.b1_peer_queue.specs.Charged.{HasSlots};
ghost use Rattle.b1_peer_queue.specs.Rows.{IsTied, row, shown};

use crate::marks::{is_marked_at, mark_where, name_at, unmark};
use crate::messages::set_slots;
use crate::rows::{Rows, wanted_at};
use crate::wanted::Wanted;
use b1_model::{Key, Slot};
use b1_queue::QueueKind;

/// Gives the staged entry at a place another stamp.
fn restamp_in<Q: QueueKind>(rows: &mut Rows<Q>, key: Key, place: usize, new: Key)
    requires tied { IsTied rows.old.spare rows.old.len (Q.spare rows.old.queue)
        (Q.room rows.old.queue) (Q.listed rows.old.queue) rows.old.entries
        (deque_capacity rows.old.marks) rows.old.marks.items rows.old.names }
    requires there { Has (Q.listed rows.old.queue) (key, place) }
    requires new_key { NewKey new (shown rows.old.entries.slots (Q.listed rows.old.queue)) }
    requires staged { is_odd key.stamp ≡ true }
    requires same_origin { new.origin ≡ key.origin }
    requires same_index { new.index ≡ key.index }
    ensures tied { IsTied rows.new.spare rows.new.len (Q.spare rows.new.queue)
        (Q.room rows.new.queue) (Q.listed rows.new.queue) rows.new.entries
        (deque_capacity rows.new.marks) rows.new.marks.items rows.new.names }
    ensures listed { Q.listed rows.new.queue ≡ restamped place new (Q.listed rows.old.queue) }
    ensures slots { rows.new.entries.slots ≡ rows.old.entries.slots }
    ensures spare { rows.new.spare ≡ rows.old.spare }
{
    rows.queue.restamp(place, new);
    unmark(&mut rows.marks, key, place);
    let marked = is_marked_at(&rows.entries, new, place);
    mark_where(&mut rows.marks, marked, new, place);
    if name_at(&rows.entries, new, place).is_none() {
        rows.names.remove(place);
    }
}

/// Gives the message at a place its slots.
fn set_slots_at<Q: QueueKind>(rows: &mut Rows<Q>, key: Key, place: usize, slots: &[Slot])
    requires tied { IsTied rows.old.spare rows.old.len (Q.spare rows.old.queue)
        (Q.room rows.old.queue) (Q.listed rows.old.queue) rows.old.entries
        (deque_capacity rows.old.marks) rows.old.marks.items rows.old.names }
    requires there { Has (Q.listed rows.old.queue) (key, place) }
    requires fits { HasSlots (length slots.now) (row rows.old.entries.slots (key, place)).1 }
    ensures tied { IsTied rows.new.spare rows.new.len (Q.spare rows.new.queue)
        (Q.room rows.new.queue) (Q.listed rows.new.queue) rows.new.entries
        (deque_capacity rows.new.marks) rows.new.marks.items rows.new.names }
    ensures listed { Q.listed rows.new.queue ≡ Q.listed rows.old.queue }
    ensures here { row rows.new.entries.slots (key, place)
        ≡ (key, with_slots slots.now (row rows.old.entries.slots (key, place)).1) }
    ensures others { (other : ℕ) → other ≢ place
        → entry_at rows.new.entries.slots other ≡ entry_at rows.old.entries.slots other }
    ensures spare { rows.new.spare ≡ rows.old.spare }
{
    if let Some(entry) = rows.entries.get_mut(place) {
        set_slots(entry, slots);
    }
}

/// Gives the staged message of a driver for a place its final stamp and its slots. Whether there is one.
pub fn commit_in<Q: QueueKind>(
    rows: &mut Rows<Q>,
    origin: u32,
    index: u32,
    stamp: u64,
    slots: &[Slot],
) -> bool
    requires tied { IsTied rows.old.spare rows.old.len (Q.spare rows.old.queue)
        (Q.room rows.old.queue) (Q.listed rows.old.queue) rows.old.entries
        (deque_capacity rows.old.marks) rows.old.marks.items rows.old.names }
    requires one { count (is_stage origin index)
        (shown rows.old.entries.slots (Q.listed rows.old.queue))
        ≤ 1 }
    requires fits { IfSome (find (is_stage origin index)
        (shown rows.old.entries.slots (Q.listed rows.old.queue))) (λ f.
        HasSlots (length slots.now) f.1) }
    requires new_key { IfSome (find (is_stage origin index)
        (shown rows.old.entries.slots (Q.listed rows.old.queue))) (λ f.
        NewKey (record {
          stamp = stamp;
          origin = origin;
          index = index;
        }) (shown rows.old.entries.slots (Q.listed rows.old.queue))) }
    ensures tied { IsTied rows.new.spare rows.new.len (Q.spare rows.new.queue)
        (Q.room rows.new.queue) (Q.listed rows.new.queue) rows.new.entries
        (deque_capacity rows.new.marks) rows.new.marks.items rows.new.names }
    ensures found { result ≡ is_some
        (find (is_stage origin index) (shown rows.old.entries.slots (Q.listed rows.old.queue))) }
    ensures shows { shown rows.new.entries.slots (Q.listed rows.new.queue)
        ≡ committed_queue (find (is_stage origin index)
        (shown rows.old.entries.slots (Q.listed rows.old.queue))) origin index stamp slots.now
        (shown rows.old.entries.slots (Q.listed rows.old.queue)) }
    ensures spare { rows.new.spare ≡ rows.old.spare }
{
    let Some((key, place)) = wanted_at(rows, Wanted::Stage { origin, index }) else {
        return false;
    };
    set_slots_at(rows, key, place, slots);
    restamp_in(rows, key, place, Key { stamp, ..key });
    true
}

/// Gives the first staged notice of a driver its final stamp. Whether there was one.
fn restamp_first<Q: QueueKind>(rows: &mut Rows<Q>, origin: u32, stamp: u64) -> bool
    requires tied { IsTied rows.old.spare rows.old.len (Q.spare rows.old.queue)
        (Q.room rows.old.queue) (Q.listed rows.old.queue) rows.old.entries
        (deque_capacity rows.old.marks) rows.old.marks.items rows.old.names }
    requires even { is_odd stamp ≡ false }
    requires distinct { DistinctIndexes
        (staged_notices origin (shown rows.old.entries.slots (Q.listed rows.old.queue))) }
    requires new_keys { NewUnder stamp
        (staged_notices origin (shown rows.old.entries.slots (Q.listed rows.old.queue)))
        (shown rows.old.entries.slots (Q.listed rows.old.queue)) }
    ensures tied { IsTied rows.new.spare rows.new.len (Q.spare rows.new.queue)
        (Q.room rows.new.queue) (Q.listed rows.new.queue) rows.new.entries
        (deque_capacity rows.new.marks) rows.new.marks.items rows.new.names }
    ensures distinct { DistinctIndexes
        (staged_notices origin (shown rows.new.entries.slots (Q.listed rows.new.queue))) }
    ensures new_keys { NewUnder stamp
        (staged_notices origin (shown rows.new.entries.slots (Q.listed rows.new.queue)))
        (shown rows.new.entries.slots (Q.listed rows.new.queue)) }
    ensures kept { notices_queue origin stamp
        (shown rows.new.entries.slots (Q.listed rows.new.queue))
        ≡ notices_queue origin stamp (shown rows.old.entries.slots (Q.listed rows.old.queue)) }
    ensures fewer { length (staged_notices origin
        (shown rows.new.entries.slots (Q.listed rows.new.queue))) + (if result
        then 1 else 0)
        ≡ length (staged_notices origin
        (shown rows.old.entries.slots (Q.listed rows.old.queue))) }
    ensures done { result ≡ false
        → notices_queue origin stamp (shown rows.new.entries.slots (Q.listed rows.new.queue))
        ≡ shown rows.new.entries.slots (Q.listed rows.new.queue) }
    ensures spare { rows.new.spare ≡ rows.old.spare }
{
    let Some((key, place)) = wanted_at(rows, Wanted::Notice { origin }) else {
        return false;
    };
    restamp_in(rows, key, place, Key { stamp, ..key });
    true
}

/// Gives every staged notice of a driver its final stamp.
pub fn commit_notices_in<Q: QueueKind>(rows: &mut Rows<Q>, origin: u32, stamp: u64)
    requires tied { IsTied rows.old.spare rows.old.len (Q.spare rows.old.queue)
        (Q.room rows.old.queue) (Q.listed rows.old.queue) rows.old.entries
        (deque_capacity rows.old.marks) rows.old.marks.items rows.old.names }
    requires even { is_odd stamp ≡ false }
    requires distinct { DistinctIndexes
        (staged_notices origin (shown rows.old.entries.slots (Q.listed rows.old.queue))) }
    requires new_keys { NewUnder stamp
        (staged_notices origin (shown rows.old.entries.slots (Q.listed rows.old.queue)))
        (shown rows.old.entries.slots (Q.listed rows.old.queue)) }
    ensures tied { IsTied rows.new.spare rows.new.len (Q.spare rows.new.queue)
        (Q.room rows.new.queue) (Q.listed rows.new.queue) rows.new.entries
        (deque_capacity rows.new.marks) rows.new.marks.items rows.new.names }
    ensures shows { shown rows.new.entries.slots (Q.listed rows.new.queue)
        ≡ notices_queue origin stamp (shown rows.old.entries.slots (Q.listed rows.old.queue)) }
    ensures ascending { Ascending (shown rows.new.entries.slots (Q.listed rows.new.queue)) }
    ensures spare { rows.new.spare ≡ rows.old.spare }
{
    while restamp_first(rows, origin, stamp) {}
}
