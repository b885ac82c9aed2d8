ghost use Rattle.std.specs.Prelude.{◌≡◌, ◌≤◌, ◌+◌, ◌<◌, [], Some, find, drop, is_some, OnOk, OnErr, slice_get, option_map, if◌then◌else◌};
ghost use Rattle.std.specs.VecDeque.{deque_capacity};
ghost use Rattle.std.specs.Option.{IfSome};
ghost use Rattle.b1_model.specs.MachineTables.{put as with_entry, without, is_stage, is_staged_notice as is_notice_of};
ghost use Rattle.b1_model.specs.MachineParts.{is_release_notice};
ghost use Rattle.b1_step.specs.Ordered.{NewKey};
ghost use Rattle.b1_step.specs.Rights.{Has};
ghost use Rattle.b1_queue.specs.Queue.{without as without_place};
ghost use Rattle.b1_peer_queue.specs.Mail.{count};
ghost use Rattle.b1_peer_queue.specs.Rows.{IsNewName, IsTied, name_wanted as name_looked_for, passes, row, shown};

use crate::marks::{first_notice, mark_where, unmark};
use crate::names::NameIndex;
use crate::wanted::{Wanted, is_staged_notice, name_of, release_name, stage_name};
use b1_entry::EntryTable;
use b1_model::{Entry, Key};
use b1_queue::QueueKind;
use std::alloc::{AllocError, Global};
use std::collections::VecDeque;

/// A queue of places, the entries at them, and where those stand that are looked for.
#[derive(Drop)]
pub struct Rows<Q: QueueKind> {
    /// Each entry's place, under its key.
    pub queue: Q,
    /// The entries.
    pub entries: EntryTable,
    /// The keys and places of staged notices, in the queue's order.
    pub marks: VecDeque<(Key, usize)>,
    /// The places of staged messages and of release notices, by their names.
    pub names: NameIndex,
    /// How many entries there are.
    pub len: usize,
    /// How many more fit with no memory.
    pub spare: usize,
}

/// No rows. It takes no memory.
pub fn make_rows<Q: QueueKind>(alloc: Global) -> Rows<Q>
    ensures tied { IsTied result.spare result.len (Q.spare result.queue) (Q.room result.queue)
        (Q.listed result.queue) result.entries
        (deque_capacity result.marks) result.marks.items result.names }
    ensures listed { Q.listed result.queue ≡ [] }
    ensures spare { result.spare ≡ 0 }
{
    Rows {
        queue: Q::make(alloc),
        entries: EntryTable::make(alloc),
        marks: VecDeque::new(alloc),
        names: NameIndex::make(alloc),
        len: 0,
        spare: 0,
    }
}

/// Makes room for `n` more entries. An error is want of memory.
pub fn reserve_rows<Q: QueueKind>(rows: &mut Rows<Q>, n: usize) -> Result<(), AllocError>
    requires { IsTied rows.old.spare rows.old.len (Q.spare rows.old.queue) (Q.room rows.old.queue)
        (Q.listed rows.old.queue) rows.old.entries
        (deque_capacity rows.old.marks) rows.old.marks.items rows.old.names }
    ensures tied { IsTied rows.new.spare rows.new.len (Q.spare rows.new.queue)
        (Q.room rows.new.queue) (Q.listed rows.new.queue) rows.new.entries
        (deque_capacity rows.new.marks) rows.new.marks.items rows.new.names }
    ensures shows { shown rows.new.entries.slots (Q.listed rows.new.queue)
        ≡ shown rows.old.entries.slots (Q.listed rows.old.queue) }
    ensures enough { OnOk result (n ≤ rows.new.spare) }
    ensures kept { rows.old.spare ≤ rows.new.spare }
    ensures err { OnErr result (rows.new.spare ≡ rows.old.spare) }
{
    if n <= rows.spare {
        return Ok(());
    }
    let Some(more) = (rows.len - rows.marks.len()).checked_add(n) else {
        return Err(AllocError);
    };
    let Some(all) = rows.len.checked_add(n) else {
        return Err(AllocError);
    };
    let Some(room) = rows.entries.room().checked_add(n) else {
        return Err(AllocError);
    };
    rows.queue.reserve(n, room)?;
    rows.marks.reserve(more)?;
    rows.names.reserve(all, room)?;
    rows.entries.reserve(n)?;
    rows.spare = n;
    Ok(())
}

/// Puts an entry under its key.
pub fn put_in<Q: QueueKind>(rows: &mut Rows<Q>, key: Key, entry: Entry)
    requires tied { IsTied rows.old.spare rows.old.len (Q.spare rows.old.queue)
        (Q.room rows.old.queue) (Q.listed rows.old.queue) rows.old.entries
        (deque_capacity rows.old.marks) rows.old.marks.items rows.old.names }
    requires spare { 0 < rows.old.spare }
    requires new_key { NewKey key (shown rows.old.entries.slots (Q.listed rows.old.queue)) }
    requires new_name { IsNewName key entry
        (shown rows.old.entries.slots (Q.listed rows.old.queue)) }
    ensures tied { IsTied rows.new.spare rows.new.len (Q.spare rows.new.queue)
        (Q.room rows.new.queue) (Q.listed rows.new.queue) rows.new.entries
        (deque_capacity rows.new.marks) rows.new.marks.items rows.new.names }
    ensures shows { shown rows.new.entries.slots (Q.listed rows.new.queue)
        ≡ with_entry key entry (shown rows.old.entries.slots (Q.listed rows.old.queue)) }
    ensures spare { rows.new.spare + 1 ≡ rows.old.spare }
{
    let marked = is_staged_notice(&key, &entry);
    let name = name_of(&key, &entry);
    let place = rows.entries.insert(entry);
    rows.queue.put(key, place);
    mark_where(&mut rows.marks, marked, key, place);
    rows.names.put(name, place);
    rows.len += 1;
    rows.spare -= 1;
}

/// Takes out the entry at a place.
fn lift_out<Q: QueueKind>(rows: &mut Rows<Q>, key: Key, place: usize) -> Entry
    requires tied { IsTied rows.old.spare rows.old.len (Q.spare rows.old.queue)
        (Q.room rows.old.queue) (Q.listed rows.old.queue) rows.old.entries
        (deque_capacity rows.old.marks) rows.old.marks.items rows.old.names }
    requires there { Has (Q.listed rows.old.queue) (key, place) }
    ensures tied { IsTied rows.new.spare rows.new.len (Q.spare rows.new.queue)
        (Q.room rows.new.queue) (Q.listed rows.new.queue) rows.new.entries
        (deque_capacity rows.new.marks) rows.new.marks.items rows.new.names }
    ensures entry { (key, result) ≡ row rows.old.entries.slots (key, place) }
    ensures shows { shown rows.new.entries.slots (Q.listed rows.new.queue)
        ≡ shown rows.old.entries.slots (without_place place (Q.listed rows.old.queue)) }
    ensures spare { rows.new.spare ≡ rows.old.spare + 1 }
{
    rows.queue.remove(place);
    unmark(&mut rows.marks, key, place);
    rows.names.remove(place);
    let Some(entry) = rows.entries.remove(place) else {
        unreachable!()
    };
    rows.len -= 1;
    rows.spare += 1;
    entry
}

/// The key and the place of what is looked for by its name.
fn named_at<Q: QueueKind>(rows: &Rows<Q>, wanted: Wanted, name: Key) -> Option<(Key, usize)>
    requires tied { IsTied rows.now.spare rows.now.len (Q.spare rows.now.queue)
        (Q.room rows.now.queue) (Q.listed rows.now.queue) rows.now.entries
        (deque_capacity rows.now.marks) rows.now.marks.items rows.now.names }
    requires name { name_looked_for wanted ≡ Some name }
    ensures { result ≡ find (λ e.
        passes wanted (row rows.now.entries.slots e)) (Q.listed rows.now.queue) }
{
    let place = rows.names.place(&name)?;
    let key = rows.queue.key(place)?;
    Some((key, place))
}

/// The key and the place of the message that a driver has staged for a place.
fn stage_at<Q: QueueKind>(rows: &Rows<Q>, origin: u32, index: u32) -> Option<(Key, usize)>
    requires { IsTied rows.now.spare rows.now.len (Q.spare rows.now.queue) (Q.room rows.now.queue)
        (Q.listed rows.now.queue) rows.now.entries
        (deque_capacity rows.now.marks) rows.now.marks.items rows.now.names }
    ensures { result ≡ find (λ e.
        is_stage origin index (row rows.now.entries.slots e)) (Q.listed rows.now.queue) }
{
    named_at(
        rows,
        Wanted::Stage { origin, index },
        stage_name(origin, index),
    )
}

/// The key and the place of a node's release notice.
fn release_at<Q: QueueKind>(rows: &Rows<Q>, serial: u32) -> Option<(Key, usize)>
    requires { IsTied rows.now.spare rows.now.len (Q.spare rows.now.queue) (Q.room rows.now.queue)
        (Q.listed rows.now.queue) rows.now.entries
        (deque_capacity rows.now.marks) rows.now.marks.items rows.now.names }
    ensures { result ≡ find (λ e.
        is_release_notice serial (row rows.now.entries.slots e)) (Q.listed rows.now.queue) }
{
    named_at(rows, Wanted::Release { serial }, release_name(serial))
}

/// The key and the place of a driver's first staged notice.
fn notice_at<Q: QueueKind>(rows: &Rows<Q>, origin: u32) -> Option<(Key, usize)>
    requires { IsTied rows.now.spare rows.now.len (Q.spare rows.now.queue) (Q.room rows.now.queue)
        (Q.listed rows.now.queue) rows.now.entries
        (deque_capacity rows.now.marks) rows.now.marks.items rows.now.names }
    ensures { result ≡ find (λ e.
        is_notice_of origin (row rows.now.entries.slots e)) (Q.listed rows.now.queue) }
{
    first_notice(&rows.marks, origin)
}

/// The key and the place of what is looked for first.
pub fn wanted_at<Q: QueueKind>(rows: &Rows<Q>, wanted: Wanted) -> Option<(Key, usize)>
    requires { IsTied rows.now.spare rows.now.len (Q.spare rows.now.queue) (Q.room rows.now.queue)
        (Q.listed rows.now.queue) rows.now.entries
        (deque_capacity rows.now.marks) rows.now.marks.items rows.now.names }
    ensures found { option_map (row rows.now.entries.slots) result
        ≡ find (passes wanted) (shown rows.now.entries.slots (Q.listed rows.now.queue)) }
    ensures there { IfSome result (λ e. Has (Q.listed rows.now.queue) e) }
    ensures first { result ≡ find (λ e.
        passes wanted (row rows.now.entries.slots e)) (Q.listed rows.now.queue) }
{
    match wanted {
        Wanted::Stage { origin, index } => stage_at(rows, origin, index),
        Wanted::Notice { origin } => notice_at(rows, origin),
        Wanted::Release { serial } => release_at(rows, serial),
    }
}

/// Takes out what is looked for, of which there is one at most.
pub fn take_wanted_in<Q: QueueKind>(rows: &mut Rows<Q>, wanted: Wanted) -> Option<(Key, Entry)>
    requires tied { IsTied rows.old.spare rows.old.len (Q.spare rows.old.queue)
        (Q.room rows.old.queue) (Q.listed rows.old.queue) rows.old.entries
        (deque_capacity rows.old.marks) rows.old.marks.items rows.old.names }
    requires one { count (passes wanted) (shown rows.old.entries.slots (Q.listed rows.old.queue))
        ≤ 1 }
    ensures tied { IsTied rows.new.spare rows.new.len (Q.spare rows.new.queue)
        (Q.room rows.new.queue) (Q.listed rows.new.queue) rows.new.entries
        (deque_capacity rows.new.marks) rows.new.marks.items rows.new.names }
    ensures found { result ≡ find (passes wanted)
        (shown rows.old.entries.slots (Q.listed rows.old.queue)) }
    ensures shows { shown rows.new.entries.slots (Q.listed rows.new.queue)
        ≡ without (passes wanted) (shown rows.old.entries.slots (Q.listed rows.old.queue)) }
    ensures spare { rows.new.spare ≡ rows.old.spare + (if is_some result then 1 else 0) }
{
    let (key, place) = wanted_at(rows, wanted)?;
    Some((key, lift_out(rows, key, place)))
}

/// The entry with the least key; `None` where the queue is empty.
pub fn front_in<Q: QueueKind>(rows: &Rows<Q>) -> Option<(Key, &Entry)>
    requires { IsTied rows.now.spare rows.now.len (Q.spare rows.now.queue) (Q.room rows.now.queue)
        (Q.listed rows.now.queue) rows.now.entries
        (deque_capacity rows.now.marks) rows.now.marks.items rows.now.names }
    ensures { option_map (λ f. (f.0, f.1.now)) result
        ≡ slice_get (shown rows.now.entries.slots (Q.listed rows.now.queue)) 0 }
{
    let (key, place) = rows.queue.front()?;
    let Some(entry) = rows.entries.get(place) else {
        unreachable!()
    };
    Some((key, entry))
}

/// Takes out the entry with the least key; `None` where the queue is empty.
pub fn take_in<Q: QueueKind>(rows: &mut Rows<Q>) -> Option<(Key, Entry)>
    requires { IsTied rows.old.spare rows.old.len (Q.spare rows.old.queue) (Q.room rows.old.queue)
        (Q.listed rows.old.queue) rows.old.entries
        (deque_capacity rows.old.marks) rows.old.marks.items rows.old.names }
    ensures tied { IsTied rows.new.spare rows.new.len (Q.spare rows.new.queue)
        (Q.room rows.new.queue) (Q.listed rows.new.queue) rows.new.entries
        (deque_capacity rows.new.marks) rows.new.marks.items rows.new.names }
    ensures front { result ≡ slice_get (shown rows.old.entries.slots (Q.listed rows.old.queue)) 0 }
    ensures shows { shown rows.new.entries.slots (Q.listed rows.new.queue)
        ≡ drop 1 (shown rows.old.entries.slots (Q.listed rows.old.queue)) }
    ensures spare { rows.new.spare ≡ rows.old.spare + (if is_some result then 1 else 0) }
{
    let (key, place) = rows.queue.front()?;
    Some((key, lift_out(rows, key, place)))
}
