ghost use Rattle.std.specs.Prelude.{◌≡◌, ◌≢◌, ℕ, ◌+◌, ◌<◌, ◌≤◌, length, Some, None, is_some, if◌then◌else◌, slice_set, vec_len};
ghost use Rattle.std.specs.Vec.{vec_capacity};
ghost use Rattle.b1_entry.specs.Table.{entry_at};
ghost use Rattle.b1_entry.specs.Places.{AreVacant};

use b1_model::Entry;

/// Opens a vacant place behind the others.
fn open_place(slots: &mut Vec<Option<Entry>>, vacant: &mut Vec<usize>)
    requires vacant { AreVacant slots.old.items vacant.old.items (vec_capacity vacant.old) }
    requires slots_fit { vec_len slots.old < vec_capacity slots.old }
    requires vacant_fit { vec_len slots.old < vec_capacity vacant.old }
    ensures vacant { AreVacant slots.new.items vacant.new.items (vec_capacity vacant.new) }
    ensures entries { (place : ℕ)
        → entry_at slots.new.items place ≡ entry_at slots.old.items place }
    ensures more { length vacant.new.items ≡ length vacant.old.items + 1 }
    ensures len { length slots.new.items ≡ length slots.old.items + 1 }
    ensures slots_capacity { vec_capacity slots.old ≤ vec_capacity slots.new }
    ensures vacant_capacity { vec_capacity vacant.old ≤ vec_capacity vacant.new }
{
    let place = slots.len();
    match vacant.push(place) {
        Ok(()) => {}
        Err(_) => unreachable!(),
    }
    match slots.push(None) {
        Ok(()) => {}
        Err(_) => unreachable!(),
    }
}

/// Opens `n` vacant places.
pub fn open_places(slots: &mut Vec<Option<Entry>>, vacant: &mut Vec<usize>, n: usize)
    requires vacant { AreVacant slots.old.items vacant.old.items (vec_capacity vacant.old) }
    requires slots_fit { vec_len slots.old + n ≤ vec_capacity slots.old }
    requires vacant_fit { vec_len slots.old + n ≤ vec_capacity vacant.old }
    ensures vacant { AreVacant slots.new.items vacant.new.items (vec_capacity vacant.new) }
    ensures entries { (place : ℕ)
        → entry_at slots.new.items place ≡ entry_at slots.old.items place }
    ensures more { length vacant.new.items ≡ length vacant.old.items + n }
    ensures len { length slots.new.items ≡ length slots.old.items + n }
{
    for _ in 0..n {
        open_place(slots, vacant);
    }
}

/// Puts an entry at a vacant place, and answers the place.
pub fn put_at(slots: &mut Vec<Option<Entry>>, vacant: &mut Vec<usize>, entry: Entry) -> usize
    requires vacant { AreVacant slots.old.items vacant.old.items (vec_capacity vacant.old) }
    requires some { 0 < length vacant.old.items }
    ensures vacant { AreVacant slots.new.items vacant.new.items (vec_capacity vacant.new) }
    ensures was_vacant { entry_at slots.old.items result ≡ None }
    ensures within { result < length slots.old.items }
    ensures here { entry_at slots.new.items result ≡ Some entry }
    ensures others { (other : ℕ) → other ≢ result
        → entry_at slots.new.items other ≡ entry_at slots.old.items other }
    ensures fewer { length vacant.new.items + 1 ≡ length vacant.old.items }
    ensures len { length slots.new.items ≡ length slots.old.items }
{
    let Some(place) = vacant.pop() else {
        unreachable!()
    };
    slots[place] = Some(entry);
    place
}

/// Removes the entry at a place; `None` where the place is vacant.
pub fn remove_at(
    slots: &mut Vec<Option<Entry>>,
    vacant: &mut Vec<usize>,
    place: usize,
) -> Option<Entry>
    requires vacant { AreVacant slots.old.items vacant.old.items (vec_capacity vacant.old) }
    ensures vacant { AreVacant slots.new.items vacant.new.items (vec_capacity vacant.new) }
    ensures entry { result ≡ entry_at slots.old.items place }
    ensures slots { slots.new.items ≡ slice_set slots.old.items place None }
    ensures more { length vacant.new.items
        ≡ length vacant.old.items + (if is_some result then 1 else 0) }
    ensures len { length slots.new.items ≡ length slots.old.items }
{
    if place >= slots.len() {
        return None;
    }
    let entry = slots[place].take()?;
    match vacant.push(place) {
        Ok(()) => {}
        Err(_) => unreachable!(),
    }
    Some(entry)
}
