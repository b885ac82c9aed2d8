ghost use Rattle.std.specs.Prelude.{◌≡◌, ℕ, ◌+◌, ◌-◌, ◌<◌, ◌≤◌, Bool, true, None, drop, find, is_some, slice_get, if◌then◌else◌};
ghost use Rattle.b1_model.specs.declared.answers.Quantity.{Quantity as Quantities};
ghost use Rattle.b1_model.specs.MachineParts.{is_data, is_release_notice};
ghost use Rattle.b1_model.specs.MachineTables.{put, without, is_stage};
ghost use Rattle.b1_step.specs.Ordered.{NewKey};
ghost use Rattle.b1_quota.specs.Accounts.{charged_to, users_of};
ghost use Rattle.b1_peer_queue.specs.Mail.{IsSound, count};
ghost use Rattle.b1_peer_queue.specs.Charged.{IsAdmitted, IsChargeable, IsCharged, IsSmall, weight};
ghost use Rattle.b1_peer_queue.specs.Rows.{passes};

use crate::messages::charge_of;
use crate::shelf::Shelf;
use crate::wanted::Wanted;
use b1_model::{Entry, Key};
use b1_queue::QueueKind;
use b1_quota::Quota;

/// Charges an entry to its user.
fn begin_charge(quota: &mut Quota, entry: &Entry)
    requires small { IsSmall entry.now }
    requires admitted { IsAdmitted quota.old entry.now }
    ensures limits { quota.new.limits ≡ quota.old.limits }
    ensures home { quota.new.home ≡ quota.old.home }
    ensures users { users_of quota.new.accounts ≡ users_of quota.old.accounts }
    ensures charges { (what : Quantities) (passes : ℕ → Bool)
        → charged_to what passes quota.new.accounts
        ≡ charged_to what passes quota.old.accounts + weight what passes entry.now }
{
    let Some((user, charge)) = charge_of(entry) else {
        return;
    };
    match quota.charge(user, charge) {
        Ok(()) => {}
        Err(_) => unreachable!(),
    }
}

/// Ends the charge of an entry.
fn end_charge(quota: &mut Quota, entry: &Entry)
    requires small { IsSmall entry.now }
    requires chargeable { IsChargeable quota.old.accounts entry.now }
    ensures limits { quota.new.limits ≡ quota.old.limits }
    ensures home { quota.new.home ≡ quota.old.home }
    ensures users { users_of quota.new.accounts ≡ users_of quota.old.accounts }
    ensures charges { (what : Quantities) (passes : ℕ → Bool)
        → charged_to what passes quota.new.accounts + weight what passes entry.now
        ≡ charged_to what passes quota.old.accounts }
{
    let Some((user, charge)) = charge_of(entry) else {
        return;
    };
    quota.discharge(user, charge);
}

/// Puts a staged message, and charges it.
pub fn put_message_in<Q: QueueKind>(shelf: &mut Shelf<Q>, quota: &mut Quota, key: Key, entry: Entry)
    requires charged { IsCharged quota.old.accounts shelf.old.queue }
    requires spare { 0 < shelf.old.spare }
    requires message { is_data entry ≡ true }
    requires sound { IsSound (users_of quota.old.accounts) (key, entry) }
    requires new_key { NewKey key shelf.old.queue }
    requires new_stage { find (is_stage key.origin key.index) shelf.old.queue ≡ None }
    requires admitted { IsAdmitted quota.old entry }
    ensures charged { IsCharged quota.new.accounts shelf.new.queue }
    ensures limits { quota.new.limits ≡ quota.old.limits }
    ensures home { quota.new.home ≡ quota.old.home }
    ensures users { users_of quota.new.accounts ≡ users_of quota.old.accounts }
    ensures queue { shelf.new.queue ≡ put key entry shelf.old.queue }
    ensures spare { shelf.new.spare ≡ shelf.old.spare - 1 }
{
    begin_charge(quota, &entry);
    shelf.put(key, entry);
}

/// Takes out what is looked for, of which there is one at most, with its charge.
pub fn take_wanted_from<Q: QueueKind>(
    shelf: &mut Shelf<Q>,
    quota: &mut Quota,
    wanted: Wanted,
) -> Option<(Key, Entry)>
    requires charged { IsCharged quota.old.accounts shelf.old.queue }
    requires one { count (passes wanted) shelf.old.queue ≤ 1 }
    ensures charged { IsCharged quota.new.accounts shelf.new.queue }
    ensures limits { quota.new.limits ≡ quota.old.limits }
    ensures home { quota.new.home ≡ quota.old.home }
    ensures users { users_of quota.new.accounts ≡ users_of quota.old.accounts }
    ensures found { result ≡ find (passes wanted) shelf.old.queue }
    ensures queue { shelf.new.queue ≡ without (passes wanted) shelf.old.queue }
    ensures spare { shelf.new.spare
        ≡ (if is_some result then shelf.old.spare + 1 else shelf.old.spare) }
{
    let (key, entry) = shelf.take_wanted(wanted)?;
    end_charge(quota, &entry);
    Some((key, entry))
}

/// Takes out the entry with the least key, with its charge.
pub fn take_front_from<Q: QueueKind>(
    shelf: &mut Shelf<Q>,
    quota: &mut Quota,
) -> Option<(Key, Entry)>
    requires charged { IsCharged quota.old.accounts shelf.old.queue }
    ensures charged { IsCharged quota.new.accounts shelf.new.queue }
    ensures limits { quota.new.limits ≡ quota.old.limits }
    ensures home { quota.new.home ≡ quota.old.home }
    ensures users { users_of quota.new.accounts ≡ users_of quota.old.accounts }
    ensures front { result ≡ slice_get shelf.old.queue 0 }
    ensures queue { shelf.new.queue ≡ drop 1 shelf.old.queue }
    ensures spare { shelf.new.spare
        ≡ (if is_some result then shelf.old.spare + 1 else shelf.old.spare) }
{
    let (key, entry) = shelf.take()?;
    end_charge(quota, &entry);
    Some((key, entry))
}

/// Takes the release notice of an own node away, if there is one.
pub fn withdraw_from<Q: QueueKind>(shelf: &mut Shelf<Q>, quota: &mut Quota, serial: u32)
    requires charged { IsCharged quota.old.accounts shelf.old.queue }
    requires one { count (is_release_notice serial) shelf.old.queue ≤ 1 }
    ensures charged { IsCharged quota.new.accounts shelf.new.queue }
    ensures limits { quota.new.limits ≡ quota.old.limits }
    ensures home { quota.new.home ≡ quota.old.home }
    ensures users { users_of quota.new.accounts ≡ users_of quota.old.accounts }
    ensures queue { shelf.new.queue ≡ without (is_release_notice serial) shelf.old.queue }
    ensures spare { shelf.new.spare
        ≡ (if is_some (find (is_release_notice serial) shelf.old.queue) then shelf.old.spare + 1
        else shelf.old.spare) }
{
    take_wanted_from(shelf, quota, Wanted::Release { serial });
}
