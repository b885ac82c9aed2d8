ghost use Rattle.std.specs.Prelude.{◌≡◌, [], List, ℕ, get_or, length, option_copied};
ghost use Rattle.b1_model.specs.MachineDriver.{send_of};
ghost use Rattle.b1_driver.specs.Stages.{doing_of, send_phase, destroy_phase};
ghost use Rattle.b1_model.specs.MachineEvents.{begun_of, collected_of, doomed_of, no_begun, slots_at as slots_of_place};
ghost use Rattle.b1_driver.specs.Parts.{by_phase, command_of, send_in};

use crate::stage::{DestroyStage, Open, SendStage, Stage};
use b1_model::{Begun, Command, Slot, SlotLists};

/// The open command.
pub fn open_command(doing: &Option<Open>) -> Option<&Command>
    ensures { (doomed : List ℕ) → option_copied result ≡ command_of (doing_of doomed doing.now) }
{
    match doing {
        Some(one) => Some(&one.command),
        None => None,
    }
}

/// To how many destinations the open SEND goes, and how many handles it carries.
pub fn sizes(doing: &Option<Open>) -> (usize, usize)
    ensures destinations { (doomed : List ℕ)
        → result.0 ≡ length (send_in (doing_of doomed doing.now)).to }
    ensures handles { (doomed : List ℕ)
        → result.1 ≡ length (send_in (doing_of doomed doing.now)).with }
{
    match doing {
        Some(one) => sizes_of(&one.command),
        None => (0, 0),
    }
}

// The same, of a command.
fn sizes_of(command: &Command) -> (usize, usize)
    ensures destinations { result.0 ≡ length (send_of command.now).to }
    ensures handles { result.1 ≡ length (send_of command.now).with }
{
    match command {
        Command::Send(send) => (send.to.len(), send.with.len()),
        _ => (0, 0),
    }
}

// The nodes of a SEND.
fn send_begun(stage: &SendStage) -> &Begun
    ensures { result.now ≡ begun_of (send_phase stage.now) }
{
    match stage {
        SendStage::Staging { begun, .. } | SendStage::Unstaging { begun, .. } => begun,
        SendStage::Attaching { sending, .. }
        | SendStage::Stamping { sending }
        | SendStage::Syncing { sending, .. }
        | SendStage::Committing { sending, .. } => &sending.begun,
    }
}

/// The nodes of the open SEND, or none.
pub fn open_begun<'a>(doing: &'a Option<Open>, nothing: &'a Begun) -> &'a Begun
    requires { nothing.now ≡ no_begun }
    ensures { (doomed : List ℕ) → result.now
        ≡ by_phase no_begun begun_of (doing_of doomed doing.now) }
{
    match doing {
        Some(
            Open {
                stage: Stage::Sending(stage),
                ..
            },
        ) => send_begun(stage),
        _ => nothing,
    }
}

// The slots of a SEND at a place.
fn send_slots(stage: &SendStage, place: u32) -> &[Slot]
    ensures { result.now ≡ slots_of_place (send_phase stage.now) place }
{
    match stage {
        SendStage::Attaching { sending, .. }
        | SendStage::Stamping { sending }
        | SendStage::Syncing { sending, .. }
        | SendStage::Committing { sending, .. } => slots_at(&sending.slots, place),
        SendStage::Staging { .. } | SendStage::Unstaging { .. } => &[],
    }
}

// The slots at a place of a list.
fn slots_at(slots: &SlotLists, place: u32) -> &[Slot]
    ensures { result.now ≡ get_or slots.now place [] }
{
    match slots.get(place as usize) {
        Some(list) => list.as_slice(),
        None => &[],
    }
}

/// The slots of the open SEND at a place, or none.
pub fn open_slots(doing: &Option<Open>, place: u32) -> &[Slot]
    ensures { (doomed : List ℕ) → result.now
        ≡ by_phase [] (λ phase. slots_of_place phase place) (doing_of doomed doing.now) }
{
    match doing {
        Some(
            Open {
                stage: Stage::Sending(stage),
                ..
            },
        ) => send_slots(stage, place),
        _ => &[],
    }
}

// The clock that a SEND collected.
fn send_collected(stage: &SendStage) -> u64
    ensures { result ≡ collected_of (send_phase stage.now) }
{
    match stage {
        SendStage::Staging { collected, .. } => *collected,
        SendStage::Unstaging { .. } => 0,
        SendStage::Attaching { sending, .. }
        | SendStage::Stamping { sending }
        | SendStage::Syncing { sending, .. }
        | SendStage::Committing { sending, .. } => sending.collected,
    }
}

// The clock that a destruction collected.
fn destroy_collected(stage: &DestroyStage) -> u64
    ensures { (doomed : List ℕ) → result ≡ collected_of (destroy_phase doomed stage.now) }
{
    match stage {
        DestroyStage::Visiting { visits, .. }
        | DestroyStage::Dooming { visits }
        | DestroyStage::SyncingNotices { visits, .. }
        | DestroyStage::CommittingOwn { visits, .. }
        | DestroyStage::CommittingNotices { visits, .. } => visits.collected,
    }
}

/// The clock that the open command collected, or 0.
pub fn open_collected(doing: &Option<Open>) -> u64
    ensures { (doomed : List ℕ) → result ≡ by_phase 0 collected_of (doing_of doomed doing.now) }
{
    match doing {
        Some(
            Open {
                stage: Stage::Sending(stage),
                ..
            },
        ) => send_collected(stage),
        Some(
            Open {
                stage: Stage::Destroying(stage),
                ..
            },
        ) => destroy_collected(stage),
        _ => 0,
    }
}

/// The doomed nodes of the open command, or none.
pub fn open_doomed<'a>(doing: &'a Option<Open>, doomed: &'a [u32]) -> &'a [u32]
    ensures { result.now ≡ by_phase [] doomed_of (doing_of doomed.now doing.now) }
{
    match doing {
        Some(
            Open {
                stage: Stage::Destroying(_),
                ..
            },
        ) => doomed,
        _ => &[],
    }
}
