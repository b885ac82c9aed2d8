ghost use Rattle.std.specs.Prelude.{◌≡◌, ◌≤◌, Bool, Option, [], false, true, vec_capacity};
ghost use Rattle.b1_model.specs.declared.parts.Dead.{Dead as Deads};
ghost use Rattle.b1_model.specs.declared.events.Phase.{Phase as Phases};
ghost use Rattle.b1_model.specs.declared.events.Outcome.TheVariants as out;
ghost use Rattle.b1_model.specs.MachineDriver.{turn};
ghost use Rattle.b1_model.specs.MachineTook.{owed_after};
ghost use Rattle.b1_driver.specs.Stages.{phase_of, turn_of, handles_in, handles_after, is_starting, IsStage, IsAfter, Turns};
ghost use Rattle.b1_driver.specs.Parts.{hands_back, is_drop, HasRoomAt};

use crate::destroyed::{
    begin_destroy_answered, commit_notices_answered, flush_answered, stamp_destroy_answered,
    sync_answered, visit_answered,
};
use crate::other::{local_answered, recv_answered, release_answered};
use crate::owing::Owing;
use crate::room::SendRoom;
use crate::sent::{
    attach_answered, begin_answered, commit_answered, stage_answered, stamp_answered,
    unstage_answered,
};
use crate::stage::{After, Stage};
use b1_model::{Command, Dead, Outcome};

/// What an event's answer makes of an open command: where it stands then, and which drops are owed.
pub fn answered(
    me: u32,
    command: &Command,
    stage: Stage,
    outcome: Outcome,
    owing: &mut Owing,
    room: &mut SendRoom,
    doomed: &mut Vec<u32>,
) -> After
    requires holds { IsStage stage }
    requires nothing { is_drop outcome ≡ false → owing.old.drops ≡ [] }
    requires starting { hands_back outcome ≡ true → is_starting stage ≡ true }
    requires handles { handles_in stage ≤ owing.old.room }
    requires room { HasRoomAt room.old outcome }
    requires drops { room.old.handles ≤ owing.old.room }
    ensures turn { turn_of doomed.new.items result
        ≡ turn me command.now (phase_of doomed.old.items stage) outcome }
    ensures owed { owing.new.drops
        ≡ owed_after me (phase_of doomed.old.items stage) owing.old.drops outcome }
    ensures holds { IsAfter result }
    ensures handles { handles_after result ≤ owing.new.room }
    ensures kept { owing.new.room ≡ owing.old.room }
    ensures drops { room.new.handles ≤ owing.new.room }
    ensures here { hands_back outcome ≡ false → vec_capacity doomed.new ≡ vec_capacity doomed.old }
{
    let alloc = *doomed.allocator();
    match outcome {
        Outcome::Begin(got) => begin_answered(alloc, stage, got, room),
        Outcome::Stage(got) => stage_answered(command, stage, got),
        Outcome::Unstage => unstage_answered(stage),
        Outcome::Attach(got) => attach_answered(alloc, stage, got),
        Outcome::Stamp(stamp) => stamp_answered(stage, stamp),
        Outcome::Sync => sync_answered(stage),
        Outcome::Commit(found) => commit_answered(stage, found, owing),
        Outcome::CommitNotices => commit_notices_answered(command, stage),
        Outcome::Recv { got, .. } => recv_answered(stage, got),
        Outcome::Reap { got, .. } => {
            owe_item(me, got, owing);
            stays(stage)
        }
        Outcome::Release(got) => release_answered(me, stage, got, owing),
        Outcome::DropRefs => {
            owing.take_first();
            stays(stage)
        }
        Outcome::BeginDestroy { got, doomed: list } => {
            begin_destroy_answered(stage, got, list.into_vec(), doomed)
        }
        Outcome::Visit(got) => visit_answered(stage, got),
        Outcome::StampDestroy(got) => stamp_destroy_answered(stage, got),
        Outcome::Flush { .. } => flush_answered(stage),
        Outcome::Local(got) => local_answered(stage, got),
    }
}

// The references of an item are owed, if there is one.
fn owe_item(me: u32, got: Option<Dead>, owing: &mut Owing)
    requires { owing.old.drops ≡ [] }
    ensures owed { (p : Phases) (dead : Bool)
        → owing.new.drops ≡ owed_after me p owing.old.drops (out.Reap got dead) }
    ensures kept { owing.new.room ≡ owing.old.room }
{
    match got {
        Some(item) => owing.owe_item(me, item),
        None => {}
    }
}

// A drop or an item leaves the command where it is.
fn stays(stage: Stage) -> After
    requires { IsStage stage }
    ensures drop { Turns stage out.DropRefs result }
    ensures item { (got : Option Deads) (dead : Bool) → Turns stage (out.Reap got dead) result }
    ensures holds { IsAfter result }
    ensures handles { handles_after result ≤ handles_in stage }
{
    After::Goes(stage)
}
