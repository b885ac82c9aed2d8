ghost use Rattle.std.specs.Prelude.{◌≡◌, ◌≤◌, ℕ, List, [], false, max};
ghost use Rattle.b1_model.specs.declared.events.Outcome.TheVariants as out;
ghost use Rattle.b1_model.specs.declared.answers.Answer.TheVariants as answer;
ghost use Rattle.b1_model.specs.MachineDriver.{turn};
ghost use Rattle.b1_model.specs.MachineTook.{owed_after};
ghost use Rattle.b1_driver.specs.Stages.{phase_of, turn_of, send_turn, handles_in, handles_after, send_after_handles, IsStage, IsAfter, IsSendAfter, Turns};
ghost use Rattle.b1_driver.specs.Parts.{HasRoomFor};

use crate::owing::Owing;
use crate::places::{accepted_from, refused_at};
use crate::room::SendRoom;
use crate::sends::{attach_done, node_of_place, place_done, syncing, unstage_done};
use crate::stage::{After, SendAfter, SendStage, Stage};
use b1_model::{Attach, Begun, Command, Reason};
use std::alloc::Global;

// Where a command stands by where its SEND stands.
fn after_send(after: SendAfter) -> After
    ensures turn { (doomed : List ℕ) → turn_of doomed result ≡ send_turn after }
    ensures holds { IsSendAfter after → IsAfter result }
    ensures handles { handles_after result ≡ send_after_handles after }
{
    match after {
        SendAfter::Goes(stage) => After::Goes(Stage::Sending(stage)),
        SendAfter::Ends(answer) => After::Ends(answer),
    }
}

/// The checks of a SEND were done.
pub fn begin_answered(
    alloc: Global,
    stage: Stage,
    got: Result<Begun, Reason>,
    room: &mut SendRoom,
) -> After
    requires holds { IsStage stage }
    requires room { HasRoomFor room.old got }
    ensures turn { Turns stage (out.Begin got) result }
    ensures holds { IsAfter result }
    ensures handles { handles_after result ≤ max (handles_in stage) room.old.handles }
    ensures drops { room.new.handles ≡ room.old.handles }
{
    match (stage, got) {
        (Stage::Starting, Ok(begun)) => {
            let (places, slots) = room.take(alloc);
            After::Goes(Stage::Sending(SendStage::Staging {
                begun,
                places,
                slots,
                collected: 0,
            }))
        }
        (Stage::Starting, Err(reason)) => After::Ends(refused_at(reason, None)),
        (stage, _) => After::Goes(stage),
    }
}

/// A destination answered.
pub fn stage_answered(command: &Command, stage: Stage, got: Result<u64, Reason>) -> After
    requires { IsStage stage }
    ensures turn { (me : ℕ) (doomed : List ℕ)
        → turn_of doomed result ≡ turn me command.now (phase_of doomed stage) (out.Stage got) }
    ensures holds { IsAfter result }
    ensures handles { handles_after result ≤ handles_in stage }
{
    match stage {
        Stage::Sending(
            SendStage::Staging {
                begun,
                places,
                slots,
                collected,
            },
        ) => after_send(place_done(command, begun, places, slots, collected, got)),
        stage => After::Goes(stage),
    }
}

/// A staged message was taken back.
pub fn unstage_answered(stage: Stage) -> After
    requires { IsStage stage }
    ensures turn { Turns stage out.Unstage result }
    ensures holds { IsAfter result }
    ensures handles { handles_after result ≤ handles_in stage }
{
    match stage {
        Stage::Sending(
            SendStage::Unstaging {
                begun,
                places,
                refused,
                place,
            },
        ) => after_send(unstage_done(begun, places, refused, place)),
        stage => After::Goes(stage),
    }
}

/// A carried node's owner answered.
pub fn attach_answered(alloc: Global, stage: Stage, got: Attach) -> After
    requires { IsStage stage }
    ensures turn { Turns stage (out.Attach got) result }
    ensures holds { IsAfter result }
    ensures handles { handles_after result ≤ handles_in stage }
{
    match stage {
        Stage::Sending(
            SendStage::Attaching {
                sending,
                place,
                handle,
            },
        ) => After::Goes(Stage::Sending(attach_done(alloc, sending, place, handle, got))),
        stage => After::Goes(stage),
    }
}

/// A SEND got its stamp.
pub fn stamp_answered(stage: Stage, stamp: u64) -> After
    requires { IsStage stage }
    ensures turn { Turns stage (out.Stamp stamp) result }
    ensures holds { IsAfter result }
    ensures handles { handles_after result ≤ handles_in stage }
{
    match stage {
        Stage::Sending(SendStage::Stamping { sending }) => {
            After::Goes(Stage::Sending(syncing(sending, stamp, 0)))
        }
        stage => After::Goes(stage),
    }
}

/// A staged message was committed, or was not there; then the references that it carried are owed.
pub fn commit_answered(stage: Stage, found: bool, owing: &mut Owing) -> After
    requires holds { IsStage stage }
    requires nothing { found ≡ false → owing.old.drops ≡ [] }
    requires room { handles_in stage ≤ owing.old.room }
    ensures turn { Turns stage (out.Commit found) result }
    ensures holds { IsAfter result }
    ensures handles { handles_after result ≤ handles_in stage }
    ensures owed { (me : ℕ) (doomed : List ℕ)
        → owing.new.drops
        ≡ owed_after me (phase_of doomed stage) owing.old.drops (out.Commit found) }
    ensures kept { owing.new.room ≡ owing.old.room }
{
    match stage {
        Stage::Sending(
            SendStage::Committing {
                sending,
                stamp,
                place,
            },
        ) => {
            if !found {
                let holder = node_of_place(&sending.begun.to, place as usize).owner;
                owing.owe_place(holder, stamp, &sending, place);
            }
            let place = accepted_from(place as usize + 1, sending.places.as_slice());
            After::Goes(Stage::Sending(SendStage::Committing {
                sending,
                stamp,
                place,
            }))
        }
        stage => After::Goes(stage),
    }
}
