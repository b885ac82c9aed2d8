ghost use Rattle.std.specs.Prelude.{◌≡◌, ◌≤◌, ℕ, Bool, List, [], Ok, Err};
ghost use Rattle.b1_model.specs.declared.events.Outcome.TheVariants as out;
ghost use Rattle.b1_model.specs.declared.parts.Owed.{Owed as Owes};
ghost use Rattle.b1_model.specs.MachineDriver.{recv_answer};
ghost use Rattle.b1_model.specs.MachineTook.{owed_after};
ghost use Rattle.b1_driver.specs.Stages.{phase_of, handles_in, handles_after, IsStage, IsAfter, Turns};

use crate::owing::Owing;
use crate::places::refused_at;
use crate::stage::{After, Stage};
use b1_model::{Answer, Owed, Reason, Received};

// The answer of a RECV.
fn recv_answer(got: Received) -> Answer
    ensures { result ≡ recv_answer got }
{
    match got.front {
        Ok(receipt) => Answer::Got(receipt),
        Err(front) => refused_at(Reason::Again(front), None),
    }
}

/// The front was taken, or stayed.
pub fn recv_answered(stage: Stage, got: Received) -> After
    requires { IsStage stage }
    ensures turn { (dead : Bool) → Turns stage (out.Recv got dead) result }
    ensures holds { IsAfter result }
    ensures handles { handles_after result ≤ handles_in stage }
{
    match stage {
        Stage::Starting => After::Goes(Stage::Reaping(recv_answer(got))),
        stage => After::Goes(stage),
    }
}

/// A handle was given up, or isn't known; a drop is owed then.
pub fn release_answered(
    me: u32,
    stage: Stage,
    got: Result<Owed, Reason>,
    owing: &mut Owing,
) -> After
    requires holds { IsStage stage }
    requires nothing { owing.old.drops ≡ [] }
    ensures turn { Turns stage (out.Release got) result }
    ensures holds { IsAfter result }
    ensures handles { handles_after result ≤ handles_in stage }
    ensures owed { (doomed : List ℕ)
        → owing.new.drops
        ≡ owed_after me (phase_of doomed stage) owing.old.drops (out.Release got) }
    ensures kept { owing.new.room ≡ owing.old.room }
{
    match got {
        Ok(owed) => {
            owing.owe_one(me, owed);
            released(stage)
        }
        Err(reason) => refused(stage, reason),
    }
}

// A release that is done owes its drop.
fn released(stage: Stage) -> After
    requires { IsStage stage }
    ensures turn { (owed : Owes) → Turns stage (out.Release (Ok owed)) result }
    ensures holds { IsAfter result }
    ensures handles { handles_after result ≤ handles_in stage }
{
    match stage {
        Stage::Starting => After::Goes(Stage::Dropping),
        stage => After::Goes(stage),
    }
}

// A release that is refused ends.
fn refused(stage: Stage, reason: Reason) -> After
    requires { IsStage stage }
    ensures turn { Turns stage (out.Release (Err reason)) result }
    ensures holds { IsAfter result }
    ensures handles { handles_after result ≤ handles_in stage }
{
    match stage {
        Stage::Starting => After::Ends(refused_at(reason, None)),
        stage => After::Goes(stage),
    }
}

/// A command without a phase has its answer.
pub fn local_answered(stage: Stage, got: Answer) -> After
    requires { IsStage stage }
    ensures turn { Turns stage (out.Local got) result }
    ensures holds { IsAfter result }
    ensures handles { handles_after result ≤ handles_in stage }
{
    match stage {
        Stage::Starting => After::Ends(got),
        stage => After::Goes(stage),
    }
}
