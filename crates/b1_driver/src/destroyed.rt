ghost use Rattle.std.specs.Prelude.{◌≡◌, ◌≤◌, ℕ, Bool, List, true, vec_capacity};
ghost use Rattle.b1_model.specs.declared.commands.Command.{Command as Commands};
ghost use Rattle.b1_model.specs.declared.events.Outcome.TheVariants as out;
ghost use Rattle.b1_model.specs.MachineDriver.{destroying, turn};
ghost use Rattle.b1_driver.specs.Stages.{phase_of, turn_of, handles_in, handles_after, is_starting, IsStage, IsAfter, Turns};

use crate::destroys::{committing_notices, syncing_notices, take_peer, visiting, with_visit};
use crate::places::refused_at;
use crate::sends::syncing;
use crate::stage::{After, DestroyStage, SendStage, Stage, Visits};
use b1_model::{Answer, Command, PeerSet, Reason, Visited};

/// The checks of a destruction were done. The list of doomed nodes is kept.
pub fn begin_destroy_answered(
    stage: Stage,
    got: Result<PeerSet, Reason>,
    list: Vec<u32>,
    doomed: &mut Vec<u32>,
) -> After
    requires { is_starting stage ≡ true }
    ensures turn { (me : ℕ) (command : Commands)
        → turn_of doomed.new.items result
        ≡ turn me command (phase_of doomed.old.items stage) (out.BeginDestroy got list.items) }
    ensures holds { IsAfter result }
    ensures handles { handles_after result ≡ 0 }
    ensures room { vec_capacity doomed.new ≡ vec_capacity list }
{
    match stage {
        Stage::Starting => {}
        _ => unreachable!(),
    }
    *doomed = list;
    match got {
        Err(reason) => After::Ends(refused_at(reason, None)),
        Ok(left) => After::Goes(first_visit(doomed, left)),
    }
}

// A destruction visits the holders; a reset without live nodes goes on with its flush.
fn first_visit(doomed: &[u32], left: PeerSet) -> Stage
    ensures phase { phase_of doomed.now result ≡ destroying doomed.now left }
    ensures holds { IsStage result }
    ensures handles { handles_in result ≡ 0 }
{
    if doomed.is_empty() {
        return Stage::Flushing(None);
    }
    let visits = Visits {
        collected: 0,
        staged: PeerSet::new(),
    };
    Stage::Destroying(visiting(visits, left))
}

/// A visit was made.
pub fn visit_answered(stage: Stage, got: Visited) -> After
    requires { IsStage stage }
    ensures turn { Turns stage (out.Visit got) result }
    ensures holds { IsAfter result }
    ensures handles { handles_after result ≤ handles_in stage }
{
    match stage {
        Stage::Destroying(DestroyStage::Visiting { visits, left }) => {
            let mut left = left;
            let peer = take_peer(&mut left);
            let visits = with_visit(visits, peer, got);
            After::Goes(Stage::Destroying(visiting(visits, left)))
        }
        stage => After::Goes(stage),
    }
}

/// A destruction got its stamp, or found holders that came late.
pub fn stamp_destroy_answered(stage: Stage, got: Result<u64, PeerSet>) -> After
    requires { IsStage stage }
    ensures turn { Turns stage (out.StampDestroy got) result }
    ensures holds { IsAfter result }
    ensures handles { handles_after result ≤ handles_in stage }
{
    match (stage, got) {
        (Stage::Destroying(DestroyStage::Dooming { visits }), Ok(stamp)) => {
            After::Goes(Stage::Destroying(syncing_notices(visits, stamp, 0)))
        }
        (Stage::Destroying(DestroyStage::Dooming { visits }), Err(late)) => {
            After::Goes(Stage::Destroying(visiting(visits, late)))
        }
        (stage, _) => After::Goes(stage),
    }
}

/// A recipient, or a peer where a notice was staged, was synced.
pub fn sync_answered(stage: Stage) -> After
    requires { IsStage stage }
    ensures turn { Turns stage out.Sync result }
    ensures holds { IsAfter result }
    ensures handles { handles_after result ≤ handles_in stage }
{
    match stage {
        Stage::Sending(
            SendStage::Syncing {
                sending,
                stamp,
                place,
            },
        ) => After::Goes(Stage::Sending(syncing(sending, stamp, place as usize + 1))),
        Stage::Destroying(
            DestroyStage::SyncingNotices {
                visits,
                stamp,
                place,
            },
        ) => {
            let peers = visits.staged.len();
            prove!(place < peers);
            After::Goes(Stage::Destroying(syncing_notices(visits, stamp, place + 1)))
        }
        stage => After::Goes(stage),
    }
}

/// A destruction's notices were committed at a peer.
pub fn commit_notices_answered(command: &Command, stage: Stage) -> After
    requires { IsStage stage }
    ensures turn { (me : ℕ) (doomed : List ℕ)
        → turn_of doomed result ≡ turn me command.now (phase_of doomed stage) out.CommitNotices }
    ensures holds { IsAfter result }
    ensures handles { handles_after result ≤ handles_in stage }
{
    match stage {
        Stage::Destroying(DestroyStage::CommittingOwn { visits, stamp }) => {
            committing_notices(command, visits, stamp, 0)
        }
        Stage::Destroying(
            DestroyStage::CommittingNotices {
                visits,
                stamp,
                place,
            },
        ) => {
            let peers = visits.staged.len();
            prove!(place < peers);
            committing_notices(command, visits, stamp, place + 1)
        }
        stage => After::Goes(stage),
    }
}

/// The peer was flushed.
pub fn flush_answered(stage: Stage) -> After
    requires { IsStage stage }
    ensures turn { (dead : Bool) → Turns stage (out.Flush dead) result }
    ensures holds { IsAfter result }
    ensures handles { handles_after result ≤ handles_in stage }
{
    match stage {
        Stage::Flushing(stamp) => After::Goes(Stage::Reaping(Answer::Reset { stamp })),
        stage => After::Goes(stage),
    }
}
