ghost use Rattle.std.specs.Prelude.{◌≡◌, Bool, List, ℕ, get_or};
ghost use Rattle.b1_model.specs.declared.commands.Command.{Command as Commands};
ghost use Rattle.b1_model.specs.MachineDriver.{first_action, node_of_place, phase_action};
ghost use Rattle.b1_driver.specs.Stages.{phase_of, send_phase, destroy_phase, IsStage, IsSend};

use crate::sends::node_of_place;
use crate::stage::{DestroyStage, SendStage, Stage};
use b1_model::{Action, Command, PeerSet, Sending};

// The first event of a command.
fn first_action(command: &Command) -> Action
    ensures { result ≡ first_action command.now }
{
    match command {
        Command::Query | Command::Limit { .. } | Command::SliceRelease { .. } => Action::Local,
        Command::Disconnect | Command::Reset { .. } | Command::Destroy { .. } => {
            Action::BeginDestroy
        }
        Command::Release { .. } => Action::Release,
        Command::Send(_) => Action::Begin,
        Command::Recv | Command::Await => Action::Recv,
    }
}

// The owner of the destination at a place.
fn owner_of(sending: &Sending, place: u32) -> u32
    ensures { result ≡ (node_of_place sending.now.begun.to place).owner }
{
    node_of_place(&sending.begun.to, place as usize).owner
}

// The event of a SEND.
fn send_action(stage: &SendStage) -> Action
    requires { IsSend stage.now }
    ensures { (me : ℕ) (shut : Bool) (command : Commands)
        → result ≡ phase_action me shut command (send_phase stage.now) }
{
    match stage {
        SendStage::Staging { begun, places, .. } => Action::Stage {
            peer: node_of_place(&begun.to, places.len()).owner,
            place: places.len() as u32,
        },
        SendStage::Unstaging { begun, place, .. } => Action::Unstage {
            peer: node_of_place(&begun.to, *place as usize).owner,
            place: *place,
        },
        SendStage::Attaching {
            sending,
            place,
            handle,
        } => {
            let node = node_of_place(&sending.begun.with, *handle);
            Action::Attach {
                peer: node.owner,
                serial: node.serial,
                dest: owner_of(sending, *place),
            }
        }
        SendStage::Stamping { .. } => Action::Stamp,
        SendStage::Syncing {
            sending,
            stamp,
            place,
        } => Action::Sync {
            peer: owner_of(sending, *place),
            stamp: *stamp,
        },
        SendStage::Committing {
            sending,
            stamp,
            place,
        } => Action::Commit {
            peer: owner_of(sending, *place),
            place: *place,
            stamp: *stamp,
        },
    }
}

// The peer at a place of a set, or the driver's own.
fn peer_at(peers: &PeerSet, place: usize, me: u32) -> u32
    ensures { result ≡ get_or peers.now place me }
{
    match peers.get(place) {
        Some(peer) => peer,
        None => me,
    }
}

// The event of a destruction.
fn destroy_action(me: u32, stage: &DestroyStage) -> Action
    ensures { (shut : Bool) (command : Commands) (doomed : List ℕ)
        → result ≡ phase_action me shut command (destroy_phase doomed stage.now) }
{
    match stage {
        DestroyStage::Visiting { left, .. } => Action::Visit {
            peer: peer_at(left, 0, me),
        },
        DestroyStage::Dooming { .. } => Action::StampDestroy,
        DestroyStage::SyncingNotices {
            visits,
            stamp,
            place,
        } => Action::Sync {
            peer: peer_at(&visits.staged, *place, me),
            stamp: *stamp,
        },
        DestroyStage::CommittingOwn { stamp, .. } => Action::CommitNotices {
            peer: me,
            stamp: *stamp,
        },
        DestroyStage::CommittingNotices {
            visits,
            stamp,
            place,
        } => Action::CommitNotices {
            peer: peer_at(&visits.staged, *place, me),
            stamp: *stamp,
        },
    }
}

/// The event of a stage, where no drop is owed.
pub fn stage_action(me: u32, shut: bool, command: &Command, stage: &Stage) -> Action
    requires { IsStage stage.now }
    ensures { (doomed : List ℕ) → result
        ≡ phase_action me shut command.now (phase_of doomed stage.now) }
{
    match stage {
        Stage::Starting if shut => Action::Local,
        Stage::Starting => first_action(command),
        Stage::Sending(stage) => send_action(stage),
        Stage::Dropping => Action::Rest,
        Stage::Reaping(_) => Action::Reap,
        Stage::Destroying(stage) => destroy_action(me, stage),
        Stage::Flushing(_) => Action::Flush,
    }
}
