ghost use Rattle.std.specs.Prelude.{◌≡◌, ◌<◌, ℕ, List, drop, get_or, if◌then◌else◌, length};
ghost use Rattle.b1_model.specs.MachineDriver.{visiting, with_visit, syncing_notices, committing_notices, is_flushing};
ghost use Rattle.b1_model.specs.MachineTables.{with_peer};
ghost use Rattle.b1_driver.specs.Stages.{destroy_phase, turn_of, with_doomed, handles_after, IsDestruction, IsAfter};

use crate::stage::{After, DestroyStage, Stage, Visits};
use b1_model::{Answer, Command, MOST_PEERS, PeerSet, Visited};

/// A destruction visits who is left, or is at its stamp.
pub fn visiting(visits: Visits, left: PeerSet) -> DestroyStage
    ensures phase { (doomed : List ℕ)
        → destroy_phase doomed result ≡ visiting (with_doomed doomed visits) left }
    ensures holds { IsDestruction result }
{
    if left.is_empty() {
        return DestroyStage::Dooming { visits };
    }
    DestroyStage::Visiting { visits, left }
}

/// A visit's clock is collected, and its peer joins the staged ones where a notice was staged.
pub fn with_visit(visits: Visits, peer: u32, got: Visited) -> Visits
    requires { peer < MOST_PEERS }
    ensures { (doomed : List ℕ) → with_doomed doomed result
        ≡ with_visit (with_doomed doomed visits) peer got }
{
    let mut visits = visits;
    visits.collected = visits.collected.max(got.clock);
    join(&mut visits.staged, peer, got.staged);
    visits
}

// A peer joins the others, if it is to.
fn join(staged: &mut PeerSet, peer: u32, joins: bool)
    requires { peer < MOST_PEERS }
    ensures { staged.new ≡ (if joins then with_peer peer staged.old else staged.old) }
{
    if joins {
        staged.insert(peer);
    }
}

/// A destruction syncs from a place of its peers on, then commits.
pub fn syncing_notices(visits: Visits, stamp: u64, place: usize) -> DestroyStage
    ensures phase { (doomed : List ℕ)
        → destroy_phase doomed result ≡ syncing_notices (with_doomed doomed visits) stamp place }
    ensures holds { IsDestruction result }
{
    if place < visits.staged.len() {
        return DestroyStage::SyncingNotices {
            visits,
            stamp,
            place,
        };
    }
    DestroyStage::CommittingOwn { visits, stamp }
}

/// Whether a command goes on with a flush.
pub fn is_flushing(command: &Command) -> bool
    ensures { result ≡ is_flushing command.now }
{
    matches!(command, Command::Reset { .. } | Command::Disconnect)
}

/// A destruction commits from a place of its peers on; then NODES_DESTROY is done, and the others flush.
pub fn committing_notices(command: &Command, visits: Visits, stamp: u64, place: usize) -> After
    ensures turn { (doomed : List ℕ)
        → turn_of doomed result
        ≡ committing_notices command.now (with_doomed doomed visits) stamp place }
    ensures holds { IsAfter result }
    ensures handles { handles_after result ≡ 0 }
{
    if place < visits.staged.len() {
        return After::Goes(Stage::Destroying(DestroyStage::CommittingNotices {
            visits,
            stamp,
            place,
        }));
    }
    if is_flushing(command) {
        return After::Goes(Stage::Flushing(Some(stamp)));
    }
    After::Ends(Answer::Destroyed { stamp })
}

/// The least peer of a set, which isn't empty; it leaves the set.
pub fn take_peer(left: &mut PeerSet) -> u32
    requires { 0 < length left.old }
    ensures peer { (me : ℕ) → result ≡ get_or left.old 0 me }
    ensures few { result < MOST_PEERS }
    ensures rest { left.new ≡ drop 1 left.old }
{
    match left.take_first() {
        Some(first) => first,
        None => unreachable!(),
    }
}
