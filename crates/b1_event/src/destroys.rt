//! The events of a destruction and of a flush.

ghost use Rattle.std.specs.Prelude.{◌≡◌, ◌≤◌, [], length, option_copied, vec_capacity};
ghost use Rattle.b1_model.specs.declared.naming.Opening.{Opening as Openings};
ghost use Rattle.b1_model.specs.declared.events.Action.TheVariants as act;
ghost use Rattle.b1_model.specs.declared.events.Outcome.TheVariants as out;
ghost use Rattle.b1_model.specs.MachineDriver.{next_action};
ghost use Rattle.b1_model.specs.MachineEvents.{begin_refusal, begin_serials, destroy_by, limits_after};
ghost use Rattle.b1_inv_peer.specs.Needs.{IsClock, StagesAnew};
ghost use Rattle.b1_event.specs.Events.{numbers_in, open_in, Allowed, Does};

use b1_driver::DriverState;
use b1_model::{Command, Limits, Outcome, PeerSet, Reason};
use b1_peer::PeerState;
use b1_pool::PoolKind;
use b1_queue::QueueKind;

/// A destruction begins.
pub fn begin_destroy<Q: QueueKind, P: PoolKind>(
    driver: &mut DriverState,
    peer: &mut PeerState<Q, P>,
)
    requires next { next_action driver.old.part ≡ act.BeginDestroy }
    requires allowed { Allowed driver.old.part act.BeginDestroy peer.old.part }
    requires stock { length peer.old.part.nodes ≤ driver.old.here }
    ensures { (o : Openings) → Does o driver.old peer.old driver.new peer.new }
{
    let mut doomed = driver.take_doomed();
    let got = doom(driver, peer, &mut doomed);
    driver.took_begin_destroy(got, doomed);
}

// The nodes of the open command are doomed: those that it names, or all live ones.
fn doom<Q: QueueKind, P: PoolKind>(
    driver: &DriverState,
    peer: &mut PeerState<Q, P>,
    doomed: &mut Vec<u32>,
) -> Result<PeerSet, Reason>
    requires clock { IsClock peer.old.part.clock }
    requires new_keys { StagesAnew peer.old.part peer.old.part.me
        (length (begin_serials (open_in driver.now.part).command peer.old.part)) }
    requires empty { doomed.old.items ≡ [] }
    requires room { length peer.old.part.nodes ≤ vec_capacity doomed.old }
    ensures event { destroy_by (begin_refusal (open_in driver.now.part).command peer.old.part)
        (begin_serials (open_in driver.now.part).command peer.old.part) peer.old.part
        ≡ (out.BeginDestroy result doomed.new.items, peer.new.part) }
    ensures users { peer.new.users ≡ peer.old.users }
    ensures capacity { vec_capacity doomed.new ≡ vec_capacity doomed.old }
{
    match numbers(driver) {
        Some(numbers) => peer.begin_destroy(numbers, doomed),
        None => peer.begin_reset(doomed),
    }
}

// The numbers of the NODES_DESTROY that is open; `None` where it is another command.
fn numbers(driver: &DriverState) -> Option<&[u64]>
    ensures { option_copied result ≡ numbers_in (open_in driver.now.part).command }
{
    match driver.command() {
        Some(Command::Destroy { numbers }) => Some(numbers.as_slice()),
        _ => None,
    }
}

/// A destruction visits a holder.
pub fn visit<Q: QueueKind, P: PoolKind>(
    at: u32,
    driver: &mut DriverState,
    peer: &mut PeerState<Q, P>,
)
    requires next { next_action driver.old.part ≡ act.Visit at }
    requires allowed { Allowed driver.old.part (act.Visit at) peer.old.part }
    ensures { (o : Openings) → Does o driver.old peer.old driver.new peer.new }
{
    let got = peer.visit(driver.number(), driver.doomed());
    driver.took(Outcome::Visit(got));
}

/// A destruction gets its stamp, or finds holders that came late.
pub fn stamp_destroy<Q: QueueKind, P: PoolKind>(
    driver: &mut DriverState,
    peer: &mut PeerState<Q, P>,
)
    requires next { next_action driver.old.part ≡ act.StampDestroy }
    requires allowed { Allowed driver.old.part act.StampDestroy peer.old.part }
    ensures { (o : Openings) → Does o driver.old peer.old driver.new peer.new }
{
    let got = peer.stamp_destroy(driver.collected(), driver.doomed());
    driver.took(Outcome::StampDestroy(got));
}

/// A destruction's staged notices are committed.
pub fn commit_notices<Q: QueueKind, P: PoolKind>(
    at: u32,
    stamp: u64,
    driver: &mut DriverState,
    peer: &mut PeerState<Q, P>,
)
    requires next { next_action driver.old.part ≡ act.CommitNotices at stamp }
    requires allowed { Allowed driver.old.part (act.CommitNotices at stamp) peer.old.part }
    ensures { (o : Openings) → Does o driver.old peer.old driver.new peer.new }
{
    peer.commit_notices(driver.number(), stamp);
    driver.took(Outcome::CommitNotices);
}

/// The queue and the handles are given up.
pub fn flush<Q: QueueKind, P: PoolKind>(driver: &mut DriverState, peer: &mut PeerState<Q, P>)
    requires next { next_action driver.old.part ≡ act.Flush }
    requires allowed { Allowed driver.old.part act.Flush peer.old.part }
    ensures { (o : Openings) → Does o driver.old peer.old driver.new peer.new }
{
    let limits = new_limits(driver, peer);
    peer.flush(limits);
    let dead = peer.has_dead();
    driver.took(Outcome::Flush { dead });
}

// The limits after a flush: those that a PEER_RESET sets, else the old ones.
fn new_limits<Q: QueueKind, P: PoolKind>(driver: &DriverState, peer: &PeerState<Q, P>) -> Limits
    ensures { result ≡ limits_after (open_in driver.now.part).command peer.now.part.limits }
{
    match driver.command() {
        Some(Command::Reset { limits }) => *limits,
        _ => peer.query().limits,
    }
}
