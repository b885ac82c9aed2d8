//! The events that receive and give up, and the commands of one event.

ghost use Rattle.std.specs.Prelude.{◌≡◌, None, if◌then◌else◌};
ghost use Rattle.b1_model.specs.declared.naming.Opening.{Opening as Openings};
ghost use Rattle.b1_model.specs.declared.answers.Answer.TheVariants as answer;
ghost use Rattle.b1_model.specs.declared.answers.Reason.TheVariants as reason;
ghost use Rattle.b1_model.specs.declared.events.Action.TheVariants as act;
ghost use Rattle.b1_model.specs.MachinePool.{is_received};
ghost use Rattle.b1_model.specs.MachineReceive.{slice_released};
ghost use Rattle.b1_model.specs.MachineDriver.{next_action, refused_at};
ghost use Rattle.b1_model.specs.MachineEvents.{local_answer as answer_of_local, local_part, number_of};
ghost use Rattle.b1_event.specs.Events.{open_in, Allowed, Does};

use b1_driver::DriverState;
use b1_model::{Answer, Command, Outcome, Reason, Refused};
use b1_peer::PeerState;
use b1_pool::PoolKind;
use b1_queue::QueueKind;

/// The front is taken.
pub fn recv<Q: QueueKind, P: PoolKind>(driver: &mut DriverState, peer: &mut PeerState<Q, P>)
    requires next { next_action driver.old.part ≡ act.Recv }
    requires allowed { Allowed driver.old.part act.Recv peer.old.part }
    ensures { (o : Openings) → Does o driver.old peer.old driver.new peer.new }
{
    let got = peer.recv();
    let dead = peer.has_dead();
    driver.took(Outcome::Recv { got, dead });
}

/// References that are to be given up are taken.
pub fn reap<Q: QueueKind, P: PoolKind>(driver: &mut DriverState, peer: &mut PeerState<Q, P>)
    requires next { next_action driver.old.part ≡ act.Reap }
    ensures { (o : Openings) → Does o driver.old peer.old driver.new peer.new }
{
    let got = peer.reap();
    let dead = peer.has_dead();
    driver.took(Outcome::Reap { got, dead });
}

/// A handle is given up once.
pub fn release<Q: QueueKind, P: PoolKind>(driver: &mut DriverState, peer: &mut PeerState<Q, P>)
    requires next { next_action driver.old.part ≡ act.Release }
    ensures { (o : Openings) → Does o driver.old peer.old driver.new peer.new }
{
    let got = peer.release(number(driver));
    driver.took(Outcome::Release(got));
}

// The number of the HANDLE_RELEASE that is open.
fn number(driver: &DriverState) -> u64
    requires { next_action driver.now.part ≡ act.Release }
    ensures { result ≡ number_of (open_in driver.now.part).command }
{
    match driver.command() {
        Some(Command::Release { number }) => *number,
        _ => unreachable!(),
    }
}

/// A node's owner takes references back.
pub fn drop_refs<Q: QueueKind, P: PoolKind>(
    owner: u32,
    serial: u32,
    holder: u32,
    k: u64,
    clock: u64,
    driver: &mut DriverState,
    peer: &mut PeerState<Q, P>,
)
    requires next { next_action driver.old.part ≡ act.DropRefs owner serial holder k clock }
    requires allowed { Allowed driver.old.part
        (act.DropRefs owner serial holder k clock) peer.old.part }
    ensures { (o : Openings) → Does o driver.old peer.old driver.new peer.new }
{
    peer.drop_refs(serial, holder, k, clock);
    driver.took(Outcome::DropRefs);
}

/// A command of one event is done.
pub fn local<Q: QueueKind, P: PoolKind>(driver: &mut DriverState, peer: &mut PeerState<Q, P>)
    requires next { next_action driver.old.part ≡ act.Local }
    ensures { (o : Openings) → Does o driver.old peer.old driver.new peer.new }
{
    let answer = local_answer(driver, peer);
    driver.took(Outcome::Local(answer));
}

// What a command of one event answers.
fn local_answer<Q: QueueKind, P: PoolKind>(
    driver: &DriverState,
    peer: &mut PeerState<Q, P>,
) -> Answer
    requires next { next_action driver.now.part ≡ act.Local }
    ensures answer { result ≡ answer_of_local driver.now.part.shut
        (open_in driver.now.part).command peer.old.part }
    ensures part { peer.new.part
        ≡ local_part driver.now.part.shut (open_in driver.now.part).command peer.old.part }
    ensures users { peer.new.users ≡ peer.old.users }
{
    if driver.is_shut() {
        return refused(Reason::Shutdown);
    }
    match driver.command() {
        Some(Command::SliceRelease { offset }) => release_slice(*offset, peer),
        Some(Command::Query) => info(peer),
        Some(Command::Limit { limits }) => {
            peer.limit(*limits);
            Answer::Done
        }
        _ => unreachable!(),
    }
}

// A received slice is given back.
fn release_slice<Q: QueueKind, P: PoolKind>(offset: u64, peer: &mut PeerState<Q, P>) -> Answer
    ensures answer { result ≡ if is_received offset peer.old.part.slices then answer.Done
        else refused_at (reason.Unknown offset) None }
    ensures part { peer.new.part ≡ slice_released peer.old.part offset }
    ensures users { peer.new.users ≡ peer.old.users }
{
    match peer.slice_release(offset) {
        Ok(()) => Answer::Done,
        Err(reason) => refused(reason),
    }
}

// The peer's user, pool and limits.
fn info<Q: QueueKind, P: PoolKind>(peer: &PeerState<Q, P>) -> Answer
    ensures { result ≡ answer.Info peer.now.part.user peer.now.part.pool peer.now.part.limits }
{
    let spec = peer.query();
    Answer::Info {
        user: spec.user,
        pool: spec.pool,
        limits: spec.limits,
    }
}

// A refusal without a place.
fn refused(reason: Reason) -> Answer
    ensures { result ≡ refused_at reason None }
{
    Answer::Refused(Refused {
        reason,
        place: None,
    })
}
