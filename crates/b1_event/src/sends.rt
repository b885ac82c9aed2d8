//! The events of a SEND.

ghost use Rattle.std.specs.Prelude.{◌≡◌, ◌<◌, ◌≤◌, ◌-◌, ◌^◌, ◌+◌, length, IfOk};
ghost use Rattle.b1_model.specs.declared.naming.Opening.{Opening as Openings};
ghost use Rattle.b1_model.specs.declared.events.Action.TheVariants as act;
ghost use Rattle.b1_model.specs.MachineDriver.{next_action, node_of_place, send_of};
ghost use Rattle.b1_model.specs.MachineEvents.{user_of};
ghost use Rattle.b1_driver.specs.Parts.{send_in, HasRoomFor};
ghost use Rattle.b1_peer.specs.Answers.{Begins};
ghost use Rattle.b1_event.specs.Events.{open_in, Allowed, Does, HasUsers, IsSend};

use b1_driver::DriverState;
use b1_model::{Begun, Command, NodeRefs, Opening, Outcome, Reason, SendCmd};
use b1_peer::PeerState;
use b1_pool::PoolKind;
use b1_queue::QueueKind;

/// A SEND begins.
pub fn begin<Q: QueueKind, P: PoolKind>(driver: &mut DriverState, peer: &mut PeerState<Q, P>)
    requires next { next_action driver.old.part ≡ act.Begin }
    requires allowed { Allowed driver.old.part act.Begin peer.old.part }
    ensures { (o : Openings) → Does o driver.old peer.old driver.new peer.new }
{
    let got = begin_send(driver, peer);
    driver.took(Outcome::Begin(got));
}

// Takes the room of the SEND that is open, and begins it at its peer.
fn begin_send<Q: QueueKind, P: PoolKind>(
    driver: &mut DriverState,
    peer: &mut PeerState<Q, P>,
) -> Result<Begun, Reason>
    requires next { next_action driver.old.part ≡ act.Begin }
    requires few { length peer.old.part.nodes < 2 ^ 32 - 64 }
    ensures begins { Begins peer.old.part (send_in driver.old.part.doing) result peer.new.part }
    ensures users { peer.new.users ≡ peer.old.users }
    ensures part { driver.new.part ≡ driver.old.part }
    ensures spare { driver.new.spare ≡ driver.old.spare }
    ensures room { HasRoomFor driver.new.room result }
    ensures doomed { driver.old.doomed ≤ driver.new.doomed }
    ensures here { driver.old.doomed ≤ driver.old.here → driver.new.doomed ≤ driver.new.here }
    ensures nodes { length peer.new.part.nodes + driver.old.doomed
        ≤ length peer.old.part.nodes + driver.new.doomed }
{
    let room = driver.room();
    let Some(Command::Send(send)) = driver.command() else {
        unreachable!()
    };
    match room {
        Ok(()) => peer.begin_send(send),
        Err(_) => refuse(peer, send),
    }
}

// The refusal of a SEND for want of memory, if nothing else refuses it.
fn refuse<Q: QueueKind, P: PoolKind>(
    peer: &PeerState<Q, P>,
    send: &SendCmd,
) -> Result<Begun, Reason>
    ensures begins { Begins peer.now.part send.now result peer.now.part }
    ensures refused { IfOk result (λ _. ⊥) }
{
    peer.may_send(send)?;
    Err(Reason::Memory)
}

/// A message is staged for a destination.
pub fn stage<Q: QueueKind, P: PoolKind>(
    opening: &Opening,
    owner: u32,
    place: u32,
    driver: &mut DriverState,
    peer: &mut PeerState<Q, P>,
)
    requires next { next_action driver.old.part ≡ act.Stage owner place }
    requires allowed { Allowed driver.old.part (act.Stage owner place) peer.old.part }
    requires known { driver.old.part.me < length opening.now.peers }
    requires users { HasUsers opening.now peer.old.users }
    ensures { Does opening.now driver.old peer.old driver.new peer.new }
{
    let begun = driver.begun();
    let got = peer.stage(
        driver.number(),
        user_of(opening, driver.number()),
        place,
        serial_at(&begun.to, place),
        payload(driver),
        begun.with.as_slice(),
    );
    driver.took(Outcome::Stage(got));
}

// The user of a peer.
fn user_of(opening: &Opening, p: u32) -> u32
    requires { p < length opening.now.peers }
    ensures { result ≡ user_of opening.now p }
{
    match opening.peers.get(p as usize) {
        Some(spec) => spec.user,
        None => unreachable!(),
    }
}

// The serial of the node at a place of a list.
fn serial_at(nodes: &NodeRefs, place: u32) -> u32
    requires { place < length nodes.now }
    ensures { result ≡ (node_of_place nodes.now place).serial }
{
    match nodes.get(place as usize) {
        Some(node) => node.serial,
        None => unreachable!(),
    }
}

// The bytes of the SEND that is open.
fn payload(driver: &DriverState) -> &[u8]
    requires { IsSend (open_in driver.now.part).command }
    ensures { result.now ≡ (send_of (open_in driver.now.part).command).payload }
{
    match driver.command() {
        Some(Command::Send(send)) => send.payload.as_slice(),
        _ => unreachable!(),
    }
}

/// A staged message is taken back.
pub fn unstage<Q: QueueKind, P: PoolKind>(
    owner: u32,
    place: u32,
    driver: &mut DriverState,
    peer: &mut PeerState<Q, P>,
)
    requires next { next_action driver.old.part ≡ act.Unstage owner place }
    ensures { (o : Openings) → Does o driver.old peer.old driver.new peer.new }
{
    peer.unstage(driver.number(), place);
    driver.took(Outcome::Unstage);
}

/// The owner of a carried node counts a reference for a destination.
pub fn attach<Q: QueueKind, P: PoolKind>(
    owner: u32,
    serial: u32,
    dest: u32,
    driver: &mut DriverState,
    peer: &mut PeerState<Q, P>,
)
    requires next { next_action driver.old.part ≡ act.Attach owner serial dest }
    requires allowed { Allowed driver.old.part (act.Attach owner serial dest) peer.old.part }
    ensures { (o : Openings) → Does o driver.old peer.old driver.new peer.new }
{
    let got = peer.attach(serial, dest);
    driver.took(Outcome::Attach(got));
}

/// A SEND gets its stamp.
pub fn stamp<Q: QueueKind, P: PoolKind>(driver: &mut DriverState, peer: &mut PeerState<Q, P>)
    requires next { next_action driver.old.part ≡ act.Stamp }
    requires allowed { Allowed driver.old.part act.Stamp peer.old.part }
    ensures { (o : Openings) → Does o driver.old peer.old driver.new peer.new }
{
    let got = peer.stamp(driver.collected());
    driver.took(Outcome::Stamp(got));
}

/// A clock is raised to a stamp.
pub fn sync<Q: QueueKind, P: PoolKind>(
    at: u32,
    stamp: u64,
    driver: &mut DriverState,
    peer: &mut PeerState<Q, P>,
)
    requires next { next_action driver.old.part ≡ act.Sync at stamp }
    requires allowed { Allowed driver.old.part (act.Sync at stamp) peer.old.part }
    ensures { (o : Openings) → Does o driver.old peer.old driver.new peer.new }
{
    peer.sync(stamp);
    driver.took(Outcome::Sync);
}

/// A staged message is committed, unless a flush cancelled it.
pub fn commit<Q: QueueKind, P: PoolKind>(
    owner: u32,
    place: u32,
    stamp: u64,
    driver: &mut DriverState,
    peer: &mut PeerState<Q, P>,
)
    requires next { next_action driver.old.part ≡ act.Commit owner place stamp }
    requires allowed { Allowed driver.old.part (act.Commit owner place stamp) peer.old.part }
    ensures { (o : Openings) → Does o driver.old peer.old driver.new peer.new }
{
    let found = peer.commit(driver.number(), place, stamp, driver.slots(place));
    driver.took(Outcome::Commit(found));
}
