ghost use Rattle.std.specs.Prelude.{◌≡◌, ◌≢◌, ◌<◌, true, false, length};
ghost use Rattle.b1_model.specs.declared.naming.Opening.{Opening as Openings};
ghost use Rattle.b1_model.specs.declared.events.Action.TheVariants as act;
ghost use Rattle.b1_model.specs.MachineDriver.{next_action};
ghost use Rattle.b1_event.specs.Events.{Allowed, Does, HasStock, HasUsers};
ghost use Rattle.b1_locks.specs.Locks.{IsBeginRefused};

use b1_driver::DriverState;
use b1_event::do_event;
use b1_model::{Action, Command, Opening, Outcome, Reason};
use b1_peer::PeerState;
use b1_pool::PoolKind;
use b1_queue::QueueKind;

/// Does the next event of a driver whose command is open, at the peer where it is. Where `short`, a SEND that begins is
/// refused for want of memory if nothing else refuses it.
pub fn do_one<Q: QueueKind, P: PoolKind>(
    opening: &Opening,
    driver: &mut DriverState,
    at: &mut PeerState<Q, P>,
    short: bool,
)
    requires allowed { Allowed driver.old.part (next_action driver.old.part) at.old.part }
    requires stock { HasStock (next_action driver.old.part) at.old.part driver.old }
    requires known { driver.old.part.me < length opening.now.peers }
    requires users { HasUsers opening.now at.old.users }
    ensures does { Does opening.now driver.old at.old driver.new at.new }
    ensures short { short ≡ true → next_action driver.old.part ≡ act.Begin
        → IsBeginRefused driver.old.part driver.new.part }
{
    if short && is_begin(driver.next()) {
        refuse_begin(driver, at);
    } else {
        do_event(opening, driver, at);
    }
}

// Whether a SEND begins.
fn is_begin(action: Action) -> bool
    ensures yes { result ≡ true → action ≡ act.Begin }
    ensures no { result ≡ false → action ≢ act.Begin }
{
    matches!(action, Action::Begin)
}

// A SEND that begins is refused, for want of memory if nothing else refuses it.
fn refuse_begin<Q: QueueKind, P: PoolKind>(driver: &mut DriverState, peer: &PeerState<Q, P>)
    requires next { next_action driver.old.part ≡ act.Begin }
    ensures does { (o : Openings) → Does o driver.old peer.now driver.new peer.now }
    ensures refused { IsBeginRefused driver.old.part driver.new.part }
{
    let Some(Command::Send(send)) = driver.command() else {
        unreachable!()
    };
    let reason = match peer.may_send(send) {
        Ok(()) => Reason::Memory,
        Err(reason) => reason,
    };
    driver.took(Outcome::Begin(Err(reason)));
}
