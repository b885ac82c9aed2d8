ghost use Rattle.std.specs.Prelude.{◌≡◌, ◌<◌, ◌≤◌, [], ◌∷◌, drop, length, map, replicate, vec_capacity, IfOk, All};
ghost use Rattle.std.specs.List.{AllByRecursion};
ghost use Rattle.b1_model.specs.Opening.{IsOpening};
ghost use Rattle.b1_model.specs.MachineStep.{opening_state};
ghost use Rattle.b1_rule.specs.Rule.{held_by, holding, state_of, whole};
ghost use Rattle.b1_locks.specs.Faces.{crew, members, IsClosed};
ghost use Rattle.b1_bus.specs.Seated.{seated, IsSeated};

use crate::kinds::{Board, Bus, Driver, Peer, Place};
use atomic_table::Table;
use b1_core::{copy_opening, make_drivers, make_peers};
use b1_driver::DriverState;
use b1_model::Opening;
use b1_rule::{First, Start};
use std::alloc::{AllocError, Global};
use std::snapshot::Snapshot;

/// A bus in its opening state, and its drivers in the order of their peers, without calls and without room for any. An
/// error is want of memory.
pub fn make(alloc: Global, opening: &Opening) -> Result<(Bus, Vec<Driver>), AllocError>
    requires { IsOpening opening.now }
    ensures opening { IfOk result (λ made. made.0.opening ≡ opening.now) }
    ensures first { IfOk result (λ made. made.0.first ≡ opening_state opening.now) }
    ensures members { IfOk result (λ made. members made.1.items ≡ crew made.0) }
    ensures parts { IfOk result (λ made. map (λ d. d.own.part) made.1.items
        ≡ (opening_state opening.now).drivers) }
    ensures spare { IfOk result (λ made. All (λ d. d.own.spare ≡ 0) made.1.items) }
{
    let peers = make_peers(alloc, opening)?;
    let drivers = make_drivers(alloc, opening)?;
    lay(alloc, copy_opening(alloc, opening)?, peers, drivers)
}

/// A bus in the state of these peers and drivers, and its drivers in the order of their peers. An error is want of
/// memory.
pub(crate) fn lay(
    alloc: Global,
    opening: Opening,
    peers: Vec<Peer>,
    drivers: Vec<DriverState>,
) -> Result<(Bus, Vec<Driver>), AllocError>
    requires { IsClosed opening peers.items drivers.items }
    ensures opening { IfOk result (λ made. made.0.opening ≡ opening) }
    ensures first { IfOk result (λ made. made.0.first ≡ state_of peers.items drivers.items) }
    ensures members { IfOk result (λ made. members made.1.items ≡ crew made.0) }
    ensures drivers { IfOk result (λ made. map (λ d. d.own) made.1.items ≡ drivers.items) }
{
    let room = Vec::with_capacity(alloc, drivers.len())?;
    let (table, seat) = open_board(alloc, &opening, peers, &drivers)?;
    let drivers = seat_all(&table, seat, drivers, room);
    Ok((Bus::new(table, opening), drivers))
}

/// The words of so many free locks.
fn free_locks(alloc: Global, count: usize) -> Result<Vec<u64>, AllocError>
    ensures { IfOk result (λ words. words.items ≡ replicate count 0) }
{
    Vec::from_elem(alloc, 0, count)
}

/// A table with all locks free and all peers at home, and its one seat, which has all drivers' parts.
fn open_board(
    alloc: Global,
    opening: &Opening,
    peers: Vec<Peer>,
    drivers: &Vec<DriverState>,
) -> Result<(Board, Place), AllocError>
    requires { IsClosed opening.now peers.items drivers.now.items }
    ensures opening { IfOk result (λ made. made.0.shared.key.opening.value ≡ opening.now) }
    ensures peers { IfOk result (λ made. made.0.shared.key.peers.value.items ≡ peers.items) }
    ensures drivers { IfOk result (λ made. made.0.shared.key.drivers.value.items
        ≡ drivers.now.items) }
    ensures words { IfOk result (λ made. made.0.shared.table_id.words ≡ length opening.now.peers) }
    ensures slots { IfOk result (λ made. made.0.shared.table_id.slots ≡ length opening.now.peers) }
    ensures table { IfOk result (λ made. made.1.table_id ≡ made.0.shared.table_id) }
    ensures seat { IfOk result (λ made. made.1.me
        ≡ (whole opening.now (held_by drivers.now.items), [])) }
{
    let words = free_locks(alloc, peers.len())?;
    let begun = Start {
        opening: Snapshot::of(opening),
        peers: Snapshot::of(&peers),
        drivers: Snapshot::of(drivers),
    };
    match Table::new(alloc, words.as_slice(), peers, &begun) {
        Ok(made) => Ok(made),
        Err(_) => Err(AllocError),
    }
}

/// A driver with a seat of its own, to which the first part of another seat goes.
fn seat_one(table: &Board, seat: &mut Place, state: DriverState) -> Driver
    requires table { seat.old.table_id ≡ table.now.shared.table_id }
    requires parts { seat.old.me ≡ (
      whole seat.old.me.0.opening (holding state
          ∷ drop 1 seat.old.me.0.parts),
      [],
    ) }
    requires seated { IsSeated seat.old.me.0.opening state }
    requires words { seat.old.table_id.words ≡ length seat.old.me.0.opening.peers }
    ensures table { seat.new.table_id ≡ seat.old.table_id }
    ensures parts { seat.new.me ≡ (whole seat.old.me.0.opening (drop 1 seat.old.me.0.parts), []) }
    ensures driver { result ≡ seated seat.old.table_id seat.old.me.0.opening state }
{
    let own = table.shared.split_seat::<First>(seat);
    Driver::new(own, state)
}

/// Each driver with a seat of its own, in a list that has room for them.
fn seat_all(
    table: &Board,
    mut seat: Place,
    mut states: Vec<DriverState>,
    mut drivers: Vec<Driver>,
) -> Vec<Driver>
    requires table { seat.table_id ≡ table.now.shared.table_id }
    requires parts { seat.me ≡ (whole seat.me.0.opening (held_by states.items), []) }
    requires words { seat.table_id.words ≡ length seat.me.0.opening.peers }
    requires seated { AllByRecursion (IsSeated seat.me.0.opening) states.items }
    requires empty { drivers.items ≡ [] }
    requires room { length states.items ≤ vec_capacity drivers }
    ensures { result.items ≡ map (seated seat.table_id seat.me.0.opening) states.items }
{
    while !states.is_empty() {
        let state = states.remove(0);
        drivers.push_reserved(seat_one(table, &mut seat, state));
    }
    drivers
}
