ghost use Rattle.std.specs.Prelude.{◌≡◌, ◌==◌, ◌<◌, ◌≤◌, ◌+◌, ◌++◌, [], ◌∷◌, length, map, vec_capacity, IfOk, All, None};
ghost use Rattle.std.specs.List.{AllByRecursion};
ghost use Rattle.b1_model.specs.Legal.{Legal};
ghost use Rattle.b1_model.specs.MachineStep.{record_of_state, Reached};
ghost use Rattle.b1_rule.specs.Rule.{held_by, holding, state_of, whole, LedTo};
ghost use Rattle.b1_locks.specs.Faces.{crew, members, part_at, IsIdle};
ghost use Rattle.b1_bus.specs.Seated.{IsOn, driver_at};

use crate::kinds::{Board, Bus, Driver, Peer, Place};
use crate::making::lay;
use crate::taking::take_all;
use b1_core::records;
use b1_driver::DriverState;
use b1_legal::every_reached_record_is_legal;
use b1_model::{Call, Opening, PeerCalls, PeerLists, Record};
use b1_rule::Both;
use std::alloc::{AllocError, Global};
use std::marker::Model;

/// A bus that no thread shares any more, with no command open.
///
/// Contracts see how it was opened, and its peers and drivers.
#[derive(Drop)]
pub struct Closed {
    opening: Opening,
    peers: Vec<Peer>,
    drivers: Vec<DriverState>,
    room: Vec<PeerCalls>,
}

impl Model for Closed {
    ghost use Rattle.std.specs.Prelude.{◌≡◌, ◌≤◌, [], length, vec_capacity};
    ghost use Rattle.b1_locks.specs.Faces.{ClosedFace, IsClosed};

    ghost Value = { ClosedFace };

    ghost view = { λ c. record { opening = c.opening; peers = c.peers.items; drivers = c.drivers.items } };

    ghost invariant = { λ c. record {
      closed : IsClosed c.opening c.peers.items c.drivers.items;
      empty : c.room.items ≡ [];
      room : length c.peers.items ≤ vec_capacity c.room;
    } };
}

/// Closes a bus with all its drivers, in the order of their peers. Each of the closed bus's drivers is as it was; steps
/// have led from the state in which the bus was made to the closed one. An error is want of memory, and the bus and the
/// drivers are given up then.
pub fn close(alloc: Global, bus: Bus, drivers: Vec<Driver>) -> Result<Closed, AllocError>
    requires crew { members drivers.items ≡ crew bus }
    ensures opening { IfOk result (λ c. c.opening ≡ bus.opening) }
    ensures drivers { IfOk result (λ c. c.drivers ≡ map (λ d. d.own) drivers.items) }
    ensures led { IfOk result (λ c. LedTo c.opening bus.first (state_of c.peers c.drivers)) }
{
    let count = drivers.len();
    let peers = Vec::with_capacity(alloc, count)?;
    let states = Vec::with_capacity(alloc, count)?;
    let room = Vec::with_capacity(alloc, count)?;
    Ok(close_in(bus, drivers, peers, states, room))
}

/// Closes a bus, with lists that have room for its peers, its drivers and their records.
fn close_in(
    bus: Bus,
    drivers: Vec<Driver>,
    peers: Vec<Peer>,
    states: Vec<DriverState>,
    room: Vec<PeerCalls>,
) -> Closed
    requires crew { members drivers.items ≡ crew bus }
    requires no_peer { peers.items ≡ [] }
    requires no_state { states.items ≡ [] }
    requires no_record { room.items ≡ [] }
    requires for_peers { length drivers.items ≤ vec_capacity peers }
    requires for_states { length drivers.items ≤ vec_capacity states }
    requires for_records { length drivers.items ≤ vec_capacity room }
    ensures opening { result.opening ≡ bus.opening }
    ensures drivers { result.drivers ≡ map (λ d. d.own) drivers.items }
    ensures led { LedTo result.opening bus.first (state_of result.peers result.drivers) }
{
    let (table, opening) = bus.into_parts();
    let mut states = states;
    let seat = join_all(&table, drivers, &mut states);
    let peers = take_all(table.close_with(seat), peers);
    Closed {
        opening,
        peers,
        drivers: states,
        room,
    }
}

/// A seat takes a driver's part over from its seat. The driver's own state comes back.
fn join_one(table: &Board, seat: &mut Place, driver: Driver) -> DriverState
    requires table { seat.old.table_id ≡ table.now.shared.table_id }
    requires some { 0 < seat.old.table_id.words }
    requires rests { seat.old.me ≡ (whole seat.old.me.0.opening seat.old.me.0.parts, []) }
    requires driver { driver.table ≡ table.now.shared.table_id }
    ensures table { seat.new.table_id ≡ seat.old.table_id }
    ensures parts { seat.new.me ≡ (
      whole seat.old.me.0.opening (seat.old.me.0.parts
          ++ holding result ∷ []),
      [],
    ) }
    ensures state { result ≡ driver.own }
    ensures idle { IsIdle result }
{
    let (other, state) = driver.into_parts();
    table.shared.join_seat::<Both>(seat, other);
    state
}

/// One seat with all drivers' parts, in their order, and their states in a list that has room for them.
fn join_all(table: &Board, mut drivers: Vec<Driver>, states: &mut Vec<DriverState>) -> Place
    requires some { 0 < length drivers.items }
    requires words { 0 < table.now.shared.table_id.words }
    requires on { AllByRecursion (IsOn table.now.shared.table_id table.now.shared.key.opening.value) drivers.items }
    requires empty { states.old.items ≡ [] }
    requires room { length drivers.items ≤ vec_capacity states.old }
    ensures table { result.table_id ≡ table.now.shared.table_id }
    ensures parts { result.me ≡ (whole table.now.shared.key.opening.value (held_by states.new.items), []) }
    ensures states { states.new.items ≡ map (λ d. d.own) drivers.items }
    ensures idle { AllByRecursion IsIdle states.new.items }
{
    let (mut seat, first) = drivers.remove(0).into_parts();
    states.push_reserved(first);
    while !drivers.is_empty() {
        let next = drivers.remove(0);
        states.push_reserved(join_one(table, &mut seat, next));
    }
    seat
}

impl Closed {
    /// What always holds of a closed bus: steps have led to its state from its opening, and no command is open. Does
    /// nothing.
    pub fn facts(&self)
        ensures reached { Reached self.now.opening (state_of self.now.peers self.now.drivers) }
        ensures closed { All (λ d. d.part.doing ≡ None) self.now.drivers }
        ensures as_many { length self.now.drivers ≡ length self.now.peers }
    {
        let _ = &self.opening;
    }

    /// How many peers there are.
    pub fn count(&self) -> u32
        ensures { result ≡ length self.now.peers }
    {
        self.peers.len() as u32
    }

    /// Whether the queue of peer p is empty.
    pub fn is_empty(&self, p: u32) -> bool
        requires { p < length self.now.peers }
        ensures { result ≡ (length (part_at self.now.peers p).queue == 0) }
    {
        self.peers[p as usize].waiting() == 0
    }

    /// The calls of peer p, in their order.
    pub fn calls(&self, p: u32) -> &[Call]
        requires { p < length self.now.drivers }
        ensures { result.now ≡ (driver_at self.now.drivers p).calls }
    {
        self.drivers[p as usize].calls()
    }

    /// Whether peer p has disconnected.
    pub fn is_shut(&self, p: u32) -> bool
        requires { p < length self.now.drivers }
        ensures { result ≡ (driver_at self.now.drivers p).shut }
    {
        self.drivers[p as usize].is_shut()
    }

    /// A bus in the closed state, and its drivers in the order of their peers, as they were. An error is want of memory,
    /// and the closed bus is given up then.
    pub fn reopen(self, alloc: Global) -> Result<(Bus, Vec<Driver>), AllocError>
        ensures opening { IfOk result (λ made. made.0.opening ≡ self.opening) }
        ensures first { IfOk result (λ made. made.0.first ≡ state_of self.peers self.drivers) }
        ensures members { IfOk result (λ made. members made.1.items ≡ crew made.0) }
        ensures drivers { IfOk result (λ made. map (λ d. d.own) made.1.items ≡ self.drivers) }
    {
        let Closed {
            opening,
            peers,
            drivers,
            ..
        } = self;
        lay(alloc, opening, peers, drivers)
    }

    /// The record of the closed state, which is legal. Takes no memory.
    pub fn finish(self) -> Record
        ensures record { result ≡ record_of_state (state_of self.peers self.drivers) }
        ensures reached { Reached self.opening (state_of self.peers self.drivers) }
        ensures legal { Legal self.opening result }
    {
        every_reached_record_is_legal();
        let Closed {
            peers,
            drivers,
            room,
            ..
        } = self;
        Record {
            peers: PeerLists::from_vec(records(peers, drivers, room)),
        }
    }
}
