ghost use Rattle.std.specs.Prelude.{◌≡◌, ◌<◌, true, false, length, IfOk, OnErr};
ghost use Rattle.b1_model.specs.Opening.{IsOpening};
ghost use Rattle.b1_model.specs.MachineStep.{opening_state, record_of_state};
ghost use Rattle.b1_model.specs.Legal.{Legal};
ghost use Rattle.b1_model.specs.MachineStep.{Reached};
ghost use Rattle.b1_legal.specs.Promises.{StepsKeepPromises};
ghost use Rattle.b1_core.specs.Turns.{driver_at, has_ended as has_ended_at, has_open, Drains, Turns};

use crate::ending::records;
use crate::making::{copy_opening, make_drivers, make_peers};
use crate::stepping::{drain_command, has_ended, is_open, turn, wanted};
use crate::turn::Turn;
use b1_driver::DriverState;
use b1_legal::{every_reached_record_is_legal, every_step_keeps_promises};
use b1_model::{CommandLists, Opening, PeerCalls, PeerLists, Record};
use b1_peer::PeerState;
use b1_pool::PoolKind;
use b1_queue::QueueKind;
use std::alloc::{AllocError, Global};
use std::marker::Model;

/// A bus on one thread: all its peers and drivers, each driver's commands, and the room for the record.
///
/// Contracts see how it was opened, the commands, and the state that the turns have led to. A peer has fewer than 2^25
/// calls: one more is answered as want of memory.
#[derive(Drop)]
pub struct Core<Q: QueueKind, P: PoolKind> {
    opening: Opening,
    commands: CommandLists,
    peers: Vec<PeerState<Q, P>>,
    drivers: Vec<DriverState>,
    room: Vec<PeerCalls>,
    alloc: Global,
}

impl<Q: QueueKind, P: PoolKind> Model for Core<Q, P> {
    ghost use Rattle.std.specs.Prelude.{◌≡◌, ◌≤◌, [], length, vec_capacity};
    ghost use Rattle.b1_core.specs.Turns.{Bus};
    ghost use Rattle.b1_core.specs.Bus.{state_of, IsCore};

    ghost Value = { Bus };

    ghost view = { λ c. record {
      opening = c.opening;
      commands = c.commands;
      state = state_of c.peers.items c.drivers.items;
    } };

    ghost invariant = { λ c. record {
      core : IsCore c.opening c.commands c.peers.items c.drivers.items;
      empty : c.room.items ≡ [];
      room : length c.peers.items ≤ vec_capacity c.room;
    } };
}

impl<Q: QueueKind, P: PoolKind> Core<Q, P> {
    /// A bus before its first turn, with a list of commands for each peer. An error is want of memory.
    pub fn start(
        alloc: Global,
        opening: &Opening,
        commands: CommandLists,
    ) -> Result<Core<Q, P>, AllocError>
        requires opening { IsOpening opening.now }
        requires lists { length commands ≡ length opening.now.peers }
        ensures { IfOk result (λ c. c
            ≡ record {
              opening = opening.now;
              commands = commands;
              state = opening_state opening.now;
            }) }
    {
        let peers = make_peers(alloc, opening)?;
        let drivers = make_drivers(alloc, opening)?;
        let room = Vec::with_capacity(alloc, opening.peers.len())?;
        Ok(Core {
            opening: copy_opening(alloc, opening)?,
            commands,
            peers,
            drivers,
            room,
            alloc,
        })
    }

    /// One turn of peer p: the next event of its open command, or the first one of its next command, with its references
    /// resolved; nothing where no command is open and none is left. Whatever step it is, release notices come and go when
    /// they are due, and a receive takes the front or shows the right one. An error is want of memory for the call before a
    /// command's first event, and changes nothing.
    pub fn step(&mut self, p: u32) -> Result<Turn, AllocError>
        requires peer { p < length self.old.opening.peers }
        ensures turn { IfOk result (λ turn. Turns self.old p turn self.new) }
        ensures promises { StepsKeepPromises self.old.opening self.old.state }
        ensures err { OnErr result (self.new ≡ self.old) }
        ensures closed { OnErr result (has_open self.old p ≡ false) }
    {
        self.facts();
        match wanted(self.alloc, &self.commands, p, &self.drivers[p as usize])? {
            Some(command) => turn(
                &self.opening,
                p,
                command,
                &mut self.peers,
                &mut self.drivers,
            ),
            None => Ok(Turn::Idle),
        }
    }

    /// One turn of the drain: as `step`, with an attempt to receive that begins where no command is open. The commands of
    /// peer p must be at their end, and it must not have disconnected. An error is as that of `step`.
    pub fn drain_step(&mut self, p: u32) -> Result<Turn, AllocError>
        requires peer { p < length self.old.opening.peers }
        requires ended { has_ended_at self.old p ≡ true }
        requires there { (driver_at self.old.state p).shut ≡ false }
        ensures turn { IfOk result (λ turn. Drains self.old p turn self.new) }
        ensures promises { StepsKeepPromises self.old.opening self.old.state }
        ensures err { OnErr result (self.new ≡ self.old) }
        ensures closed { OnErr result (has_open self.old p ≡ false) }
    {
        self.facts();
        let command = drain_command(&self.drivers[p as usize]);
        turn(
            &self.opening,
            p,
            command,
            &mut self.peers,
            &mut self.drivers,
        )
    }

    /// Whether peer p has an open command.
    pub fn is_open(&self, p: u32) -> bool
        requires { p < length self.now.opening.peers }
        ensures { result ≡ has_open self.now p }
    {
        is_open(&self.drivers[p as usize])
    }

    /// Whether the commands of peer p are all ended.
    pub fn at_end(&self, p: u32) -> bool
        requires { p < length self.now.opening.peers }
        ensures { result ≡ has_ended_at self.now p }
    {
        has_ended(&self.commands, p, &self.drivers[p as usize])
    }

    /// Whether peer p has disconnected.
    pub fn is_shut(&self, p: u32) -> bool
        requires { p < length self.now.opening.peers }
        ensures { result ≡ (driver_at self.now.state p).shut }
    {
        self.drivers[p as usize].is_shut()
    }

    /// What always holds of a bus: steps have led to its state, whose record is legal, and every step from it keeps what
    /// is promised of steps. Does nothing.
    pub fn facts(&self)
        ensures reached { Reached self.now.opening self.now.state }
        ensures legal { Legal self.now.opening (record_of_state self.now.state) }
        ensures promises { StepsKeepPromises self.now.opening self.now.state }
    {
        let _ = &self.opening;
        every_reached_record_is_legal();
        every_step_keeps_promises();
    }

    /// The record of the state, which is legal. Takes no memory.
    pub fn finish(self) -> Record
        ensures record { result ≡ record_of_state self.state }
        ensures reached { Reached self.opening self.state }
        ensures legal { Legal self.opening result }
    {
        self.facts();
        let Core {
            peers,
            drivers,
            room,
            ..
        } = self;
        Record {
            peers: PeerLists::from_vec(records(peers, drivers, room)),
        }
    }
}
