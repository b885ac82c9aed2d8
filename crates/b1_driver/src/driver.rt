ghost use Rattle.std.specs.Prelude.{◌≡◌, ◌↔◌, ◌+◌, ◌≤◌, [], Some, None, true, false, length, max, option_copied, IfOk, OnOk, OnErr, vec_capacity};
ghost use Rattle.b1_model.specs.declared.events.Action.TheVariants.{BeginDestroy, Rest};
ghost use Rattle.b1_model.specs.declared.events.Outcome.TheVariants as out;
ghost use Rattle.b1_model.specs.declared.events.Phase.TheVariants.{Starting};
ghost use Rattle.b1_model.specs.MachineDriver.{next_action};
ghost use Rattle.b1_model.specs.MachineTook.{took, driver_calls};
ghost use Rattle.b1_model.specs.MachineStep.{idle_driver};
ghost use Rattle.b1_model.specs.MachineEvents.{begun_of, collected_of, doomed_of, no_begun, slots_at};
ghost use Rattle.b1_receipts.specs.Places.{data_places};
ghost use Rattle.b1_driver.specs.Parts.{by_phase, command_of, fits, hands_back, send_in, HasRoom, HasRoomAt};

use crate::actions::stage_action;
use crate::destroyed::begin_destroy_answered;
use crate::events::answered;
use crate::facts::Facts;
use crate::owing::Owing;
use crate::room::SendRoom;
use crate::seen::{open_begun, open_collected, open_command, open_doomed, open_slots, sizes};
use crate::settle::{all_calls, go_on, settle_after};
use crate::stage::{Open, Stage};
use b1_model::{
    Action, Begun, Call, Calls, Command, Front, NodeRefs, Outcome, PeerSet, Reason, Slot,
};
use std::alloc::{AllocError, Global};
use std::marker::Model;

/// One peer's driver: its calls, and the command that is open.
///
/// Contracts see its part of the machine's state, and beside it numbers: `spare` is how many more calls fit in the list;
/// `room` and `drops` are what was taken for a SEND; `doomed` is for how many doomed nodes room was taken, and `here` is
/// how many fit in the list that stands here.
#[derive(Drop)]
pub struct DriverState {
    me: u32,
    calls: Vec<Call>,
    /// Where the data receipts stand among the calls.
    places: Vec<usize>,
    facts: Facts,
    doing: Option<Open>,
    owing: Owing,
    room: SendRoom,
    promised: usize,
    doomed: Vec<u32>,
    nothing: Begun,
    alloc: Global,
}

impl Model for DriverState {
    ghost use Rattle.std.specs.Prelude.{◌≡◌, ◌-◌, ◌≤◌, vec_len, vec_capacity};
    ghost use Rattle.b1_driver.specs.Stages.{doing_of, open_handles, IsOpen, OwesDrop};
    ghost use Rattle.b1_model.specs.MachineEvents.{no_begun};
    ghost use Rattle.b1_driver.specs.Kept.{ArePlaces};
    ghost use Rattle.b1_driver.specs.Parts.{Driver, part_of};

    ghost Value = { Driver };

    ghost view = { λ d. record {
      part = part_of d.me d.calls.items d.facts (doing_of d.doomed.items d.doing) d.owing.drops;
      spare = vec_capacity d.calls - vec_len d.calls;
      room = d.room;
      drops = d.owing.room;
      doomed = d.promised;
      here = vec_capacity d.doomed;
    } };

    ghost invariant = { λ d. record {
      calls : vec_len d.calls ≤ vec_capacity d.calls;
      places : ArePlaces d.calls d.places;
      doing : IsOpen (vec_len d.calls) (vec_capacity d.calls) d.doing;
      handles : open_handles d.doing ≤ d.owing.room;
      drops : d.room.handles ≤ d.owing.room;
      owes : OwesDrop d.owing.drops d.doing;
      nothing : d.nothing ≡ no_begun;
    } };
}

impl DriverState {
    /// A driver of the peer `me` without calls, with room for `nodes` doomed nodes. An error is want of memory.
    pub fn make(alloc: Global, me: u32, nodes: u32) -> Result<DriverState, AllocError>
        ensures part { IfOk result (λ d. d.part ≡ idle_driver me) }
        ensures spare { IfOk result (λ d. d.spare ≡ 0) }
        ensures doomed { IfOk result (λ d. d.doomed ≡ nodes) }
        ensures here { IfOk result (λ d. nodes ≤ d.here) }
    {
        Ok(DriverState {
            me,
            calls: Vec::new(alloc),
            places: Vec::new(alloc),
            facts: Facts::new(),
            doing: None,
            owing: Owing::make(alloc)?,
            room: SendRoom::none(alloc),
            promised: nodes as usize,
            doomed: Vec::with_capacity(alloc, nodes as usize)?,
            nothing: Begun {
                to: NodeRefs::new(alloc),
                with: NodeRefs::new(alloc),
            },
            alloc,
        })
    }

    /// Makes room for `n` more calls. An error is want of memory, and leaves all as it was.
    pub fn reserve(&mut self, n: usize) -> Result<(), AllocError>
        ensures ok { OnOk result (self.new ≡ record self.old { spare = max self.old.spare n }) }
        ensures err { OnErr result (self.new ≡ self.old) }
    {
        self.places.reserve(n)?;
        self.calls.reserve_exact(n)
    }

    /// How many more calls fit in the list with no memory.
    pub fn spare(&self) -> usize
        ensures { result ≡ self.now.spare }
    {
        self.calls.capacity() - self.calls.len()
    }

    /// The number of the driver's peer.
    pub fn number(&self) -> u32
        ensures { result ≡ self.now.part.me }
    {
        self.me
    }

    /// The calls that ended.
    pub fn calls(&self) -> &[Call]
        ensures { result.now ≡ self.now.part.calls }
    {
        self.calls.as_slice()
    }

    /// Where the data receipts stand among the calls that ended, in their order.
    pub fn data_places(&self) -> &[usize]
        ensures { result.now ≡ data_places self.now.part.calls }
    {
        self.places.as_slice()
    }

    /// The calls that ended, and the open command behind them where its answer is fixed. Takes no memory.
    pub fn into_calls(self) -> Calls
        ensures { result ≡ driver_calls self.part }
    {
        let DriverState { calls, doing, .. } = self;
        Calls::from_vec(all_calls(calls, doing))
    }

    /// Whether the driver has disconnected.
    pub fn is_shut(&self) -> bool
        ensures { result ≡ self.now.part.shut }
    {
        self.facts.shut
    }

    /// A command begins. Takes no memory.
    pub fn begin(&mut self, command: Command)
        requires rest { self.old.part.doing ≡ None }
        requires spare { 1 ≤ self.old.spare }
        ensures { self.new ≡ record self.old {
          part = record self.old.part {
            doing = Some (record {
              command = command;
              phase = Starting;
            });
          };
        } }
    {
        self.doing = Some(Open {
            command,
            stage: Stage::Starting,
        });
    }

    /// Takes all room that the open SEND needs here, and room for as many more doomed nodes as it carries handles. An
    /// error is want of memory, and leaves the part as it was.
    pub fn room(&mut self) -> Result<(), AllocError>
        ensures part { self.new.part ≡ self.old.part }
        ensures spare { self.new.spare ≡ self.old.spare }
        ensures room { OnOk result (HasRoom self.new.room (length (send_in self.old.part.doing).to)
            (length (send_in self.old.part.doing).with)) }
        ensures doomed { OnOk result (self.new.doomed
            ≡ self.old.doomed + length (send_in self.old.part.doing).with) }
        ensures here { OnOk result (self.new.doomed ≤ self.new.here) }
        ensures kept { OnErr result (self.new.doomed ≡ self.old.doomed) }
        ensures same { self.old.here ≤ self.new.here }
    {
        let (destinations, handles) = sizes(&self.doing);
        let promised = self.promised.checked_add(handles).ok_or(AllocError)?;
        if u32::try_from(destinations).is_err() {
            return Err(AllocError);
        }
        self.doomed.reserve(promised)?;
        self.owing.reserve(handles)?;
        self.room = SendRoom::make(self.alloc, destinations, handles)?;
        self.promised = promised;
        Ok(())
    }

    /// The event to do; `Rest` exactly where no command is open.
    pub fn next(&self) -> Action
        ensures action { result ≡ next_action self.now.part }
        ensures rest { (result ≡ Rest) ↔ (self.now.part.doing ≡ None) }
    {
        let Some(one) = &self.doing else {
            return Action::Rest;
        };
        match self.owing.first() {
            Some(drop) => Action::DropRefs {
                peer: drop.node.owner,
                serial: drop.node.serial,
                holder: drop.holder,
                k: drop.amount,
                clock: drop.clock,
            },
            None => stage_action(self.me, self.facts.shut, &one.command, &one.stage),
        }
    }

    /// The open command; `None` exactly where none is open.
    pub fn command(&self) -> Option<&Command>
        ensures { option_copied result ≡ command_of self.now.part.doing }
    {
        open_command(&self.doing)
    }

    /// The nodes of the open SEND's destinations and handles; none where it has none.
    pub fn begun(&self) -> &Begun
        ensures { result.now ≡ by_phase no_begun begun_of self.now.part.doing }
    {
        open_begun(&self.doing, &self.nothing)
    }

    /// What each carried handle of the open SEND is at a place; none where nothing is known.
    pub fn slots(&self, place: u32) -> &[Slot]
        ensures { result.now ≡ by_phase [] (λ phase. slots_at phase place) self.now.part.doing }
    {
        open_slots(&self.doing, place)
    }

    /// The greatest clock that the open command collected, 0 where none was.
    pub fn collected(&self) -> u64
        ensures { result ≡ by_phase 0 collected_of self.now.part.doing }
    {
        open_collected(&self.doing)
    }

    /// The serials of the open destruction's nodes; none where there is no destruction.
    pub fn doomed(&self) -> &[u32]
        ensures { result.now ≡ by_phase [] doomed_of self.now.part.doing }
    {
        open_doomed(&self.doing, &self.doomed)
    }

    /// Hands the list of doomed nodes out, empty and with its room.
    pub fn take_doomed(&mut self) -> Vec<u32>
        requires { next_action self.old.part ≡ BeginDestroy }
        ensures empty { result.items ≡ [] }
        ensures room { vec_capacity result ≡ self.old.here }
        ensures kept { self.new ≡ record self.old { here = 0 } }
    {
        let mut list = std::mem::replace(&mut self.doomed, Vec::new(self.alloc));
        list.clear();
        list
    }

    /// The front that the last attempt at an absent or staged front found, and how many entries it removed; `None`
    /// where there was no such attempt.
    pub fn attempted(&self) -> Option<(Front, u64)>
        ensures { result ≡ self.now.part.attempted }
    {
        self.facts.attempted
    }

    /// How many such attempts there were; stays at 2^64 - 1.
    pub fn attempts(&self) -> u64
        ensures { result ≡ self.now.part.attempts }
    {
        self.facts.attempts
    }

    /// What the event that was next answered. Takes no memory.
    pub fn took(&mut self, outcome: Outcome)
        requires kind { fits (next_action self.old.part) outcome ≡ true }
        requires room { HasRoomAt self.old.room outcome }
        ensures part { self.new.part ≡ took self.old.part outcome }
        ensures calls { self.new.spare + length self.new.part.calls
            ≡ self.old.spare + length self.old.part.calls }
        ensures doomed { self.new.doomed ≡ self.old.doomed }
        ensures here { hands_back outcome ≡ false → self.new.here ≡ self.old.here }
    {
        let Some(Open { command, stage }) = self.doing.take() else {
            unreachable!()
        };
        self.facts.note(&command, &outcome);
        let after = answered(
            self.me,
            &command,
            stage,
            outcome,
            &mut self.owing,
            &mut self.room,
            &mut self.doomed,
        );
        let after = settle_after(after, &self.owing, self.facts.told);
        go_on(
            &mut self.doing,
            &mut self.calls,
            &mut self.places,
            command,
            after,
        );
    }

    /// What `took` does for a destruction's begin, where the list of doomed nodes comes back with its room.
    pub fn took_begin_destroy(&mut self, got: Result<PeerSet, Reason>, doomed: Vec<u32>)
        requires { next_action self.old.part ≡ BeginDestroy }
        ensures part { self.new.part ≡ took self.old.part (out.BeginDestroy got doomed.items) }
        ensures calls { self.new.spare + length self.new.part.calls
            ≡ self.old.spare + length self.old.part.calls }
        ensures doomed { self.new.doomed ≡ self.old.doomed }
        ensures here { self.new.here ≡ vec_capacity doomed }
    {
        let Some(Open { command, stage }) = self.doing.take() else {
            unreachable!()
        };
        let after = begin_destroy_answered(stage, got, doomed, &mut self.doomed);
        let after = settle_after(after, &self.owing, self.facts.told);
        go_on(
            &mut self.doing,
            &mut self.calls,
            &mut self.places,
            command,
            after,
        );
    }
}
