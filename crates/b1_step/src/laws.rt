ghost use Rattle.b1_model.specs.declared.naming.Opening.{Opening};
ghost use Rattle.b1_model.specs.declared.events.Outcome.{Outcome};
ghost use Rattle.b1_model.specs.MachineParts.{DriverPart, State};
ghost use Rattle.b1_model.specs.MachineStep.{Reached};
ghost use Rattle.b1_model.specs.MachineTook.{took};
ghost use Rattle.b1_step.specs.Ordered.{HandlesRise};
ghost use Rattle.b1_step.specs.Fixed.{Grows, IsNumbered};
ghost use Rattle.b1_step.specs.Laws.{ChangesOwnFields, ComputedIsStep, EachEvent, EachStep, ElseIsAtOwn, IsComputed};
ghost use Rattle.b1_step.specs.Laws.{KeepsClock, KeepsDriverCount, KeepsEachClock, KeepsOtherDrivers, KeepsOtherPeers};
ghost use Rattle.b1_step.specs.Laws.{KeepsPeerCount, KeepsRecordOrder, KeepsWhatIsOwn, LocalStepExtends, MemoryChangesNoOther};
ghost use Rattle.b1_step.specs.Laws.{MemoryRefuses, OwnListGrows, ReachedGoesOn, RecordedGrow, SameMemoryOneState, StepChangesOwnFields};
ghost use Rattle.b1_step.specs.Laws.{StepKeepsWhatIsOwn, WritesOnePeer, WritesOwnDriver};

/// A step changes the part of the driver that does it, and the part of the one peer where its event is, and nothing
/// else.
pub fn a_step_is_local()
    ensures own_driver { EachStep WritesOwnDriver }
    ensures other_drivers { EachStep KeepsOtherDrivers }
    ensures own_peer { EachStep WritesOnePeer }
    ensures other_peers { EachStep KeepsOtherPeers }
    ensures as_many_drivers { EachStep KeepsDriverCount }
    ensures as_many_peers { EachStep KeepsPeerCount }
{}

/// A step that is found on two parts is a step of every state that has these two parts.
pub fn a_step_extends()
    ensures { LocalStepExtends }
{}

/// A step is a function of the state, the driver, the command that begins and the bit for want of memory.
pub fn a_step_is_a_function()
    ensures computed { EachStep IsComputed }
    ensures step { ComputedIsStep }
    ensures one { SameMemoryOneState }
{}

/// Want of memory makes a difference only at a begin or a stage that nothing else refuses. It is refused for memory
/// then, and the peer's part stays.
pub fn memory_refuses_alone()
    ensures same { MemoryChangesNoOther }
    ensures refused { MemoryRefuses }
{}

/// Each event changes only the fields of the peer's part that are its own to change.
pub fn an_event_changes_its_fields()
    ensures event { EachEvent ChangesOwnFields }
    ensures step { EachStep StepChangesOwnFields }
{}

/// A driver's event at another peer keeps all that is that peer's own; every other event is at the driver's own peer.
pub fn others_keep_what_is_own()
    ensures event { EachEvent KeepsWhatIsOwn }
    ensures step { EachStep StepKeepsWhatIsOwn }
    ensures own { EachStep ElseIsAtOwn }
{}

/// No clock falls.
pub fn no_clock_falls()
    ensures event { EachEvent KeepsClock }
    ensures step { EachStep KeepsEachClock }
{}

/// A state that a step leads to from a reached state is reached.
pub fn a_reached_state_goes_on()
    ensures { ReachedGoesOn }
{}

/// In every reached state each part stands at its number, a peer's with its user and its pool by the opening, and there
/// are as many of both as the opening has peers.
pub fn parts_keep_their_numbers()
    ensures { (o : Opening) (s : State) → Reached o s → IsNumbered o s }
{}

/// A step adds one call at most to the list of the driver that does it, and one at most to the calls that stand in the
/// record for it: a fixed answer stays, and closing a command changes nothing of the record.
pub fn a_list_grows_by_one_call()
    ensures event { (d : DriverPart) (outcome : Outcome) → Grows d (took d outcome) }
    ensures step { EachStep OwnListGrows }
    ensures recorded { EachStep RecordedGrow }
{}

/// In every reached state the records of every peer stand in the order of their nodes, so no node has two; and each
/// event keeps that order.
pub fn records_stay_in_order()
    ensures event { EachEvent KeepsRecordOrder }
    ensures reached { (o : Opening) (s : State) → Reached o s → HandlesRise s }
{}
