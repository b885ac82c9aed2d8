ghost use Rattle.b1_model.specs.declared.naming.Opening.{Opening};
ghost use Rattle.b1_model.specs.Opening.{IsOpening};
ghost use Rattle.b1_model.specs.MachineParts.{State};
ghost use Rattle.b1_model.specs.MachineStep.{Reached};
ghost use Rattle.b1_event.specs.Borne.{AreShort, BearsEvents};

use b1_law::every_reached_state_is_sound;

/// In every reached state whose drivers have short lists of calls, the next event of each driver is at a peer of the bus,
/// and has there all that `do_event` asks for: of the two parts, and of what the two values say beside them.
pub fn reached_states_bear_events()
    ensures { (o : Opening) (s : State) → IsOpening o → Reached o s → AreShort s → BearsEvents o s }
{
    every_reached_state_is_sound();
}
