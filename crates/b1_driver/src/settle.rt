ghost use Rattle.std.specs.Prelude.{◌≡◌, ◌≢◌, [], true, ◌+◌, ◌≤◌, ◌<◌, ◌++◌, ℕ, List, Some, vec_len, vec_capacity};
ghost use Rattle.b1_model.specs.declared.commands.Command.{Command as Commands};
ghost use Rattle.b1_model.specs.declared.events.OwedDrop.{OwedDrop as OwedDrops};
ghost use Rattle.b1_model.specs.MachineTook.{answer_of, as_call, call_of, is_waiting, open_by, stamped_answer};
ghost use Rattle.b1_driver.specs.Parts.{settled, settled_turn};
ghost use Rattle.b1_driver.specs.Stages.{calls_after, doing_of, open_after, open_handles, phase_of, send_phase, turn_of, handles_in, handles_after, is_dropping_after, IsStage, IsAfter, IsOpen, OwesDrop};
ghost use Rattle.b1_driver.specs.Kept.{ArePlaces};

use crate::destroys::is_flushing;
use crate::facts::is_await;
use crate::owing::Owing;
use crate::places::is_place;
use crate::stage::{After, DestroyStage, Open, SendStage, Stage};
use b1_model::{Answer, Call, Command, Reason, Refused, Sent};
use b1_receipts::note;

/// A command stays in its stage, or ends there where nothing is left of it.
pub fn settle(stage: Stage, owing: &Owing, told: bool) -> After
    requires { IsStage stage }
    ensures turn { (command : Commands) (doomed : List ℕ)
        → turn_of doomed result ≡ settled owing.now.drops told command (phase_of doomed stage) }
    ensures holds { IsAfter result }
    ensures handles { handles_after result ≤ handles_in stage }
    ensures owes { is_dropping_after result ≡ true → owing.now.drops ≢ [] }
{
    if !owing.is_empty() {
        return After::Goes(stage);
    }
    match stage {
        Stage::Sending(
            SendStage::Committing {
                sending,
                stamp,
                place,
            },
        ) => {
            if is_place(place, sending.places.as_slice()) {
                return After::Goes(Stage::Sending(SendStage::Committing {
                    sending,
                    stamp,
                    place,
                }));
            }
            After::Ends(Answer::Sent(Sent {
                stamp,
                places: sending.places,
            }))
        }
        Stage::Dropping => After::Ends(Answer::Done),
        Stage::Reaping(answer) => {
            if told {
                return After::Goes(Stage::Reaping(answer));
            }
            After::Ends(answer)
        }
        stage => After::Goes(stage),
    }
}

// Whether an answer is that of an attempt that couldn't take its front.
fn is_waiting(command: &Command, got: &Answer) -> bool
    ensures { result ≡ is_waiting command.now got.now }
{
    is_await(command)
        && matches!(
            got,
            Answer::Refused(Refused {
                reason: Reason::Again(_),
                ..
            })
        )
}

// The command as it stands in the list.
fn as_call(command: Command) -> Command
    ensures { result ≡ as_call command }
{
    match command {
        Command::Await => Command::Recv,
        other => other,
    }
}

/// Puts an ended command behind the calls; an attempt that couldn't take its front is no call.
pub fn add_call(calls: &mut Vec<Call>, command: Command, answer: Answer)
    requires { vec_len calls.old < vec_capacity calls.old }
    ensures items { calls.new.items ≡ calls.old.items ++ call_of command answer }
    ensures capacity { vec_capacity calls.new ≡ vec_capacity calls.old }
    ensures len { vec_len calls.new ≤ vec_len calls.old + 1 }
{
    if !is_waiting(&command, &answer) {
        calls.push_reserved(Call {
            command: as_call(command),
            answer,
        });
    }
}

/// The same, and its place behind the places where it is a data receipt.
fn list_call(calls: &mut Vec<Call>, places: &mut Vec<usize>, command: Command, answer: Answer)
    requires room { vec_len calls.old < vec_capacity calls.old }
    requires places { ArePlaces calls.old places.old }
    ensures items { calls.new.items ≡ calls.old.items ++ call_of command answer }
    ensures capacity { vec_capacity calls.new ≡ vec_capacity calls.old }
    ensures len { vec_len calls.new ≤ vec_len calls.old + 1 }
    ensures places { ArePlaces calls.new places.new }
{
    note(places, calls.len(), &answer);
    add_call(calls, command, answer);
}

/// A command stays in its stage after an event, or ends there where nothing is left of it.
pub fn settle_after(after: After, owing: &Owing, told: bool) -> After
    requires { IsAfter after }
    ensures turn { (command : Commands) (doomed : List ℕ)
        → turn_of doomed result ≡ settled_turn owing.now.drops told command (turn_of doomed after) }
    ensures holds { IsAfter result }
    ensures handles { handles_after result ≤ handles_after after }
    ensures owes { is_dropping_after result ≡ true → owing.now.drops ≢ [] }
{
    match after {
        After::Goes(stage) => settle(stage, owing, told),
        After::Ends(answer) => After::Ends(answer),
    }
}

// The answer of a SEND, once it is fixed.
fn sent_answer(stage: SendStage) -> Option<Answer>
    ensures { (command : Commands) → result ≡ answer_of command (send_phase stage) }
{
    match stage {
        SendStage::Unstaging { refused, .. } => Some(Answer::Refused(refused)),
        SendStage::Syncing { sending, stamp, .. } | SendStage::Committing { sending, stamp, .. } =>
            {
                Some(Answer::Sent(Sent {
                    stamp,
                    places: sending.places,
                }))
            }
        SendStage::Staging { .. } | SendStage::Attaching { .. } | SendStage::Stamping { .. } =>
            None,
    }
}

// The answer of a destruction with its stamp.
fn stamped_answer(command: &Command, stamp: u64) -> Answer
    ensures { result ≡ stamped_answer command.now stamp }
{
    if is_flushing(command) {
        Answer::Reset { stamp: Some(stamp) }
    } else {
        Answer::Destroyed { stamp }
    }
}

// The answer of an open command, once it is fixed.
fn fixed_answer(command: &Command, stage: Stage) -> Option<Answer>
    ensures { (doomed : List ℕ) → result ≡ answer_of command.now (phase_of doomed stage) }
{
    match stage {
        Stage::Starting => None,
        Stage::Sending(stage) => sent_answer(stage),
        Stage::Dropping => Some(Answer::Done),
        Stage::Reaping(answer) => Some(answer),
        Stage::Destroying(DestroyStage::SyncingNotices { stamp, .. })
        | Stage::Destroying(DestroyStage::CommittingOwn { stamp, .. })
        | Stage::Destroying(DestroyStage::CommittingNotices { stamp, .. }) => {
            Some(stamped_answer(command, stamp))
        }
        Stage::Destroying(_) => None,
        Stage::Flushing(stamp) => Some(Answer::Reset { stamp }),
    }
}

/// Puts the open command behind the calls, if its answer is fixed.
fn add_open(calls: &mut Vec<Call>, last: Open)
    requires { vec_len calls.old < vec_capacity calls.old }
    ensures { (doomed : List ℕ) → calls.new.items ≡ calls.old.items
        ++ open_by (doing_of doomed (Some last)) }
{
    let Open { command, stage } = last;
    match fixed_answer(&command, stage) {
        Some(answer) => add_call(calls, command, answer),
        None => {}
    }
}

/// The calls, and the open command behind them where its answer is fixed.
pub fn all_calls(calls: Vec<Call>, doing: Option<Open>) -> Vec<Call>
    requires { IsOpen (vec_len calls) (vec_capacity calls) doing }
    ensures { (doomed : List ℕ) → result.items ≡ calls.items ++ open_by (doing_of doomed doing) }
{
    let Some(last) = doing else {
        return calls;
    };
    let mut calls = calls;
    add_open(&mut calls, last);
    calls
}

/// A command goes on, or stands behind the calls, and its place behind the others where it is a data receipt.
pub fn go_on(
    doing: &mut Option<Open>,
    calls: &mut Vec<Call>,
    places: &mut Vec<usize>,
    command: Command,
    after: After,
)
    requires room { vec_len calls.old < vec_capacity calls.old }
    requires holds { IsAfter after }
    requires places { ArePlaces calls.old places.old }
    ensures doing { doing.new ≡ open_after command after }
    ensures calls { calls.new.items ≡ calls.old.items ++ calls_after command after }
    ensures capacity { vec_capacity calls.new ≡ vec_capacity calls.old }
    ensures len { vec_len calls.new ≤ vec_capacity calls.new }
    ensures holds { IsOpen (vec_len calls.new) (vec_capacity calls.new) doing.new }
    ensures handles { open_handles doing.new ≡ handles_after after }
    ensures owes { (owed : List OwedDrops) → (is_dropping_after after ≡ true → owed ≢ [])
        → OwesDrop owed doing.new }
    ensures places { ArePlaces calls.new places.new }
{
    match after {
        After::Goes(stage) => *doing = Some(Open { command, stage }),
        After::Ends(answer) => {
            list_call(calls, places, command, answer);
            *doing = None;
        }
    }
}
