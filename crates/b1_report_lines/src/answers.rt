ghost use Rattle.std.specs.Prelude.{◌≡◌, ℕ, List};
ghost use Rattle.b1_model.specs.declared.answers.Answer.{Answer};
ghost use Rattle.b1_model.specs.declared.commands.Command.{Command};
ghost use Rattle.b1_report_lines.specs.Answers.{IsAnswerText, TellsAnswer};
ghost use Rattle.b1_report_lines.specs.Reading.{Gives};
ghost use Rattle.b1_report_lines.specs.Forms.{answer_kind_at, destroyed_at, info_at, refused_at, answer_of, answer_at};
ghost use Rattle.b1_report_lines.specs.Seen.{kind_seen};

use crate::fields::{doomed, known, long, long_before, short, short_before, stamp};
use crate::kinds::AnswerKind;
use crate::marks::{after, alone, halves, or_after};
use crate::messages::message;
use crate::reasons::{places, reason, reason_before};
use crate::unread::{Stop, Unread};
use b1_model::{Answer, Command, Key, Limits, Receipt, Refused, Sent};
use std::alloc::Global;

fn answer_kind<'a>(command: &Command, bytes: &'a [u8]) -> Result<(AnswerKind, &'a [u8]), Stop>
    ensures { kind_seen result ≡ answer_kind_at command.now bytes.now }
{
    let found = Err(Stop::Broken);
    let found = or_after(found, AnswerKind::Sent, bytes, "sent ");
    let found = or_after(found, AnswerKind::Message, bytes, "data ");
    let found = or_after(found, AnswerKind::Destroyed, bytes, "destroyed ");
    let found = or_after(found, AnswerKind::Released, bytes, "released ");
    let found = or_after(found, AnswerKind::Done, bytes, "ok");
    let found = or_after(found, AnswerKind::Info, bytes, "info ");
    let found = or_after(found, AnswerKind::Refused, bytes, "refused ");
    match command {
        Command::Disconnect => or_after(found, AnswerKind::Reset, bytes, "left "),
        Command::Reset { .. } => or_after(found, AnswerKind::Reset, bytes, "reset "),
        _ => found,
    }
}

#[tactic(auto, unfolding(crate::specs::Forms::answer_of))]
fn answer_of_kind(alloc: Global, kind: AnswerKind, bytes: &[u8]) -> Result<Answer, Unread>
    ensures { Gives (λ x. x) result (answer_of kind bytes.now) }
{
    match kind {
        AnswerKind::Sent => {
            let (stamp, rest) = long_before(bytes, b' ')?;
            let places = places(alloc, rest)?;
            Ok(Answer::Sent(Sent { stamp, places }))
        }
        AnswerKind::Message => message(alloc, bytes),
        AnswerKind::Destroyed => destroyed(bytes),
        AnswerKind::Released => {
            let (stamp, rest) = long_before(bytes, b' ')?;
            let rest = after(rest, "node ")?;
            let number = known(rest)?;
            Ok(Answer::Got(Receipt::Released { stamp, number }))
        }
        AnswerKind::Done => alone(Answer::Done, bytes),
        AnswerKind::Info => info(bytes),
        AnswerKind::Refused => refused(bytes),
        AnswerKind::Reset => {
            let stamp = stamp(bytes)?;
            Ok(Answer::Reset { stamp })
        }
    }
}

/// A destruction's stamp, or a notice of one: what tells them apart is the point in a key.
fn destroyed(bytes: &[u8]) -> Result<Answer, Unread>
    ensures { Gives (λ x. x) result (destroyed_at bytes.now) }
{
    if halves(bytes, b'.').is_none() {
        let stamp = long(bytes)?;
        return Ok(Answer::Destroyed { stamp });
    }
    let (stamp, rest) = long_before(bytes, b'.')?;
    let (origin, rest) = short_before(rest, b'.')?;
    let (index, rest) = short_before(rest, b' ')?;
    let number = doomed(rest)?;
    let key = Key {
        stamp,
        origin,
        index,
    };
    Ok(Answer::Got(Receipt::Destroyed { key, number }))
}

fn info(bytes: &[u8]) -> Result<Answer, Unread>
    ensures { Gives (λ x. x) result (info_at bytes.now) }
{
    let (user, rest) = short_before(bytes, b' ')?;
    let (pool, rest) = short_before(rest, b' ')?;
    let (entries, rest) = short_before(rest, b' ')?;
    let (size, rest) = short_before(rest, b' ')?;
    let handles = short(rest)?;
    let limits = Limits {
        entries,
        bytes: size,
        handles,
    };
    Ok(Answer::Info { user, pool, limits })
}

fn refused(bytes: &[u8]) -> Result<Answer, Unread>
    ensures { Gives (λ x. x) result (refused_at bytes.now) }
{
    if halves(bytes, b' ').is_none() {
        let reason = reason(bytes)?;
        let place = None;
        return Ok(Answer::Refused(Refused { reason, place }));
    }
    let (reason, rest) = reason_before(bytes, b' ')?;
    let rest = after(rest, "at ")?;
    let place = short(rest)?;
    Ok(Answer::Refused(Refused {
        reason,
        place: Some(place),
    }))
}

#[tactic(auto, unfolding(crate::specs::Forms::answer_at))]
pub(crate) fn answer(alloc: Global, command: &Command, bytes: &[u8]) -> Result<Answer, Unread>
    ensures { Gives (λ x. x) result (answer_at command.now bytes.now) }
{
    let (kind, rest) = answer_kind(command, bytes)?;
    answer_of_kind(alloc, kind, rest)
}

/// The answer whose text the bytes are, among those that the command can have. `Stop::Cut` where they are none and the
/// text of some answer begins with them, `Stop::Broken` where no text does, or want of memory.
pub fn read_answer(alloc: Global, command: &Command, bytes: &[u8]) -> Result<Answer, Unread>
    ensures { TellsAnswer command.now bytes.now result }
{
    answer(alloc, command, bytes)
}

/// Two answers of one command have two texts.
pub fn answers_have_texts_of_their_own()
    ensures { (command : Command) (bytes : List ℕ) (x y : Answer) → IsAnswerText command bytes x
        → IsAnswerText command bytes y → x ≡ y }
{}
