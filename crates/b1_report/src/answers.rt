ghost use Rattle.std.specs.Prelude.{◌≡◌, ◌++◌, ◌<◌, ◌^◌, All, OnOk, codes, flat_map, string_bytes};
ghost use Rattle.b1_model.specs.declared.answers.Answer.TheVariants as answers;
ghost use Rattle.b1_model.specs.declared.answers.Reason.TheVariants as reasons;
ghost use Rattle.b1_model.specs.declared.commands.Command.TheVariants as commands;
ghost use Rattle.b1_text_words.specs.Numbers.{key_text};
ghost use Rattle.b1_report_lines.specs.Answers.{answer_text, receipt_text, places_text, place_text, quantity_text, front_text, gone_text};
ghost use Rattle.b1_report_lines.specs.Answers.{reason_text, refused_text, reset_text};
ghost use Rattle.b1_report_lines.specs.Answers.{HasFields, HasPlaceFields, HasReasonFields, Is64Option};

use b1_model::{Answer, Command, Front, Key, Limits, Places, Quantity, Reason, Receipt, Refused};
use b1_text_words::{Item, write_bytes, write_item, write_list};
use std::alloc::AllocError;
use std::fmt::Write;

/// The answer of a command.
pub(crate) fn write_answer(
    out: &mut String,
    command: &Command,
    answer: &Answer,
) -> Result<(), AllocError>
    ensures text { OnOk result (string_bytes out.new ≡ string_bytes out.old
        ++ answer_text command.now answer.now) }
    ensures fits { OnOk result (HasFields answer.now) }
{
    match answer {
        Answer::Sent(sent) => {
            let stamp = sent.stamp;
            write!(out, "sent {stamp} ")?;
            write_places(out, &sent.places)
        }
        Answer::Got(receipt) => write_receipt(out, receipt),
        Answer::Done => out.push_str("ok"),
        Answer::Destroyed { stamp } => {
            let stamp = *stamp;
            write!(out, "destroyed {stamp}")
        }
        Answer::Reset { stamp } => write_reset(out, command, *stamp),
        Answer::Info { user, pool, limits } => write_info(out, *user, *pool, *limits),
        Answer::Refused(refused) => write_refused(out, *refused),
    }
}

fn write_info(out: &mut String, user: u32, pool: u32, limits: Limits) -> Result<(), AllocError>
    ensures text { OnOk result (string_bytes out.new ≡ string_bytes out.old
        ++ answer_text commands.Query (answers.Info user pool limits)) }
    ensures fits { HasFields (answers.Info user pool limits) }
{
    write!(
        out,
        "info {user} {pool} {} {} {}",
        limits.entries, limits.bytes, limits.handles
    )
}

fn write_reset(out: &mut String, command: &Command, stamp: Option<u64>) -> Result<(), AllocError>
    ensures text { OnOk result (string_bytes out.new ≡ string_bytes out.old
        ++ reset_text command.now stamp) }
    ensures fits { OnOk result (Is64Option stamp) }
{
    match command {
        Command::Disconnect => out.push_str("left ")?,
        _ => out.push_str("reset ")?,
    }
    match stamp {
        Some(stamp) => write!(out, "{stamp}"),
        None => out.push_str("-"),
    }
}

fn write_receipt(out: &mut String, receipt: &Receipt) -> Result<(), AllocError>
    ensures text { OnOk result (string_bytes out.new ≡ string_bytes out.old
        ++ receipt_text receipt.now) }
    ensures fits { OnOk result (HasFields (answers.Got receipt.now)) }
{
    match receipt {
        Receipt::Message {
            key,
            number,
            offset,
            handles,
            payload,
        } => {
            out.push_str("data ")?;
            write_key(out, *key)?;
            out.push_str(" node ")?;
            write_item(out, Item::Known, *number)?;
            let offset = *offset;
            write!(out, " slice {offset} handles ")?;
            write_list(out, Item::Known, handles.as_slice())?;
            out.push_str(" bytes ")?;
            write_bytes(out, payload.as_slice())
        }
        Receipt::Destroyed { key, number } => {
            out.push_str("destroyed ")?;
            write_key(out, *key)?;
            out.push_str(if *number % 4 == 0 {
                " node "
            } else {
                " handle "
            })?;
            write_item(out, Item::Known, *number)
        }
        Receipt::Released { stamp, number } => {
            let stamp = *stamp;
            write!(out, "released {stamp} node ")?;
            write_item(out, Item::Known, *number)
        }
    }
}

/// A key: stamp, origin and index.
fn write_key(out: &mut String, key: Key) -> Result<(), AllocError>
    ensures text { OnOk result (string_bytes out.new ≡ string_bytes out.old ++ key_text key) }
    ensures stamp { key.stamp < 2 ^ 64 }
    ensures origin { key.origin < 2 ^ 32 }
    ensures index { key.index < 2 ^ 32 }
{
    write!(out, "{}.{}.{}", key.stamp, key.origin, key.index)
}

fn write_places(out: &mut String, places: &Places) -> Result<(), AllocError>
    ensures text { OnOk result (string_bytes out.new ≡ string_bytes out.old
        ++ places_text places.now) }
    ensures fits { OnOk result (All HasPlaceFields places.now) }
{
    let [first, rest @ ..] = places.as_slice() else {
        return out.push_str("-");
    };
    write_place(out, *first)?;
    write_more_places(out, rest)
}

/// What further destinations answered, each behind a comma.
fn write_more_places(out: &mut String, places: &[Option<Reason>]) -> Result<(), AllocError>
    ensures text { OnOk result (string_bytes out.new ≡ string_bytes out.old
        ++ flat_map (λ place. codes "," ++ place_text place) places.now) }
    ensures fits { OnOk result (All HasPlaceFields places.now) }
{
    for place in places {
        out.push_str(",")?;
        write_place(out, *place)?;
    }
    Ok(())
}

fn write_place(out: &mut String, place: Option<Reason>) -> Result<(), AllocError>
    ensures text { OnOk result (string_bytes out.new ≡ string_bytes out.old ++ place_text place) }
    ensures fits { OnOk result (HasPlaceFields place) }
{
    match place {
        Some(reason) => write_reason(out, reason),
        None => out.push_str("ok"),
    }
}

fn write_refused(out: &mut String, refused: Refused) -> Result<(), AllocError>
    ensures text { OnOk result (string_bytes out.new ≡ string_bytes out.old
        ++ refused_text refused) }
    ensures fits { OnOk result (HasFields (answers.Refused refused)) }
{
    out.push_str("refused ")?;
    write_reason(out, refused.reason)?;
    match refused.place {
        Some(place) => write!(out, " at {place}"),
        None => Ok(()),
    }
}

fn write_reason(out: &mut String, reason: Reason) -> Result<(), AllocError>
    ensures text { OnOk result (string_bytes out.new ≡ string_bytes out.old
        ++ reason_text reason) }
    ensures fits { OnOk result (HasReasonFields reason) }
{
    match reason {
        Reason::Unknown { number } => {
            out.push_str("ENXIO:")?;
            write_item(out, Item::Known, number)
        }
        Reason::Again(front) => write_front(out, front),
        Reason::Memory => out.push_str("ENOMEM"),
        Reason::Invalid => out.push_str("EINVAL"),
        Reason::Full { asked, largest } => write!(out, "EXFULL:{asked}:{largest}"),
        Reason::Overflow { clock } => write!(out, "EOVERFLOW:{clock}"),
        Reason::Size { len } => write!(out, "EMSGSIZE:{len}"),
        Reason::Shutdown => out.push_str("ESHUTDOWN"),
        Reason::Gone { owner, serial } => write_gone(out, owner, serial),
        Reason::Quota {
            what,
            own,
            others,
            limit,
            asked,
        } => {
            out.push_str("EDQUOT:")?;
            out.push_str(quantity_word(what))?;
            write!(out, ":{own}:{others}:{limit}:{asked}")
        }
    }
}

fn write_front(out: &mut String, front: Front) -> Result<(), AllocError>
    ensures text { OnOk result (string_bytes out.new ≡ string_bytes out.old ++ front_text front) }
    ensures fits { OnOk result (HasReasonFields (reasons.Again front)) }
{
    match front {
        Front::Absent => out.push_str("EAGAIN:absent"),
        Front::Staged { origin, stamp } => write!(out, "EAGAIN:staged:{origin}:{stamp}"),
    }
}

fn write_gone(out: &mut String, owner: u32, serial: u32) -> Result<(), AllocError>
    ensures text { OnOk result (string_bytes out.new ≡ string_bytes out.old
        ++ gone_text owner serial) }
    ensures fits { HasReasonFields (reasons.Gone owner serial) }
{
    out.push_str("EHOSTUNREACH:")?;
    write!(out, "{owner}.{serial}")
}

fn quantity_word(what: Quantity) -> &'static str
    ensures { result.now ≡ quantity_text what }
{
    match what {
        Quantity::Entries => "entries",
        Quantity::Bytes => "bytes",
        Quantity::Handles => "handles",
    }
}
