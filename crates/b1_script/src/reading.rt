ghost use Rattle.std.specs.Prelude.{◌≡◌, ℕ, List, IfOk, IfErr};
ghost use Rattle.std.specs.List.{AllByRecursion};
ghost use Rattle.b1_records.specs.Reading.{Gives, IsFault};
ghost use Rattle.b1_records.specs.Spelling.{IsByte};
ghost use Rattle.b1_script.specs.declared.script.Script.{Script};
ghost use Rattle.b1_script.specs.Reading.{parts_at, script_at, whole_at, bad_script, bad};
ghost use Rattle.b1_script.specs.Spelling.{IsScript, IsWhole};

use crate::header::{Header, read_header};
use crate::lists::{pad_end, read_lists, read_turns};
use crate::peers::read_peers;
use crate::script::Script;
use crate::wires::read_wires;
use b1_errs::{Cause, NotRead};
use b1_model::{MOST_SCRIPT, Opening};
use std::alloc::Global;

/// The place of the script's length in its header.
pub(crate) const LEN_PLACE: usize = 32;

#[tactic(auto, unfolding(crate::specs::Reading::parts_at))]
fn parts(
    alloc: Global,
    bytes: &[u8],
    header: &Header,
    at: usize,
    limit: usize,
) -> Result<(Script, usize), NotRead>
    ensures { Gives (λ x. x) result (parts_at limit bytes.now header.now at) }
{
    let (peers, at) = read_peers(alloc, bytes, at, header.peers, limit)?;
    let (wires, at) = read_wires(alloc, bytes, at, header.peers, header.wires, limit)?;
    let (cookies, commands, at) = read_lists(
        alloc,
        bytes,
        at,
        header.version,
        header.peers,
        limit,
    )?;
    let (turns, at) = read_turns(alloc, bytes, at, header.peers, header.turns, limit)?;
    let at = pad_end(bytes, at, header.turns, limit)?;
    let opening = Opening {
        first_clock: header.first_clock,
        peers,
        wires,
    };
    let script = Script {
        opening,
        commands,
        turns,
        cookies,
    };
    Ok((script, at))
}

#[tactic(auto, unfolding(crate::specs::Reading::script_at))]
fn script(alloc: Global, bytes: &[u8]) -> Result<(Script, usize), NotRead>
    ensures { Gives (λ x. x) result (script_at MOST_SCRIPT bytes.now) }
{
    let (header, at) = read_header(bytes, 0, MOST_SCRIPT)?;
    let (script, end) = parts(alloc, bytes, &header, at, MOST_SCRIPT)?;
    if end != header.len as usize {
        return Err(NotRead::Bad {
            at: LEN_PLACE,
            cause: Cause::Length,
        });
    }
    Ok((script, end))
}

#[tactic(auto, unfolding(crate::specs::Reading::whole_at))]
fn whole(alloc: Global, bytes: &[u8]) -> Result<Script, NotRead>
    ensures { Gives (λ x. x) result (whole_at bytes.now) }
{
    if bytes.len() > MOST_SCRIPT {
        return Err(NotRead::Bad {
            at: MOST_SCRIPT,
            cause: Cause::Long,
        });
    }
    let (script, end) = script(alloc, bytes)?;
    if end != bytes.len() {
        return Err(NotRead::Bad {
            at: end,
            cause: Cause::Trailing,
        });
    }
    Ok(script)
}

/// The script at the front of the bytes, and where it ends. Bytes may follow it: whether they may is the caller's to
/// say. That a script has at most `MOST_SCRIPT` bytes is judged field by field.
pub fn read(alloc: Global, bytes: &[u8]) -> Result<(Script, usize), NotRead>
    // What is read is spelled there.
    ensures found { IfOk result (λ read. IsScript bytes.now read.0 read.1) }
    // What is spelled there is read, unless memory runs out.
    ensures only { (s : Script) (end : ℕ) → IsScript bytes.now s end
        → Gives (λ x. x) result (Ok (s, end)) }
    // A fault is the first rule that is broken.
    ensures bad { IfErr result (λ why. IsFault why (bad_script bytes.now)) }
{
    script(alloc, bytes)
}

/// The script that the bytes are, with nothing before or behind it. Bytes past `MOST_SCRIPT` are judged first, and bytes
/// behind the script last.
pub fn read_whole(alloc: Global, bytes: &[u8]) -> Result<Script, NotRead>
    // The bytes are the spelling of what is read.
    ensures found { IfOk result (λ s. IsWhole bytes.now s) }
    // The script whose spelling they are is read, unless memory runs out.
    ensures only { (s : Script) → IsWhole bytes.now s → Gives (λ x. x) result (Ok s) }
    // A fault is the first rule that is broken.
    ensures bad { IfErr result (λ why. IsFault why (bad bytes.now)) }
{
    whole(alloc, bytes)
}

/// Bytes have no first fault exactly where they are a script, or one stands at their front.
pub fn every_input_is_a_script_or_has_a_fault()
    ensures none { (bytes : List ℕ) → AllByRecursion IsByte bytes → bad bytes ≡ None
        → (s : Script) × IsWhole bytes s }
    ensures some { (bytes : List ℕ) (s : Script) → AllByRecursion IsByte bytes → IsWhole bytes s
        → bad bytes ≡ None }
    ensures none_at_front { (bytes : List ℕ) → AllByRecursion IsByte bytes → bad_script bytes ≡ None
        → (s : Script) × (end : ℕ) × IsScript bytes s end }
    ensures some_at_front { (bytes : List ℕ) (s : Script) (end : ℕ) → AllByRecursion IsByte bytes
        → IsScript bytes s end → bad_script bytes ≡ None }
{}
