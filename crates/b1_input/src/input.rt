ghost use Rattle.std.specs.Prelude.{◌≡◌, ◌≢◌, ◌≤◌, ◌++◌, ℕ, [], false, true, length, IfOk, IfErr, Ok, Err, OnOk};
ghost use Rattle.b1_errs.specs.declared.Cause.TheVariants.{Trailing};
ghost use Rattle.b1_errs.specs.declared.NotRead.TheVariants.{Bad};
ghost use Rattle.b1_model.specs.declared.limits.TheConstants.{MOST_SCRIPT};
ghost use Rattle.b1_records.specs.Reading.{Gives, IsFault};
ghost use Rattle.b1_script.specs.declared.script.Script.{Script as Scripts};
ghost use Rattle.b1_script.specs.Reading.{bad, bad_script, script_at, whole_at};
ghost use Rattle.b1_script.specs.Spelling.{IsScript, IsWhole};
ghost use Rattle.b1_input.specs.Held.{held_bytes, IsFront, IsHeld};

use b1_errs::{Cause, NotRead};
use b1_io::Pieces;
use b1_script::{Script, ScriptReader};
use std::alloc::{AllocError, Global};
use std::marker::Model;

/// An input that is to begin with a script.
#[derive(Drop)]
pub struct Input {
    script: ScriptReader,
    /// How many bytes the script's reader has taken.
    count: usize,
    behind: Vec<u8>,
    /// Whether memory was wanting for a piece.
    wanting: bool,
}

/// A script at the front of an input, where it ends, and the bytes behind it.
#[derive(Drop)]
pub struct Front {
    /// The script.
    pub script: Script,
    /// Where it ends.
    pub end: usize,
    /// The bytes from there on.
    pub behind: Vec<u8>,
}

impl Model for Input {
    ghost use Rattle.std.specs.Prelude.{◌≡◌, false};
    ghost use Rattle.b1_input.specs.Held.{Held, IsHeld};

    ghost Value = { Held };

    ghost view = { λ i. record {
      front = i.script.bytes;
      behind = i.behind.items;
      wanting = i.wanting;
    } };

    ghost invariant = { λ i. i.wanting ≡ false
        → IsHeld i.script.bytes i.behind.items i.count };
}

/// Takes a piece: up to the end of the script, and what is behind it apart.
fn take_apart(
    script: &mut ScriptReader,
    count: &mut usize,
    behind: &mut Vec<u8>,
    piece: &[u8],
) -> Result<(), AllocError>
    requires { IsHeld script.old.bytes behind.old.items count.old }
    ensures held { OnOk result (IsHeld script.new.bytes behind.new.items count.new) }
    ensures wanting { OnOk result (script.new.wanting ≡ false) }
    ensures bytes { OnOk result (script.new.bytes ++ behind.new.items
        ≡ (script.old.bytes ++ behind.old.items) ++ piece.now) }
{
    let taken = script.feed(piece)?;
    let Some(sum) = count.checked_add(taken) else {
        return Err(AllocError);
    };
    *count = sum;
    behind.extend_from_slice(&piece[taken..])?;
    Ok(())
}

impl Pieces for Input {
    ghost taken = { held_bytes };

    /// Takes a piece. After an error every later one is refused too.
    fn take(&mut self, piece: &[u8]) -> Result<(), AllocError> {
        if self.wanting {
            return Err(AllocError);
        }
        match take_apart(&mut self.script, &mut self.count, &mut self.behind, piece) {
            Ok(()) => Ok(()),
            Err(e) => {
                self.wanting = true;
                Err(e)
            }
        }
    }
}

/// The script of what is held, and what stands behind it; or the first rule that is broken, or want of memory.
fn read_front(script: ScriptReader, count: usize, behind: Vec<u8>) -> Result<Front, NotRead>
    requires { IsHeld script.bytes behind.items count }
    ensures found { IfOk result (λ f.
        IsFront (script.bytes ++ behind.items) f.script f.end f.behind.items) }
    ensures exact { Gives (λ f. (f.script, f.end)) result
        (script_at MOST_SCRIPT (script.bytes ++ behind.items)) }
{
    let script = script.finish()?;
    Ok(Front {
        script,
        end: count,
        behind,
    })
}

/// The script that all of what is held is; or the first rule that is broken, or want of memory.
fn read_all_of(script: ScriptReader, count: usize, behind: Vec<u8>) -> Result<Script, NotRead>
    requires held { IsHeld script.bytes behind.items count }
    requires few { length (script.bytes ++ behind.items) ≤ MOST_SCRIPT }
    ensures { Gives (λ x. x) result (whole_at (script.bytes ++ behind.items)) }
{
    match read_front(script, count, behind) {
        Ok(front) => none_behind(front),
        Err(why) => Err(why),
    }
}

/// The script of a front with nothing behind it; what is behind it is the fault.
fn none_behind(front: Front) -> Result<Script, NotRead>
    ensures none { front.behind.items ≡ [] → result ≡ Ok front.script }
    ensures some { front.behind.items ≢ [] → result ≡ Err (Bad front.end Trailing) }
{
    if front.behind.is_empty() {
        Ok(front.script)
    } else {
        Err(NotRead::Bad {
            at: front.end,
            cause: Cause::Trailing,
        })
    }
}

impl Input {
    /// An input that has taken nothing.
    pub fn make(alloc: Global) -> Input
        ensures { result ≡ record { front = []; behind = []; wanting = false } }
    {
        Input {
            script: ScriptReader::make(alloc),
            count: 0,
            behind: Vec::new(alloc),
            wanting: false,
        }
    }

    /// The script at the front, or the first rule that the bytes break, where a field that passes `MOST_SCRIPT` is judged
    /// in its turn; or want of memory.
    pub fn front(self) -> Result<Front, NotRead>
        ensures found { IfOk result (λ f. IsFront (held_bytes self) f.script f.end f.behind.items) }
        ensures only { (s : Scripts) (end : ℕ) → IsScript (held_bytes self) s end
            → Gives {Y = Scripts × ℕ} (λ f. (f.script, f.end)) result (Ok (s, end)) }
        ensures bad { IfErr result (λ why. IsFault why (bad_script (held_bytes self))) }
    {
        let Input {
            script,
            count,
            behind,
            wanting,
        } = self;
        if wanting {
            return Err(NotRead::Memory);
        }
        read_front(script, count, behind)
    }

    /// The script that the bytes are, with nothing behind it, or the first rule that they break; or want of memory.
    pub fn whole(self) -> Result<Script, NotRead>
        requires { length (held_bytes self) ≤ MOST_SCRIPT }
        ensures found { IfOk result (λ s. IsWhole (held_bytes self) s) }
        ensures only { (s : Scripts) → IsWhole (held_bytes self) s
            → Gives (λ x. x) result (Ok s) }
        ensures bad { IfErr result (λ why. IsFault why (bad (held_bytes self))) }
    {
        let Input {
            script,
            count,
            behind,
            wanting,
        } = self;
        if wanting {
            return Err(NotRead::Memory);
        }
        read_all_of(script, count, behind)
    }
}
