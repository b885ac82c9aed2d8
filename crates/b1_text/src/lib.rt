//! Assembler texts: scripts as lines that people write. `docs/FORMATS.md` has their form.
#![tactic(auto)]

mod assembling;
mod begin_command;
mod begin_parts;
mod begin_wire;
mod beginning;
mod draft;
mod fields;
mod lines;
mod printing;
mod statement;

ghost use Rattle.std.specs.Prelude.{◌≡◌, ◌<◌, ℕ, List, Ok, IfOk, IfErr, length};
ghost use Rattle.b1_records.specs.Reading.{Gives};
ghost use Rattle.b1_script.specs.declared.script.Script.{Script};
ghost use Rattle.b1_script.specs.Spelling.{HasSpelling};
ghost use Rattle.b1_text.specs.Texts.{script_text};
ghost use Rattle.b1_text.specs.Accepted.{IsText, IsAccepted, IsFault, BreaksAt};

use assembling::read_text;
use b1_errs::{Cause, NotRead};
use b1_model::MOST_TEXT;
use b1_script::Script;
use printing::write_script;
use std::alloc::{AllocError, Global};

/// The text of a script, of the script's version. An error is want of memory.
pub fn print_script(alloc: Global, script: &Script) -> Result<Vec<u8>, AllocError>
    requires { HasSpelling script.now }
    ensures { IfOk result (λ text. text.items ≡ script_text script.now) }
{
    let mut out = String::new(alloc);
    write_script(&mut out, script)?;
    Ok(out.into_bytes())
}

/// The script whose text the bytes are. A text of more than `MOST_TEXT` bytes is `Long` at `MOST_TEXT`. Else a fault is
/// `Line`, at the first byte of the first line after which no accepted text can go on, or at the end of a text that
/// was cut off.
pub fn assemble(alloc: Global, bytes: &[u8]) -> Result<Script, NotRead>
    // The bytes are the text of what is read, which a script file can say.
    ensures found { IfOk result (λ s. IsText bytes.now s) }
    // The script whose text they are is read, unless memory runs out.
    ensures only { (s : Script) → IsText bytes.now s → Gives (λ x. x) result (Ok s) }
    // A fault is that the text is too long, or where it breaks.
    ensures bad { IfErr result (λ why. IsFault bytes.now why) }
{
    if bytes.len() > MOST_TEXT {
        return Err(NotRead::Bad {
            at: MOST_TEXT,
            cause: Cause::Long,
        });
    }
    read_text(alloc, bytes)
}

/// A text tells its script, and a script its text.
pub fn a_text_tells_its_script()
    // Two scripts have two texts.
    ensures one_script { (text : List ℕ) (s t : Script) → IsText text s → IsText text t → s ≡ t }
    // A script has one text.
    ensures one_text { (a b : List ℕ) (s : Script) → IsText a s → IsText b s → a ≡ b }
    // It is shorter than the most that is read.
    ensures short { (text : List ℕ) (s : Script) → IsText text s → length text < MOST_TEXT }
{}

/// A text that isn't accepted breaks in one place, and an accepted text nowhere.
pub fn a_text_breaks_in_one_place()
    ensures one { (text : List ℕ) (at end : ℕ) → BreaksAt text at → BreaksAt text end → at ≡ end }
    ensures none { (text : List ℕ) (at : ℕ) → IsAccepted text → ¬ BreaksAt text at }
    // It can't be that a text isn't accepted, and breaks nowhere.
    ensures some { (text : List ℕ) → ¬ IsAccepted text → ((at : ℕ) → ¬ BreaksAt text at) → ⊥ }
{}
