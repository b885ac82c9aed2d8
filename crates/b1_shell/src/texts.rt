// What is said of a text that is to be a script, of a script whose text is asked for, and of one that is to get cookies.
ghost use Rattle.std.specs.Prelude.{◌≢◌, ◌≤◌, ℕ, List, length, IfOk};
ghost use Rattle.b1_input.specs.Held.{held_bytes};
ghost use Rattle.b1_model.specs.declared.limits.TheConstants.{MOST_SCRIPT};
ghost use Rattle.b1_script.specs.Spelling.{HasFields, HasSpelling, IsWhole, spelling};
ghost use Rattle.b1_shell.specs.declared.Said.TheVariants.{Bad};
ghost use Rattle.b1_shell.specs.declared.forms.Form.TheVariants.{Asm, Dump, Migrate};
ghost use Rattle.b1_shell.specs.Answers.{IsAsked, Says};
ghost use Rattle.b1_upgrade.specs.Upgraded.{upgraded};

use crate::Said;
use crate::lines::bad_line;
use b1_errs::{Cause, NotRead};
use b1_input::Input;
use b1_model::MOST_SCRIPT;
use b1_script::{Script, write};
use b1_text::{assemble, print_script};
use b1_upgrade::upgrade;
use std::alloc::{AllocError, Global};

/// What is said of a text. An error is want of memory.
pub fn answer_asm(alloc: Global, bytes: &[u8]) -> Result<(Said, Vec<u8>), AllocError>
    ensures says { IfOk result (λ r. Says Asm bytes.now r.0 r.1.items) }
    ensures accepted { IfOk result (λ r. IsAsked Asm bytes.now → r.0 ≢ Bad) }
{
    match assemble(alloc, bytes) {
        Ok(script) => Ok((Said::Done, write(alloc, &script)?)),
        Err(NotRead::Bad { at, cause }) => Ok((Said::Bad, bad_line(alloc, at, cause)?)),
        Err(NotRead::Memory) => Err(AllocError),
    }
}

/// What is said of a script. An error is want of memory.
pub fn answer_dump(alloc: Global, input: Input) -> Result<(Said, Vec<u8>), AllocError>
    requires { length (held_bytes input) ≤ MOST_SCRIPT }
    ensures says { IfOk result (λ r. Says Dump (held_bytes input) r.0 r.1.items) }
    ensures accepted { IfOk result (λ r. IsAsked Dump (held_bytes input) → r.0 ≢ Bad) }
{
    match input.whole() {
        Ok(script) => Ok((Said::Done, print_script(alloc, &script)?)),
        Err(NotRead::Bad { at, cause }) => Ok((Said::Bad, bad_line(alloc, at, cause)?)),
        Err(NotRead::Memory) => Err(AllocError),
    }
}

/// What is said of an input that is to be a script with cookies. An error is want of memory.
pub fn answer_migrate(alloc: Global, input: Input) -> Result<(Said, Vec<u8>), AllocError>
    requires { length (held_bytes input) ≤ MOST_SCRIPT }
    ensures says { IfOk result (λ r. Says Migrate (held_bytes input) r.0 r.1.items) }
    ensures accepted { IfOk result (λ r. IsAsked Migrate (held_bytes input) → r.0 ≢ Bad) }
{
    match input.whole() {
        Ok(script) => migrated(alloc, script),
        Err(NotRead::Bad { at, cause }) => Ok((Said::Bad, bad_line(alloc, at, cause)?)),
        Err(NotRead::Memory) => Err(AllocError),
    }
}

/// What is said of a script that is to get cookies. An error is want of memory.
fn migrated(alloc: Global, script: Script) -> Result<(Said, Vec<u8>), AllocError>
    requires spelled { HasSpelling script }
    requires fields { HasFields script }
    ensures says { IfOk result (λ r. (input : List ℕ) → IsWhole input script
        → Says Migrate input r.0 r.1.items) }
    ensures accepted { IfOk result (λ r. length (spelling (upgraded script)) ≤ MOST_SCRIPT
        → r.0 ≢ Bad) }
{
    match upgrade(alloc, script)? {
        Some(script) => Ok((Said::Done, write(alloc, &script)?)),
        None => Ok((Said::Bad, bad_line(alloc, MOST_SCRIPT, Cause::Long)?)),
    }
}
