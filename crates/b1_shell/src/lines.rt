// The lines that say why an input is refused, and what is judged of a report.
ghost use Rattle.std.specs.Prelude.{◌≡◌, IfOk};
ghost use Rattle.b1_shell.specs.Texts as texts;

use b1_errs::{Cause, word};
use b1_judge::{Clause, word as clause_word};
use std::alloc::{AllocError, Global};
use std::fmt::Write;

/// The line for a fault of the input.
pub fn bad_line(alloc: Global, at: usize, cause: Cause) -> Result<Vec<u8>, AllocError>
    ensures { IfOk result (λ text. text.items ≡ texts.bad_line at cause) }
{
    let mut out = String::new(alloc);
    write!(out, "bad input at {}: {}\n", at, word(cause))?;
    Ok(out.into_bytes())
}

/// The line for a legal report.
pub fn legal_line(alloc: Global) -> Result<Vec<u8>, AllocError>
    ensures { IfOk result (λ text. text.items ≡ texts.legal_line) }
{
    let mut out = String::new(alloc);
    out.push_str("legal\n")?;
    Ok(out.into_bytes())
}

/// The line for a report that isn't legal.
pub fn broken_line(
    alloc: Global,
    clause: Clause,
    peer: u32,
    call: u64,
) -> Result<Vec<u8>, AllocError>
    ensures { IfOk result (λ text. text.items ≡ texts.broken_line clause peer call) }
{
    let mut out = String::new(alloc);
    write!(
        out,
        "not legal: {} peer {} call {}\n",
        clause_word(clause),
        peer,
        call
    )?;
    Ok(out.into_bytes())
}
