// What is written of a script that stalls.
ghost use Rattle.std.specs.Prelude.{◌≡◌, ◌++◌, IfOk, OnOk, string_bytes};
ghost use Rattle.std.specs.Fmt.{decimal};
ghost use Rattle.std.specs.Option.{option_copied};
ghost use Rattle.b1_model.specs.Versions.{version_of};
ghost use Rattle.b1_report.specs.Report.{report_text, EachSpelled};
ghost use Rattle.b1_text_words.specs.Numbers.{list_text};
ghost use Rattle.b1_shell.specs.Texts as texts;

use b1_model::{CookieLists, Nums32, Record};
use b1_report::print;
use std::alloc::{AllocError, Global};
use std::fmt::Write;

/// The line of a stall, and behind it the report of what was reached. An error is want of memory.
pub fn stall_report(
    alloc: Global,
    waiting: &Nums32,
    reached: &Record,
    cookies: Option<&CookieLists>,
) -> Result<Vec<u8>, AllocError>
    requires { EachSpelled (version_of (option_copied cookies)) reached.now.peers }
    ensures { IfOk result (λ text. text.items ≡ texts.stalled_line waiting.now
        ++ report_text (option_copied cookies.entry) reached.now) }
{
    let mut text = stalled_line(alloc, waiting.as_slice())?;
    let report = print(alloc, reached, cookies)?;
    text.extend_from_slice(&report)?;
    Ok(text)
}

/// The line of a stall: the peers whose commands aren't at their end.
fn stalled_line(alloc: Global, waiting: &[u32]) -> Result<Vec<u8>, AllocError>
    ensures { IfOk result (λ text. text.items ≡ texts.stalled_line waiting.now) }
{
    let mut out = String::new(alloc);
    out.push_str("stalled ")?;
    write_peers(&mut out, waiting)?;
    out.push_str("\n")?;
    Ok(out.into_bytes())
}

/// Numbers of peers, with commas between them.
fn write_peers(out: &mut String, peers: &[u32]) -> Result<(), AllocError>
    ensures { OnOk result (string_bytes out.new ≡ string_bytes out.old
        ++ list_text decimal peers.now) }
{
    let [first, rest @ ..] = peers else {
        return out.push_str("-");
    };
    write!(out, "{first}")?;
    for peer in rest {
        out.push_str(",")?;
        write!(out, "{peer}")?;
    }
    Ok(())
}
