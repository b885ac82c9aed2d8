ghost use Rattle.std.specs.Prelude.{◌≡◌, ◌++◌, IfOk, OnOk, string_bytes};
ghost use Rattle.b1_gen.specs.Counted.{summary_start, summary_end, summary_line};

use crate::counting::Counts;
use std::alloc::{AllocError, Global};
use std::fmt::Write;

fn write_start(out: &mut String, number: u32, peers: u32, sends: u64) -> Result<(), AllocError>
    ensures { OnOk result (string_bytes out.new
        ≡ string_bytes out.old ++ summary_start number peers sends) }
{
    write!(out, "soak {number} peers {peers} sends {sends}")
}

fn write_end(out: &mut String, entries: u64, receipts: u64, bytes: u64) -> Result<(), AllocError>
    ensures { OnOk result (string_bytes out.new
        ≡ string_bytes out.old ++ summary_end entries receipts bytes) }
{
    write!(
        out,
        " entries {entries} receipts {receipts} bytes {bytes}\n"
    )
}

/// The line that tells what a run of a number's script came to, with a line feed behind it. An error is want of memory.
pub fn summary(
    alloc: Global,
    number: u32,
    peers: u32,
    counts: Counts,
) -> Result<Vec<u8>, AllocError>
    ensures { IfOk result (λ line. line.items ≡ summary_line number peers counts) }
{
    let mut line = String::new(alloc);
    write_start(&mut line, number, peers, counts.sends)?;
    write_end(&mut line, counts.entries, counts.receipts, counts.bytes)?;
    Ok(line.into_bytes())
}
