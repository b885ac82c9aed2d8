ghost use Rattle.std.specs.Prelude.{◌≡◌, ◌↔◌, length, IfOk};
ghost use Rattle.b1_model.specs.Opening.{IsOpening};
ghost use Rattle.b1_judge.specs.declared.verdict.Clause.TheVariants as the;
ghost use Rattle.b1_judge.specs.declared.verdict.Verdict.TheVariants as says;
ghost use Rattle.b1_judge.specs.Judged.{AllHold, SaysBreak, HasLists, IsKept, IsJudged};

use crate::contents::Contents;
use crate::frame::first_break;
use crate::keys::Keys;
use crate::order::Order;
use crate::prefix::Prefix;
use crate::script_part::Commands;
use crate::verdict::{Clause, Verdict};
use crate::whole::Whole;
use b1_judge_facts::Facts;
use b1_model::Record;
use b1_script::Script;
use std::alloc::{AllocError, Global};

/// Whether a record is what a bus may have answered to a script, or else where it is not: the first part that is
/// broken, in the order of the clauses, and its first call, by peer and then by call. The record may be any, also a
/// forged one.
///
/// It takes time at most quadratic in the calls and the numbers in them, but for a logarithm, and memory linear in the
/// record. An error is want of memory.
pub fn judge(alloc: Global, script: &Script, rec: &Record) -> Result<Verdict, AllocError>
    requires opening { IsOpening script.now.opening }
    requires commands { length script.now.commands ≡ length script.now.opening.peers }
    requires peers { length rec.now.peers ≡ length script.now.opening.peers }
    ensures legal { IfOk result (λ v. v ≡ says.Legal ↔ AllHold script.now rec.now) }
    ensures broken { IfOk result (SaysBreak script.now rec.now) }
{
    judge_parts(alloc, script, rec)
}

/// The parts in their order.
fn judge_parts(alloc: Global, script: &Script, rec: &Record) -> Result<Verdict, AllocError>
    requires opening { IsOpening script.now.opening }
    requires lists { HasLists script.now rec.now }
    ensures { IfOk result (IsJudged script.now rec.now) }
{
    let peers = rec.peers.len() as u32;
    let lists = &script.commands;
    if let Some(found) = first_break(&Commands { alloc, lists, rec }, peers)? {
        return Ok(broken(Clause::Script, found));
    }
    if let Some(found) = first_break(&Keys { alloc, rec }, peers)? {
        return Ok(broken(Clause::Keys, found));
    }
    if let Some(found) = first_break(&Order { rec }, peers)? {
        return Ok(broken(Clause::Order, found));
    }
    judge_receipts(alloc, script, rec)
}

/// The parts that speak of what was received, where the others hold.
fn judge_receipts(alloc: Global, script: &Script, rec: &Record) -> Result<Verdict, AllocError>
    requires opening { IsOpening script.now.opening }
    requires lists { HasLists script.now rec.now }
    requires commands { IsKept script.now rec.now the.Script }
    requires keys { IsKept script.now rec.now the.Keys }
    requires order { IsKept script.now rec.now the.Order }
    ensures { IfOk result (IsJudged script.now rec.now) }
{
    let peers = rec.peers.len() as u32;
    let gathered = Facts::gather(alloc, &script.opening, rec)?;
    let facts = &gathered;
    if let Some(found) = first_break(&Prefix { alloc, facts }, peers)? {
        return Ok(broken(Clause::Prefix, found));
    }
    if let Some(found) = first_break(&Contents { alloc, facts }, peers)? {
        return Ok(broken(Clause::Contents, found));
    }
    if let Some(found) = first_break(&Whole { alloc, facts }, peers)? {
        return Ok(broken(Clause::Whole, found));
    }
    Ok(Verdict::Legal)
}

/// The verdict that names a part, and the peer and the call that were found.
fn broken(clause: Clause, found: (u32, u64)) -> Verdict
    ensures { result ≡ says.Broken clause found.0 found.1 }
{
    Verdict::Broken {
        clause,
        peer: found.0,
        call: found.1,
    }
}
