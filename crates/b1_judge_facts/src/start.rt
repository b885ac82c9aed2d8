//! The names and tables with which the peers begin.

ghost use Rattle.std.specs.Prelude.{◌≡◌, [], length, IfOk, OnOk};
ghost use Rattle.b1_model.specs.Opening.{IsOpening};
ghost use Rattle.b1_judge_facts.specs.Start.{AreWithin, IsWithin, AreBegun, AreNamed, Gives, GivesName};

use crate::names::Names;
use crate::standing::Standing;
use crate::table::Table;
use b1_model::{Opening, Record, Wire};
use std::alloc::{AllocError, Global};

/// Where each peer of a record stands before its first call. Takes a time of log n for each wire. An error is want of
/// memory.
pub(crate) fn starts(
    alloc: Global,
    opening: &Opening,
    rec: &Record,
) -> Result<Vec<Standing>, AllocError>
    requires opening { IsOpening opening.now }
    requires peers { length rec.now.peers ≡ length opening.now.peers }
    ensures { IfOk result (λ all. AreBegun opening.now.wires opening.now.wires
        (length rec.now.peers) all.items) }
{
    begin(alloc, opening.wires.as_slice(), rec.peers.len())
}

/// Where each of `count` peers stands before its first call. An error is want of memory.
fn begin(alloc: Global, wires: &[Wire], count: usize) -> Result<Vec<Standing>, AllocError>
    requires { AreWithin count wires.now }
    ensures { IfOk result (λ all. AreBegun wires.now wires.now count all.items) }
{
    let mut all = name_all(alloc, wires, count)?;
    for wire in wires {
        give(&mut all, wire)?;
    }
    Ok(all)
}

/// Where each peer stands with its names, and with no table yet.
fn name_all(alloc: Global, wires: &[Wire], count: usize) -> Result<Vec<Standing>, AllocError>
    requires { AreWithin count wires.now }
    ensures { IfOk result (λ all. AreNamed wires.now count all.items) }
{
    let mut all = blank(alloc, count)?;
    for wire in wires {
        name(&mut all, wire)?;
    }
    Ok(all)
}

/// Each peer with no names and no table.
fn blank(alloc: Global, count: usize) -> Result<Vec<Standing>, AllocError>
    ensures { IfOk result (λ all. AreNamed [] count all.items) }
{
    let mut all = Vec::new(alloc);
    for _ in 0..count {
        all.push(Standing {
            names: Names::new(alloc),
            table: Table::new(alloc),
            epoch: 0,
            last: None,
        })?;
    }
    Ok(all)
}

/// Adds the number of a wire to the names of the peer that it is from, if it isn't known yet.
fn name(all: &mut Vec<Standing>, wire: &Wire) -> Result<(), AllocError>
    requires { IsWithin (length all.old.items) wire.now }
    ensures { OnOk result (GivesName wire.now all.old.items all.new.items) }
{
    all[wire.from as usize].names.add_one(0, wire.number)
}

/// Gives what a wire's number names at the one peer to the other.
fn give(all: &mut Vec<Standing>, wire: &Wire) -> Result<(), AllocError>
    requires { IsWithin (length all.old.items) wire.now }
    ensures { OnOk result (Gives wire.now all.old.items all.new.items) }
{
    let node = all[wire.from as usize].named(wire.from, wire.number);
    all[wire.to as usize].table.hand(node)
}
