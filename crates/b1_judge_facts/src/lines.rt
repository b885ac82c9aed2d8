ghost use Rattle.std.specs.Prelude.{◌≡◌, suc, false, [], ◌∷◌, ◌++◌, None, IfOk, OnOk, IsTrue};
ghost use Rattle.std.specs.Ordering.{nat_cmp};
ghost use Rattle.std.specs.BTreeMap.{get};
ghost use Rattle.b1_model.specs.Ledger.{has_line, line_node, line_number, raised, lowered};
ghost use Rattle.b1_judge_facts.specs.Indexes.{line_at, lines_left, node_in, number_in, AreIndexed, IsFirstPlace, IsNumbered, key_lines, Indexes, Forgets};
ghost use Rattle.b1_judge_facts.specs.Steps.{less_held};

use crate::node::NodeId;
use std::alloc::{AllocError, Global};
use std::collections::{BTreeMap, BTreeSet};
use std::marker::Model;

/// A given number, the node that it names, and how often it is held.
#[derive(Clone, Copy, Debug)]
pub(crate) struct Line {
    pub number: u64,
    pub node: Option<NodeId>,
    pub held: u64,
}

impl Model for Line {
    ghost use Rattle.b1_model.specs.Ledger.{Line as TableLine};

    ghost Value = { TableLine };

    ghost view = { λ x. record { number = x.number; node = x.node; held = x.held } };

    ghost inverse = { λ x. record { number = x.number; node = x.node; held = x.held } };
}

/// The lines of a table, in the order in which they were made.
#[derive(Drop)]
pub(crate) struct Lines {
    /// Each line that was made; nothing where it went.
    lines: Vec<Option<Line>>,
    /// The place of each number's line.
    by_number: BTreeMap<u64, usize>,
    /// Owner, serial and place of each line that has a node.
    by_node: BTreeSet<((u32, u64), usize)>,
}

impl Model for Lines {
    ghost use Rattle.std.specs.Prelude.{List};
    ghost use Rattle.b1_model.specs.Ledger.{Line as TableLine};

    ghost Value = { List TableLine };

    ghost use Rattle.b1_judge_facts.specs.Indexes.{lines_left, AreIndexed};

    ghost view = { λ x. lines_left x.lines.items };

    ghost invariant = { λ x. AreIndexed x.lines.items x.by_number x.by_node };
}

impl Lines {
    /// No lines.
    pub(crate) fn new(alloc: Global) -> Lines
        ensures { result ≡ [] }
    {
        Lines {
            lines: Vec::new(alloc),
            by_number: BTreeMap::new(alloc),
            by_node: BTreeSet::new(alloc),
        }
    }

    /// Whether a number has a line. Takes a time of log n.
    pub(crate) fn has(&self, number: u64) -> bool
        ensures { result ≡ has_line number self.now }
    {
        self.by_number.contains_key(&number)
    }

    /// The node of a number's line. Takes a time of log n.
    pub(crate) fn node(&self, number: u64) -> Option<NodeId>
        ensures { result ≡ line_node number self.now }
    {
        match self.by_number.get(&number) {
            Some(place) => node_at(self.lines.as_slice(), *place),
            None => None,
        }
    }

    /// The number of a node's first line. Takes a time of log n.
    pub(crate) fn number(&self, node: &NodeId) -> Option<u64>
        ensures { result ≡ line_number node.now self.now }
    {
        match first_place(&self.by_node, node) {
            Some(place) => number_at(self.lines.as_slice(), place),
            None => None,
        }
    }

    /// Adds one to a number's line, if it has one. Takes a time of log n. An error is want of memory.
    pub(crate) fn raise(&mut self, number: u64) -> Result<(), AllocError>
        ensures { OnOk result (self.new ≡ raised number self.old) }
    {
        raise(&mut self.lines, &self.by_number, number)
    }

    /// Adds a line behind the others, whose number has none. Takes a time of log n. An error is want of memory.
    pub(crate) fn push(&mut self, line: Line) -> Result<(), AllocError>
        requires { has_line line.number self.old ≡ false }
        ensures { OnOk result (self.new ≡ self.old ++ line ∷ []) }
    {
        push(
            &mut self.lines,
            &mut self.by_number,
            &mut self.by_node,
            line,
        )
    }

    /// Takes one from a number's line, if it has one; at the last the line goes. Takes a time of log n.
    pub(crate) fn lower(&mut self, number: u64)
        ensures { self.new ≡ lowered number self.old }
    {
        lower(
            &mut self.lines,
            &mut self.by_number,
            &mut self.by_node,
            number,
        );
    }

    /// Whether there are none.
    pub(crate) fn is_empty(&self) -> bool
        ensures { IsTrue result → self.now ≡ [] }
    {
        self.by_number.is_empty()
    }

    /// Forgets all lines.
    pub(crate) fn clear(&mut self)
        ensures { self.new ≡ [] }
    {
        self.lines.clear();
        self.by_number.clear();
        self.by_node.clear();
    }

    /// The same lines again. An error is want of memory.
    pub(crate) fn copy(&self, alloc: Global) -> Result<Lines, AllocError>
        ensures { IfOk result (λ lines. lines ≡ self.now) }
    {
        Ok(Lines {
            lines: Vec::from_slice(alloc, self.lines.as_slice())?,
            by_number: self.by_number.clone()?,
            by_node: self.by_node.clone()?,
        })
    }
}

/// The line at a place, if it is left.
fn line_at(lines: &[Option<Line>], place: usize) -> Option<Line>
    ensures { result ≡ line_at lines.now place }
{
    match lines.get(place) {
        Some(line) => *line,
        None => None,
    }
}

/// The node of the line at a place.
fn node_at(lines: &[Option<Line>], place: usize) -> Option<NodeId>
    ensures { result ≡ node_in (line_at lines.now place) }
{
    match line_at(lines, place) {
        Some(line) => line.node,
        None => None,
    }
}

/// The number of the line at a place.
fn number_at(lines: &[Option<Line>], place: usize) -> Option<u64>
    ensures { result ≡ number_in (line_at lines.now place) }
{
    match line_at(lines, place) {
        Some(line) => Some(line.number),
        None => None,
    }
}

/// The first place of a node's lines.
fn first_place(by_node: &BTreeSet<((u32, u64), usize)>, node: &NodeId) -> Option<usize>
    ensures { IsFirstPlace by_node.now node.now result }
{
    let start = ((node.owner, node.serial), 0);
    match by_node.range(start..).next() {
        Some(((owner, serial), place)) if *owner == node.owner && *serial == node.serial => {
            Some(*place)
        }
        _ => None,
    }
}

/// Adds one to a number's line, if it has one. An error is want of memory.
fn raise(
    lines: &mut Vec<Option<Line>>,
    by_number: &BTreeMap<u64, usize>,
    number: u64,
) -> Result<(), AllocError>
    requires { IsNumbered lines.old.items by_number.now }
    ensures keys { key_lines lines.new.items ≡ key_lines lines.old.items }
    ensures raised { OnOk result (lines_left lines.new.items
        ≡ raised number (lines_left lines.old.items)) }
{
    let Some(place) = by_number.get(&number) else {
        return Ok(());
    };
    let place = *place;
    if let Some(line) = line_at(lines.as_slice(), place) {
        lines[place] = Some(more(line)?);
    }
    Ok(())
}

/// Adds a line behind the others, whose number has none. An error is want of memory.
fn push(
    lines: &mut Vec<Option<Line>>,
    by_number: &mut BTreeMap<u64, usize>,
    by_node: &mut BTreeSet<((u32, u64), usize)>,
    line: Line,
) -> Result<(), AllocError>
    requires indexed { AreIndexed lines.old.items by_number.old by_node.old }
    requires new { has_line line.number (lines_left lines.old.items) ≡ false }
    ensures indexed { AreIndexed lines.new.items by_number.new by_node.new }
    ensures pushed { OnOk result (lines_left lines.new.items
        ≡ lines_left lines.old.items ++ line ∷ []) }
{
    lines.reserve(1)?;
    let place = lines.len();
    index(by_number, by_node, place, &line)?;
    match lines.push(Some(line)) {
        Ok(()) => Ok(()),
        Err(_) => unreachable!(),
    }
}

/// Adds the place of a line, whose number has none, to both indexes or to none. An error is want of memory.
fn index(
    by_number: &mut BTreeMap<u64, usize>,
    by_node: &mut BTreeSet<((u32, u64), usize)>,
    place: usize,
    line: &Line,
) -> Result<(), AllocError>
    requires { get nat_cmp by_number.old line.now.number ≡ None }
    ensures { Indexes result place line.now by_number.old by_number.new by_node.old by_node.new }
{
    by_number.insert(line.number, place)?;
    if let Some(node) = line.node {
        match by_node.insert(((node.owner, node.serial), place)) {
            Ok(_) => {}
            Err(_) => {
                by_number.remove(&line.number);
                return Err(AllocError);
            }
        }
    }
    Ok(())
}

/// Takes one from a number's line, if it has one; at the last the line goes.
fn lower(
    lines: &mut Vec<Option<Line>>,
    by_number: &mut BTreeMap<u64, usize>,
    by_node: &mut BTreeSet<((u32, u64), usize)>,
    number: u64,
)
    requires { AreIndexed lines.old.items by_number.old by_node.old }
    ensures indexed { AreIndexed lines.new.items by_number.new by_node.new }
    ensures lowered { lines_left lines.new.items ≡ lowered number (lines_left lines.old.items) }
{
    let Some(place) = by_number.get(&number) else {
        return;
    };
    let place = *place;
    let Some(line) = line_at(lines.as_slice(), place) else {
        return;
    };
    match less(line) {
        Some(kept) => lines[place] = Some(kept),
        None => {
            lines[place] = None;
            by_number.remove(&number);
            forget(by_node, place, line.node);
        }
    }
}

/// Takes the place of a node's line out, if it is a node's.
fn forget(by_node: &mut BTreeSet<((u32, u64), usize)>, place: usize, node: Option<NodeId>)
    ensures { Forgets place node by_node.old by_node.new }
{
    if let Some(node) = node {
        by_node.remove(&((node.owner, node.serial), place));
    }
}

/// The line with one more that is held. An error is want of memory.
fn more(line: Line) -> Result<Line, AllocError>
    ensures { IfOk result (λ more. more ≡ record line { held = suc line.held }) }
{
    match line.held.checked_add(1) {
        Some(held) => Ok(Line {
            number: line.number,
            node: line.node,
            held,
        }),
        None => Err(AllocError),
    }
}

/// The line with one less that is held; `None` where it was the last.
fn less(line: Line) -> Option<Line>
    ensures { result ≡ less_held line }
{
    if line.held == 1 {
        return None;
    }
    Some(Line {
        number: line.number,
        node: line.node,
        held: line.held.saturating_sub(1),
    })
}
