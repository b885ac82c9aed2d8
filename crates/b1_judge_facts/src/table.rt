ghost use Rattle.std.specs.Prelude.{◌≡◌, [], slice_get, Option, Some, IfOk, OnOk, IsTrue};
ghost use Rattle.std.specs.Option.{option_flatten};
ghost use Rattle.b1_model.specs.Ledger.{line_node, line_number, given_number, gained, received, received_all, handed, lowered};
ghost use Rattle.b1_judge_facts.specs.Steps.{beside, received_beside};

use crate::lines::{Line, Lines};
use crate::node::NodeId;
use std::alloc::{AllocError, Global};
use std::marker::Model;

/// The lines that a table may ever make; no memory has more.
const MOST: u64 = 1 << 60;

/// What the given numbers of a peer name.
#[derive(Drop)]
pub(crate) struct Table {
    lines: Lines,
    /// How many lines were ever made, at most `MOST`.
    given: u64,
}

impl Model for Table {
    ghost use Rattle.std.specs.Prelude.{◌≤◌, ◌^◌};
    ghost use Rattle.b1_model.specs.Ledger.{Table as HandleTable};

    ghost Value = { HandleTable };

    ghost view = { λ t. record { lines = t.lines; given = t.given } };

    ghost invariant = { λ t. t.given ≤ 2 ^ 60 };
}

impl Table {
    /// No lines.
    pub(crate) fn new(alloc: Global) -> Table
        ensures { result ≡ record { lines = []; given = 0 } }
    {
        Table {
            lines: Lines::new(alloc),
            given: 0,
        }
    }

    /// The node of a number's line. Takes a time of log n.
    pub(crate) fn node(&self, number: u64) -> Option<NodeId>
        ensures { result ≡ line_node number self.now.lines }
    {
        self.lines.node(number)
    }

    /// The number of a node's line. Takes a time of log n.
    pub(crate) fn number(&self, node: &NodeId) -> Option<u64>
        ensures { result ≡ line_number node.now self.now.lines }
    {
        self.lines.number(node)
    }

    /// The number by which a node is handed to the holder: that of its line, or else the next one. Takes a time of
    /// log n.
    pub(crate) fn number_for(&self, node: &NodeId) -> u64
        ensures { result ≡ given_number self.now.given (line_number node.now self.now.lines) }
    {
        match self.lines.number(node) {
            Some(number) => number,
            None => 2 + 4 * self.given,
        }
    }

    /// Whether it has no lines.
    pub(crate) fn is_empty(&self) -> bool
        ensures { IsTrue result → self.now.lines ≡ [] }
    {
        self.lines.is_empty()
    }

    /// The number by which a node is handed to the holder, where lines were made beside this table.
    pub(crate) fn number_beside(&self, made: &Table, node: &NodeId) -> u64
        ensures { result ≡ given_number (beside self.now made.now).given
            (line_number node.now (beside self.now made.now).lines) }
    {
        match self.lines.number(node) {
            Some(number) => number,
            None => match made.lines.number(node) {
                Some(number) => number,
                None => 2 + 4 * (self.given + made.given),
            },
        }
    }

    /// Takes a number in a slot that has a node, beside this table. An error is want of memory.
    pub(crate) fn receive_beside(
        &self,
        made: &mut Table,
        number: u64,
        node: Option<NodeId>,
    ) -> Result<(), AllocError>
        ensures { OnOk result (made.new ≡ received_beside number node self.now made.old) }
    {
        if self.lines.has(number) {
            return Ok(());
        }
        made.receive(number, node)
    }

    /// Takes a number in a slot that has a node. An error is want of memory.
    pub(crate) fn receive(&mut self, number: u64, node: Option<NodeId>) -> Result<(), AllocError>
        ensures { OnOk result (self.new ≡ received number node self.old) }
    {
        if number % 4 != 2 {
            return Ok(());
        }
        self.gain(number, node)
    }

    /// Adds one to a given number's line, or makes it.
    fn gain(&mut self, number: u64, node: Option<NodeId>) -> Result<(), AllocError>
        ensures { OnOk result (self.new ≡ gained number node self.old) }
    {
        if self.lines.has(number) {
            return self.lines.raise(number);
        }
        if self.given >= MOST {
            return Err(AllocError);
        }
        self.lines.push(Line {
            number,
            node,
            held: 1,
        })?;
        self.given += 1;
        Ok(())
    }

    /// Takes the numbers of a message, whose slots have these nodes. An error is want of memory.
    pub(crate) fn receive_all(
        &mut self,
        slots: &[Option<NodeId>],
        numbers: &[u64],
    ) -> Result<(), AllocError>
        ensures { OnOk result (self.new ≡ received_all slots.now numbers.now self.old) }
    {
        for (index, number) in numbers.iter().enumerate() {
            self.receive(*number, slot(slots, index))?;
        }
        Ok(())
    }

    /// Takes a reference to a node; nothing adds none. An error is want of memory.
    pub(crate) fn hand(&mut self, node: Option<NodeId>) -> Result<(), AllocError>
        ensures { OnOk result (self.new ≡ handed node self.old) }
    {
        match node {
            Some(node) => {
                let number = self.number_for(&node);
                self.receive(number, Some(node))
            }
            None => Ok(()),
        }
    }

    /// Gives up one of a number; its line goes with the last. Takes a time of log n.
    pub(crate) fn release(&mut self, number: u64)
        ensures { self.new ≡ record self.old { lines = lowered number self.old.lines } }
    {
        self.lines.lower(number);
    }

    /// Forgets all lines.
    pub(crate) fn clear(&mut self)
        ensures { self.new ≡ record self.old { lines = [] } }
    {
        self.lines.clear();
    }

    /// The same lines again. An error is want of memory.
    pub(crate) fn copy(&self, alloc: Global) -> Result<Table, AllocError>
        ensures { IfOk result (λ table. table ≡ self.now) }
    {
        Ok(Table {
            lines: self.lines.copy(alloc)?,
            given: self.given,
        })
    }
}

/// The node of a slot; none past the end.
pub(crate) fn slot(slots: &[Option<NodeId>], index: usize) -> Option<NodeId>
    ensures { result ≡ option_flatten (slice_get slots.now index) }
{
    match slots.get(index) {
        Some(node) => *node,
        None => None,
    }
}
