ghost use Rattle.std.specs.Prelude.{◌≡◌, ℕ, ◌<◌, ◌≤◌, true, [], ◌∷◌, Some, OnOk};
ghost use Rattle.b1_judge_facts.specs.Kept.{is_gone, is_gone_at, Adds};

use crate::node::NodeId;
use std::alloc::{AllocError, Global};
use std::collections::BTreeSet;
use std::marker::Model;

/// Nodes that were destroyed.
#[derive(Drop)]
pub(crate) struct Gone {
    /// The nodes, by owner and serial.
    nodes: BTreeSet<(u32, u64)>,
    /// The owner whose nodes were asked for.
    owner: u32,
    /// All nodes of that owner below this place are gone.
    below: usize,
}

impl Model for Gone {
    ghost use Rattle.std.specs.Prelude.{ℕ};
    ghost use Rattle.std.specs.BTreeSet.{BTreeSet as Nodes};

    ghost Value = { Nodes (ℕ × ℕ) };

    ghost use Rattle.std.specs.Prelude.{◌≡◌, ◌<◌, true};
    ghost use Rattle.b1_judge_facts.specs.Kept.{is_gone_at};

    ghost view = { λ g. g.nodes };

    ghost invariant = { λ g. (serial : ℕ) → serial < g.below
        → is_gone_at g.nodes g.owner serial ≡ true };
}

impl Gone {
    /// No nodes.
    pub(crate) fn new(alloc: Global) -> Gone
        ensures { result.keys ≡ [] }
    {
        Gone {
            nodes: BTreeSet::new(alloc),
            owner: 0,
            below: 0,
        }
    }

    /// Whether a node is gone. Takes a time of log n.
    pub(crate) fn has(&self, node: &NodeId) -> bool
        ensures { result ≡ is_gone self.now node.now }
    {
        self.nodes.contains(&(node.owner, node.serial))
    }

    /// Adds a node. Takes a time of log n. An error is want of memory.
    pub(crate) fn add(&mut self, node: NodeId) -> Result<(), AllocError>
        ensures { OnOk result (Adds (Some node ∷ []) self.old self.new) }
    {
        self.nodes.insert((node.owner, node.serial))?;
        Ok(())
    }

    /// A place below which all nodes of an owner are gone, at most a given one. Where all calls name one owner, they take
    /// a time of log n for each of its nodes.
    pub(crate) fn skip(&mut self, owner: u32, most: usize) -> usize
        ensures gone { (serial : ℕ) → serial < result → is_gone_at self.old owner serial ≡ true }
        ensures few { result ≤ most }
        ensures same { self.new ≡ self.old }
    {
        if owner != self.owner {
            self.owner = owner;
            self.below = 0;
        }
        while self.below < most && self.nodes.contains(&(owner, self.below as u64)) {
            self.below += 1;
        }
        self.below.min(most)
    }
}
