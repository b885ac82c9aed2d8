//! What finds a node by its number. No hash is in it, since whoever writes a script chooses the numbers.

ghost use Rattle.std.specs.Prelude.{◌≡◌, ◌≢◌, ◌==◌, ◌+◌, ◌<◌, ◌≤◌, ◌^◌, AllPairs, List, OnOk, length};
ghost use Rattle.std.specs.List.{position_or_len};
ghost use Rattle.b1_model.specs.MachineParts.{NodePart};
ghost use Rattle.b1_model.specs.MachineTables.{serial_of};
ghost use Rattle.b1_nodes.specs.Index.{known_by, IsIndex};

use crate::node::Node;
use crate::nodes::node_at;
use std::alloc::{AllocError, Global};
use std::collections::BTreeMap;

/// The serials of the first nodes under their numbers. A node that is made takes no memory here: it stands behind the
/// nodes that are known, until `learn` takes it in.
#[derive(Debug, Drop)]
pub struct Index {
    serials: BTreeMap<u64, u32>,
    /// How many nodes are known.
    known: u32,
}

impl Index {
    /// An index that knows no node. It takes no memory.
    pub fn new(alloc: Global) -> Index
        ensures { (nodes : List NodePart) → IsIndex result nodes }
    {
        Index {
            serials: BTreeMap::new(alloc),
            known: 0,
        }
    }

    /// The serial of the node with a number; `None` where there is none. It takes a time of log n for n known nodes, and
    /// where none of these has the number, it goes through the nodes behind them.
    pub fn find(&self, nodes: &[Node], number: u64) -> Option<u32>
        requires few { length nodes.now < 2 ^ 32 }
        requires index { IsIndex self.now nodes.now }
        ensures { result ≡ serial_of number nodes.now }
    {
        match self.serials.get(&number) {
            Some(serial) => Some(*serial),
            None => find_from(nodes, self.known, number),
        }
    }

    /// Takes in all nodes that aren't known yet, each in a time of log n. An error is want of memory.
    pub fn learn(&mut self, nodes: &[Node]) -> Result<(), AllocError>
        requires few { length nodes.now < 2 ^ 32 }
        requires distinct { AllPairs (λ m n. m.number ≢ n.number) nodes.now }
        requires index { IsIndex self.old nodes.now }
        ensures index { IsIndex self.new nodes.now }
        ensures known { OnOk result (known_by self.new ≡ length nodes.now) }
    {
        while (self.known as usize) < nodes.len() {
            self.learn_next(nodes)?;
        }
        Ok(())
    }

    /// Takes in the first node that isn't known yet. An error is want of memory, and leaves all as it was.
    fn learn_next(&mut self, nodes: &[Node]) -> Result<(), AllocError>
        requires few { length nodes.now < 2 ^ 32 }
        requires next { known_by self.old < length nodes.now }
        requires distinct { AllPairs (λ m n. m.number ≢ n.number) nodes.now }
        requires index { IsIndex self.old nodes.now }
        ensures index { IsIndex self.new nodes.now }
        ensures known { OnOk result (known_by self.new ≡ known_by self.old + 1) }
    {
        let number = node_at(nodes, self.known).number();
        self.serials.insert(number, self.known)?;
        self.known += 1;
        Ok(())
    }
}

/// The serial of the node with a number, where none of the nodes before `first` has it; `None` where there is none.
fn find_from(nodes: &[Node], first: u32, number: u64) -> Option<u32>
    requires few { length nodes.now < 2 ^ 32 }
    requires behind { first ≤ position_or_len (λ n. n.number == number) nodes.now }
    ensures { result ≡ serial_of number nodes.now }
{
    for serial in first..nodes.len() as u32 {
        if node_at(nodes, serial).number() == number {
            return Some(serial);
        }
    }
    None
}
