ghost use Rattle.std.specs.Prelude.{◌≡◌, ◌&&◌, ◌+◌, ◌<◌, ◌≤◌, ◌^◌, ℕ, [], ◌∷◌, ◌++◌, false, length, vec_len};
ghost use Rattle.std.specs.Vec.{vec_capacity};
ghost use Rattle.b1_model.specs.MachineParts.{is_live, is_destroyed};
ghost use Rattle.b1_model.specs.MachineTables.{count_of, counted, uncounted, with_node, is_unheld, notice_taken};
ghost use Rattle.b1_nodes.specs.Nodes.{node_in, AreNodes};
ghost use Rattle.b1_nodes.specs.Index.{AreNamedAlike};

use crate::node::Node;

/// The node with a serial.
pub fn node_at(nodes: &[Node], serial: u32) -> &Node
    requires { serial < length nodes.now }
    ensures { result.now ≡ node_in nodes.now serial }
{
    &nodes[serial as usize]
}

/// Puts a node behind the others.
pub fn push_node(nodes: &mut Vec<Node>, node: Node)
    requires { vec_len nodes.old < vec_capacity nodes.old }
    ensures items { nodes.new.items ≡ nodes.old.items ++ node ∷ [] }
    ensures capacity { vec_capacity nodes.old ≤ vec_capacity nodes.new }
    ensures len { vec_len nodes.new ≡ vec_len nodes.old + 1 }
{
    match nodes.push(node) {
        Ok(()) => {}
        Err(_) => unreachable!(),
    }
}

/// Counts one more reference of a peer.
pub fn raise_at(nodes: &mut Vec<Node>, serial: u32, peer: u32)
    requires made { serial < length nodes.old.items }
    requires stays { is_destroyed (node_in nodes.old.items serial).state ≡ false }
    requires peer { peer < length (node_in nodes.old.items serial).counts }
    requires fits { count_of (node_in nodes.old.items serial) peer < 2 ^ 63 }
    ensures nodes { nodes.new.items ≡ with_node serial (counted peer) nodes.old.items }
    ensures kept { (peers : ℕ) → AreNodes peers nodes.old.items → AreNodes peers nodes.new.items }
    ensures numbers { AreNamedAlike nodes.old.items nodes.new.items }
    ensures capacity { vec_capacity nodes.new ≡ vec_capacity nodes.old }
    ensures len { vec_len nodes.new ≡ vec_len nodes.old }
{
    nodes[serial as usize].raise(peer);
}

/// Takes back references; whether the node is live and no peer has a reference now.
pub fn lower_at(nodes: &mut Vec<Node>, serial: u32, holder: u32, k: u64) -> bool
    requires made { serial < length nodes.old.items }
    requires some { 1 ≤ k }
    requires enough { k ≤ count_of (node_in nodes.old.items serial) holder }
    ensures unheld { result ≡ (is_live (node_in nodes.new.items serial).state
        && is_unheld (node_in nodes.new.items serial)) }
    ensures nodes { nodes.new.items ≡ with_node serial (uncounted holder k) nodes.old.items }
    ensures kept { (peers : ℕ) → AreNodes peers nodes.old.items → AreNodes peers nodes.new.items }
    ensures numbers { AreNamedAlike nodes.old.items nodes.new.items }
    ensures capacity { vec_capacity nodes.new ≡ vec_capacity nodes.old }
    ensures len { vec_len nodes.new ≡ vec_len nodes.old }
{
    nodes[serial as usize].lower(holder, k);
    let node = node_at(nodes, serial);
    node.is_live() && node.is_unheld()
}

/// Marks that a node's own notice was taken.
pub fn mark_taken(nodes: &mut Vec<Node>, serial: u32)
    requires { serial < length nodes.old.items }
    ensures nodes { nodes.new.items ≡ with_node serial notice_taken nodes.old.items }
    ensures kept { (peers : ℕ) → AreNodes peers nodes.old.items → AreNodes peers nodes.new.items }
    ensures numbers { AreNamedAlike nodes.old.items nodes.new.items }
    ensures capacity { vec_capacity nodes.new ≡ vec_capacity nodes.old }
    ensures len { vec_len nodes.new ≡ vec_len nodes.old }
{
    nodes[serial as usize].take_notice();
}
