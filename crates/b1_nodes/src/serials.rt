ghost use Rattle.std.specs.Prelude.{◌≡◌, ◌<◌, ◌≤◌, ℕ, All, length, nat_lt, not, vec_len};
ghost use Rattle.std.specs.List.{list_any};
ghost use Rattle.std.specs.Vec.{vec_capacity};
ghost use Rattle.b1_model.specs.declared.parts.NodeState.TheVariants.{Dying, Destroyed};
ghost use Rattle.b1_model.specs.MachineParts.{is_destroyed};
ghost use Rattle.b1_model.specs.MachineTables.{count_of, in_state, with_nodes};
ghost use Rattle.b1_nodes.specs.Nodes.{node_in, holders, AllMade, AreNodes};
ghost use Rattle.b1_nodes.specs.Index.{AreNamedAlike};

use crate::node::Node;
use crate::nodes::node_at;
use b1_model::{MOST_PEERS, PeerSet};

/// The peers that have a reference to one of the nodes.
pub fn holders_of(nodes: &[Node], peers: u32, serials: &[u32]) -> PeerSet
    requires few { peers ≤ MOST_PEERS }
    requires made { All (λ serial. serial < length nodes.now) serials.now }
    ensures { result ≡ holders peers nodes.now serials.now }
{
    let mut holders = PeerSet::new();
    for peer in 0..peers {
        if has_reference(nodes, peer, serials) {
            holders.insert(peer);
        }
    }
    holders
}

// Whether a peer has a reference to one of the nodes.
fn has_reference(nodes: &[Node], peer: u32, serials: &[u32]) -> bool
    requires { All (λ serial. serial < length nodes.now) serials.now }
    ensures { result ≡ list_any (λ serial.
        nat_lt 0 (count_of (node_in nodes.now serial) peer)) serials.now }
{
    for serial in serials {
        if node_at(nodes, *serial).count(peer) > 0 {
            return true;
        }
    }
    false
}

/// Begins the destruction of each of the nodes.
pub fn doom_all(nodes: &mut Vec<Node>, serials: &[u32])
    requires { AllMade (λ n. not (is_destroyed n.state)) nodes.old.items serials.now }
    ensures nodes { nodes.new.items ≡ with_nodes serials.now (in_state Dying) nodes.old.items }
    ensures kept { (peers : ℕ) → AreNodes peers nodes.old.items → AreNodes peers nodes.new.items }
    ensures numbers { AreNamedAlike nodes.old.items nodes.new.items }
    ensures capacity { vec_capacity nodes.new ≡ vec_capacity nodes.old }
    ensures len { vec_len nodes.new ≡ vec_len nodes.old }
{
    for serial in serials {
        nodes[*serial as usize].doom();
    }
}

/// Destroys each of the nodes with a stamp.
pub fn destroy_all(nodes: &mut Vec<Node>, serials: &[u32], stamp: u64)
    requires { All (λ serial. serial < length nodes.old.items) serials.now }
    ensures nodes { nodes.new.items
        ≡ with_nodes serials.now (in_state (Destroyed stamp)) nodes.old.items }
    ensures kept { (peers : ℕ) → AreNodes peers nodes.old.items → AreNodes peers nodes.new.items }
    ensures numbers { AreNamedAlike nodes.old.items nodes.new.items }
    ensures capacity { vec_capacity nodes.new ≡ vec_capacity nodes.old }
    ensures len { vec_len nodes.new ≡ vec_len nodes.old }
{
    for serial in serials {
        nodes[*serial as usize].destroy(stamp);
    }
}
