//! The serials of the nodes that a destruction dooms.

ghost use Rattle.std.specs.Prelude.{◌≡◌, ◌≢◌, ◌+◌, ◌++◌, ◌∷◌, [], ◌<◌, ◌≤◌, AllPairs, false, length, vec_len, vec_capacity};
ghost use Rattle.b1_model.specs.MachineParts.{is_live};
ghost use Rattle.b1_model.specs.MachineDestroy.{has_repeat, live_serials};
ghost use Rattle.b1_nodes.specs.Nodes.{AllMade};
ghost use Rattle.b1_nodes.specs.Doom.{serials_in};

use crate::numbers::live_node;
use crate::table::NodeTable;
use b1_model::NodeState;

/// Puts the serials of the live nodes with these own numbers into `doomed`, in the order of the numbers. No number may
/// stand twice. The list must be empty, and have room for all nodes.
pub fn doom(nodes: &NodeTable, numbers: &[u64], doomed: &mut Vec<u32>)
    requires once { has_repeat numbers.now ≡ false }
    requires empty { doomed.old.items ≡ [] }
    requires room { length nodes.now.nodes ≤ vec_capacity doomed.old }
    ensures serials { doomed.new.items ≡ serials_in nodes.now.nodes numbers.now }
    ensures live { AllMade (λ n. is_live n.state) nodes.now.nodes doomed.new.items }
    ensures distinct { AllPairs ◌≢◌ doomed.new.items }
    ensures capacity { vec_capacity doomed.new ≡ vec_capacity doomed.old }
{
    let mut left = numbers;
    while let [number, rest @ ..] = left {
        if let Some(serial) = live_node(nodes, *number) {
            put_last(doomed, serial);
        }
        left = rest;
    }
}

/// Puts the serials of all live nodes into `doomed`, rising. The list must be empty, and have room for all nodes.
pub fn doom_live(nodes: &NodeTable, doomed: &mut Vec<u32>)
    requires empty { doomed.old.items ≡ [] }
    requires room { length nodes.now.nodes ≤ vec_capacity doomed.old }
    ensures serials { doomed.new.items ≡ live_serials 0 nodes.now.nodes }
    ensures live { AllMade (λ n. is_live n.state) nodes.now.nodes doomed.new.items }
    ensures distinct { AllPairs ◌≢◌ doomed.new.items }
    ensures capacity { vec_capacity doomed.new ≡ vec_capacity doomed.old }
{
    for serial in 0..nodes.len() {
        if nodes.state(serial) == NodeState::Live {
            put_last(doomed, serial);
        }
    }
}

/// Puts a serial behind the others of a list that has room for it.
fn put_last(doomed: &mut Vec<u32>, serial: u32)
    requires { vec_len doomed.old < vec_capacity doomed.old }
    ensures items { doomed.new.items ≡ doomed.old.items ++ serial ∷ [] }
    ensures len { vec_len doomed.new ≡ vec_len doomed.old + 1 }
    ensures capacity { vec_capacity doomed.new ≡ vec_capacity doomed.old }
{
    let end = doomed.len();
    match doomed.insert(end, serial) {
        Ok(()) => {}
        Err(_) => unreachable!(),
    }
}
