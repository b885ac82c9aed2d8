//! The slots of a taken message arrive.

ghost use Rattle.std.specs.Prelude.{◌≡◌, ℕ, List, ◌+◌, ◌++◌, ◌∷◌, [], ◌<◌, ◌≤◌, ◌^◌, All, true, if◌then◌else◌, length, zip, vec_len, vec_capacity};
ghost use Rattle.b1_model.specs.Names.{invalid};
ghost use Rattle.b1_model.specs.MachineParts.{PeerPart, record_or_none};
ghost use Rattle.b1_model.specs.MachineTables.{foreign, unexpected};
ghost use Rattle.b1_model.specs.MachineReceive.{slot_arrives, slots_arrived, reference_arrives};
ghost use Rattle.b1_nodes.specs.Nodes.{node_in};
ghost use Rattle.b1_peer_carried.specs.Carry.{AreCarried, HasTables, arriving, may_arrive};

use b1_handles::HandleTable;
use b1_model::{INVALID, MOST_HANDLES, NodeRef, Slot};
use b1_nodes::NodeTable;
use b1_peer_dead::put_last;

/// The slots of a taken message arrive, from the first on, at the peer `me`. Their numbers come into `numbers`, and the
/// references that are given up at once into `refs`: both must be empty, and have room for one value for each node.
///
/// An `Own` slot must be of a node that `me` made, an `Attached` one of another peer's. At least as many slots must carry
/// each node of another peer as it stands among the carried ones. Every node must be held less than 2^62 times, and so few
/// numbers must have been given that 2^60 aren't reached.
pub fn arrive(
    handles: &mut HandleTable,
    me: u32,
    nodes: &NodeTable,
    carried: &[NodeRef],
    slots: &[Slot],
    numbers: &mut Vec<u64>,
    refs: &mut Vec<(NodeRef, u64)>,
)
    requires empty_numbers { numbers.old.items ≡ [] }
    requires empty_refs { refs.old.items ≡ [] }
    requires room_numbers { length carried.now ≤ vec_capacity numbers.old }
    requires room_refs { length carried.now ≤ vec_capacity refs.old }
    requires few { length carried.now ≤ MOST_HANDLES }
    requires may_arrive { All (λ one. may_arrive me (length nodes.now.nodes) one
        ≡ true) (zip carried.now slots.now) }
    requires carried { AreCarried (foreign me carried.now) handles.old.records }
    requires fits { All (λ h. h.held < 2 ^ 62) handles.old.records }
    requires numbered { handles.old.given + length carried.now < 2 ^ 60 }
    ensures arrived { (x : PeerPart) → HasTables me nodes.now.nodes handles.old x
        → slots_arrived x carried.now slots.now
        ≡ arriving x handles.new numbers.new.items refs.new.items }
    ensures capacity_numbers { vec_capacity numbers.old ≤ vec_capacity numbers.new }
    ensures capacity_refs { vec_capacity refs.old ≤ vec_capacity refs.new }
{
    let mut left = carried;
    let mut rest = slots;
    while let ([node, more_nodes @ ..], [slot, more_slots @ ..]) = (left, rest) {
        arrive_one(handles, me, nodes, *node, *slot, numbers, refs);
        left = more_nodes;
        rest = more_slots;
    }
}

/// One slot arrives.
fn arrive_one(
    handles: &mut HandleTable,
    me: u32,
    nodes: &NodeTable,
    node: NodeRef,
    slot: Slot,
    numbers: &mut Vec<u64>,
    refs: &mut Vec<(NodeRef, u64)>,
)
    requires room_numbers { vec_len numbers.old < vec_capacity numbers.old }
    requires room_refs { vec_len refs.old < vec_capacity refs.old }
    requires may_arrive { may_arrive me (length nodes.now.nodes) (node, slot) ≡ true }
    requires carried { AreCarried (foreign me (node ∷ [])) handles.old.records }
    requires fits { (record_or_none node handles.old.records).held < 2 ^ 63 }
    requires numbered { handles.old.given < 2 ^ 60 }
    ensures arrived { (x : PeerPart) → x.me ≡ me → x.nodes ≡ nodes.now.nodes
        → slot_arrives (arriving x handles.old numbers.old.items refs.old.items) (node, slot)
        ≡ arriving x handles.new numbers.new.items refs.new.items }
    ensures carried { (rest : List NodeRef)
        → AreCarried (foreign me (node ∷ rest)) handles.old.records
        → AreCarried (foreign me rest) handles.new.records }
    ensures held { (most : ℕ) → All (λ h. h.held < most) handles.old.records
        → All (λ h. h.held < most + 1) handles.new.records }
    ensures given { handles.new.given ≤ handles.old.given + 1 }
    ensures len_numbers { vec_len numbers.new ≡ vec_len numbers.old + 1 }
    ensures len_refs { vec_len refs.new ≤ vec_len refs.old + 1 }
    ensures capacity_numbers { vec_capacity numbers.old ≤ vec_capacity numbers.new }
    ensures capacity_refs { vec_capacity refs.old ≤ vec_capacity refs.new }
{
    let number = match slot {
        Slot::Unattached | Slot::Void => leave(handles, me, node),
        Slot::Own => own_number(nodes, node.serial),
        Slot::Attached => arrive_reference(handles, node, refs),
    };
    put_last(numbers, number);
}

/// A node that isn't a reference leaves; no number names it.
fn leave(handles: &mut HandleTable, me: u32, node: NodeRef) -> u64
    requires { AreCarried (foreign me (node ∷ [])) handles.old.records }
    ensures number { result ≡ invalid }
    ensures carried { (rest : List NodeRef)
        → AreCarried (foreign me (node ∷ rest)) handles.old.records
        → AreCarried (foreign me rest) handles.new.records }
    ensures held { (most : ℕ) → All (λ h. h.held < most) handles.old.records
        → All (λ h. h.held < most) handles.new.records }
    ensures left { handles.new
        ≡ record handles.old { records = unexpected (foreign me (node ∷ [])) handles.old.records } }
{
    if node.owner != me {
        handles.unexpect(node);
    }
    INVALID
}

/// An own node's number; none where its notice was taken.
fn own_number(nodes: &NodeTable, serial: u32) -> u64
    requires { serial < length nodes.now.nodes }
    ensures { result ≡ (if (node_in nodes.now.nodes serial).taken then invalid
        else (node_in nodes.now.nodes serial).number) }
{
    if nodes.notice_taken(serial) {
        INVALID
    } else {
        nodes.number(serial)
    }
}

/// A reference to another peer's node arrives: the node is held once more, or the reference is given up where it is dead.
fn arrive_reference(handles: &mut HandleTable, node: NodeRef, refs: &mut Vec<(NodeRef, u64)>) -> u64
    requires room { vec_len refs.old < vec_capacity refs.old }
    requires carried { 0 < (record_or_none node handles.old.records).flight }
    requires fits { (record_or_none node handles.old.records).held < 2 ^ 63 }
    requires numbered { handles.old.given < 2 ^ 60 }
    ensures arrived { (x : PeerPart) → (numbers : List ℕ)
        → reference_arrives (arriving x handles.old numbers refs.old.items) node
        ≡ arriving x handles.new (numbers ++ result ∷ []) refs.new.items }
    ensures carried { (nodes : List NodeRef) → AreCarried (node ∷ nodes) handles.old.records
        → AreCarried nodes handles.new.records }
    ensures held { (most : ℕ) → All (λ h. h.held < most) handles.old.records
        → All (λ h. h.held < most + 1) handles.new.records }
    ensures given { handles.new.given ≤ handles.old.given + 1 }
    ensures len { vec_len refs.new ≤ vec_len refs.old + 1 }
    ensures capacity { vec_capacity refs.old ≤ vec_capacity refs.new }
{
    if handles.is_dead(node) {
        handles.unexpect(node);
        put_last(refs, (node, 1));
        return INVALID;
    }
    handles.gain(node)
}
