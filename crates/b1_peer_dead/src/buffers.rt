//! Changes of a list of empty buffers, and of what is put into them.

ghost use Rattle.std.specs.Prelude.{◌≡◌, ◌+◌, ◌++◌, ◌∷◌, [], ◌<◌, ◌≤◌, All, filter_map, length, zip, IfOk, OnOk, vec_len};
ghost use Rattle.std.specs.Vec.{vec_capacity};
ghost use Rattle.b1_model.specs.MachineReceive.{reference_of};
ghost use Rattle.b1_peer_dead.specs.Buffers.{AreSized};

use crate::stack::Stack;
use b1_model::{MOST_HANDLES, NodeRef, Slot};
use std::alloc::{AllocError, Global};

/// Makes empty buffers, each with room for one reference, until there are `n` of them. An error is want of memory, and
/// leaves at least what was there.
pub fn add_singles(
    singles: &mut Vec<Vec<(NodeRef, u64)>>,
    alloc: Global,
    n: usize,
) -> Result<(), AllocError>
    requires { All (λ b. (b.items ≡ []) × (1 ≤ vec_capacity b)) singles.old.items }
    ensures empty { All (λ b. (b.items ≡ []) × (1 ≤ vec_capacity b)) singles.new.items }
    ensures enough { OnOk result (n ≤ vec_len singles.new) }
    ensures more { vec_len singles.old ≤ vec_len singles.new }
{
    while singles.len() < n {
        singles.push(Vec::with_capacity(alloc, 1)?)?;
    }
    Ok(())
}

/// A stack of no buffers for each number of values up to `MOST_HANDLES`. An error is want of memory.
pub fn make_stacks(alloc: Global) -> Result<Vec<Stack>, AllocError>
    ensures len { IfOk result (λ stacks. length stacks.items ≡ MOST_HANDLES + 1) }
    ensures sized { IfOk result (λ stacks. AreSized stacks.items) }
{
    let mut stacks = Vec::new(alloc);
    while stacks.len() <= MOST_HANDLES {
        stacks.push(Stack::make(alloc, stacks.len()))?;
    }
    Ok(stacks)
}

/// Puts a value behind the others of a list that has room for it.
pub fn put_last<T: Drop>(list: &mut Vec<T>, value: T)
    requires { vec_len list.old < vec_capacity list.old }
    ensures items { list.new.items ≡ list.old.items ++ value ∷ [] }
    ensures len { vec_len list.new ≡ vec_len list.old + 1 }
    ensures capacity { vec_capacity list.old ≤ vec_capacity list.new }
{
    match list.push(value) {
        Ok(()) => {}
        Err(_) => unreachable!(),
    }
}

/// Puts the references that slots have behind the others of a list that has room for them.
pub fn gather(item: &mut Vec<(NodeRef, u64)>, with: &[NodeRef], slots: &[Slot])
    requires { vec_len item.old + length with.now ≤ vec_capacity item.old }
    ensures items { item.new.items ≡ item.old.items
        ++ filter_map reference_of (zip with.now slots.now) }
    ensures capacity { vec_capacity item.old ≤ vec_capacity item.new }
{
    let mut nodes = with;
    let mut rest = slots;
    while let ([node, more_nodes @ ..], [slot, more_slots @ ..]) = (nodes, rest) {
        if *slot == Slot::Attached {
            put_last(item, (*node, 1));
        }
        nodes = more_nodes;
        rest = more_slots;
    }
}
