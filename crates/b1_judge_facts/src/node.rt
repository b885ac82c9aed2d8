use std::marker::Model;

/// A node: its owner, its place among the nodes that the owner made, from 0, and the owner's epoch when it was made.
#[derive(Clone, Copy, Debug)]
pub struct NodeId {
    /// The peer that owns the node.
    pub owner: u32,
    /// The node's place among its owner's nodes.
    pub serial: u64,
    /// How often the owner had flushed its queue when it made the node.
    pub epoch: u64,
}

impl Model for NodeId {
    ghost use Rattle.b1_model.specs.Names.{Node};

    ghost Value = { Node };

    ghost view = { λ x. record { owner = x.owner; serial = x.serial; epoch = x.epoch } };

    ghost inverse = { λ x. record { owner = x.owner; serial = x.serial; epoch = x.epoch } };
}
