use b1_model::Front;

/// What one turn of a peer did.
#[derive(Clone, Copy, Debug, PartialEq, Eq)]
pub enum Turn {
    /// No command is open, and none is left.
    Idle,
    /// The command is open.
    Moved,
    /// The command ended with a call.
    Ended,
    /// An attempt to receive ended without a call: the front that it found, and how many entries it removed.
    Waiting { front: Front, removed: u64 },
}
