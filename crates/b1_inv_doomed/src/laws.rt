ghost use Rattle.b1_inv.specs.Kept.{BeginsWith};
ghost use Rattle.b1_inv_record.specs.Kept.{KeptFromRight};
ghost use Rattle.b1_inv_record.specs.Destructions.{DoomKeysRight, DyingIsDoomed, OwnNoticeRight};
ghost use Rattle.b1_inv_record.specs.Dooming.{DoomsItsNodes, FlushCommands};

/// A step keeps flushes to resets and disconnects, and every bus begins so.
pub fn only_resets_flush()
    ensures opening_FlushCommands { BeginsWith (λ _. FlushCommands) }
    ensures kept_FlushCommands { KeptFromRight (λ _. FlushCommands) }
{}

/// A step keeps open destructions without a stamp at the nodes that their numbers name, or, where a flush follows, at
/// all nodes of their peer that aren't destroyed; and every bus begins so.
pub fn open_destructions_doom_what_they_name()
    ensures opening_DoomsItsNodes { BeginsWith (λ _. DoomsItsNodes) }
    ensures kept_DoomsItsNodes { KeptFromRight (λ _. DoomsItsNodes) }
{}

/// A step keeps nodes destroyed exactly where the record has their destructions, with their stamps; open destructions
/// at nodes of their peer's epoch; and those with a stamp in the record, each node at its place. Every bus begins so.
pub fn destroyed_nodes_stay_recorded()
    ensures opening_DyingIsDoomed { BeginsWith DyingIsDoomed }
    ensures kept_DyingIsDoomed { KeptFromRight DyingIsDoomed }
{}

/// A step keeps each doomed node's own notice staged at its place until the commit at its own peer, and from then on
/// queued under the destruction's key, until it is taken or flushed; with all else that is said of own notices. Every
/// bus begins so.
pub fn own_notices_stay_where_they_are()
    ensures opening_OwnNoticeRight { BeginsWith OwnNoticeRight }
    ensures kept_OwnNoticeRight { KeptFromRight OwnNoticeRight }
{}

/// A step keeps the node at a notice's key in the record, and the key of a node's notice, inverse to one another: each
/// node is destroyed once. Every bus begins so.
pub fn each_node_is_destroyed_once()
    ensures opening_DoomKeysRight { BeginsWith DoomKeysRight }
    ensures kept_DoomKeysRight { KeptFromRight DoomKeysRight }
{}
