//! The numbers that limit a bus, its commands, and the files that tell of it.

/// The most peers of a bus.
pub const MOST_PEERS: usize = 1024;

/// The most peers of a script of version 1. A script of version 2 that has more is shorter, see `MOST_WIDE_SCRIPT`.
pub const FEW_PEERS: usize = 64;

/// The greatest pool, in bytes.
pub const MOST_POOL: u32 = 4_194_304;

/// The most bytes of all pools of a bus together.
pub const MOST_POOLS: u64 = 268_435_456;

/// The number of wires that an opening has fewer than.
pub const WIRE_LIMIT: usize = 1 << 20;

/// The most destinations of a SEND, and the most nodes of a NODES_DESTROY.
pub const MOST_DESTINATIONS: usize = 64;

/// The most handles that a SEND carries.
pub const MOST_HANDLES: usize = 64;

/// The most bytes that a SEND carries.
pub const MOST_PAYLOAD: usize = 65_536;

/// No stamp is begun at a clock from this one on.
pub const CLOCK_LIMIT: u64 = 1 << 62;

/// The number that names nothing.
pub const INVALID: u64 = u64::MAX;

/// The origin of a release notice.
pub const NO_ORIGIN: u32 = u32::MAX;

/// The most numbers of one list of a command, as files spell it.
pub const MOST_NUMBERS: u32 = 1024;

/// The most bytes of a SEND, as files spell it: more than a bus accepts.
pub const MOST_BYTES: u32 = 1_048_576;

/// The most bytes of a script.
pub const MOST_SCRIPT: usize = 16_777_216;

/// The most bytes of a script with more than `FEW_PEERS` peers.
pub const MOST_WIDE_SCRIPT: usize = 1_048_576;

/// The most bytes of a script's text.
pub const MOST_TEXT: usize = 67_108_864;

/// The most bytes of a script with its report behind it.
pub const MOST_CHECKED: usize = 268_435_456;
