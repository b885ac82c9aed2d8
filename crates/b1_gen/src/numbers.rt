//! The numbers of generated scripts.

/// How many phases a generated script has.
pub const PHASES: u32 = 256;

/// The pool of each peer, in bytes.
pub const POOL: u32 = 262_144;

/// How many entries each peer takes at most.
pub const MOST_ENTRIES: u32 = 8_192;

/// How many bytes each peer takes at most.
pub const MOST_BYTES: u32 = 1_048_576;

/// How many handles each peer takes at most.
pub const MOST_HANDLES: u32 = 16;

/// Each peer's own number of its node.
pub const NODE: u64 = 4;
