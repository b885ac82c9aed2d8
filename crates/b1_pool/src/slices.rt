//! Slices: the parts of a pool.

/// Whether a slice is in use.
#[derive(Clone, Copy, Debug, PartialEq)]
pub enum SliceState {
    /// Nobody uses it.
    Free,

    /// It was taken, and its user doesn't know of it yet.
    Unpublished,

    /// It was taken, and its user may give it back.
    Published,
}

/// A part of a pool. Offset and length are in bytes, and both are multiples of 8.
#[derive(Clone, Copy, Debug)]
pub struct Slice {
    /// Where it begins, from 0.
    pub offset: u32,

    /// How long it is, at least 8.
    pub length: u32,

    /// Whether it is in use.
    pub state: SliceState,
}
