/// What a slice of a pool is used for.
#[derive(Clone, Copy, Debug, PartialEq, Eq)]
pub enum Usage {
    /// Nothing.
    Free,
    /// A queued message.
    Unpublished,
    /// A received message.
    Published,
}
