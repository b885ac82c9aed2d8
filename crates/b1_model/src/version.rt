/// Which form a script, its text and its report have. The second has a cookie for each command, PEER_RESET without flush,
/// and more peers.
#[derive(Clone, Copy, Debug, PartialEq, Eq)]
pub enum Version {
    /// Without cookies.
    One,
    /// With cookies.
    Two,
}
