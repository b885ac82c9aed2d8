use b1_model::{Command, PeerSpec, Version, Wire};
use b1_script::Turns;

/// A command as its line says it.
#[derive(Drop)]
pub struct Entry {
    /// The command's cookie: in a text of version 2 each command has one, in a text of version 1 none.
    pub cookie: Option<u64>,
    /// The command.
    pub command: Command,
}

/// What one line of a text says.
#[derive(Drop)]
pub enum Statement {
    /// The name of the format and its version, the first line.
    Name { version: Version },
    /// Every peer's first clock.
    Clock { clock: u64 },
    /// One peer.
    Peer(PeerSpec),
    /// One wire.
    Wire(Wire),
    /// The commands of this peer follow.
    Commands { peer: u32 },
    /// One command.
    Command(Entry),
    /// The turns, the last line.
    Turns(Turns),
}
