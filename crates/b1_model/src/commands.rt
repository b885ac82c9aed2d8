use crate::lists::{Bytes, Items, Nums};
use crate::naming::Limits;

/// What a SEND sends: one message to the nodes that several numbers name.
#[derive(Debug, Drop)]
pub struct SendCmd {
    /// CONTINUE: a refused destination is left out, in place of refusing the whole.
    pub go_on: bool,
    /// The destinations, own or given numbers: 1 to `MOST_DESTINATIONS`, else the bus refuses.
    pub to: Nums,
    /// The carried handles, own or given numbers: at most `MOST_HANDLES`, else the bus refuses.
    pub with: Nums,
    /// The bytes: at most `MOST_PAYLOAD`, else the bus refuses.
    pub payload: Bytes,
}

/// A command of one peer.
#[derive(Debug, Drop)]
pub enum Command {
    /// Destroys all own live nodes, empties the queue and ends the peer's commands.
    Disconnect,
    /// Asks for the peer's user, pool and limits.
    Query,
    /// PEER_RESET with flush: destroys all own live nodes, empties the queue and sets new limits.
    Reset { limits: Limits },
    /// PEER_RESET without flush: sets new limits; the queue, the nodes, the handles, the charges and the epoch stay.
    Limit { limits: Limits },
    /// Gives up a held handle once.
    Release { number: u64 },
    /// Destroys own nodes.
    Destroy { numbers: Nums },
    /// Gives a received slice back.
    SliceRelease { offset: u64 },
    /// Sends a message.
    Send(SendCmd),
    /// Takes the front of the queue.
    Recv,
    /// Takes the front of the queue, and waits for one.
    Await,
}

/// The commands of one peer, in their order.
pub type Commands = Items<Command>;

/// The commands of each peer.
pub type CommandLists = Items<Commands>;

/// The cookies of each peer's commands, a number of the caller's own for each command: no bus sees them.
pub type CookieLists = Items<Nums>;
