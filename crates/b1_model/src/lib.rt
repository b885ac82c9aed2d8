//! The bus's names, commands, answers and records, and the definitions that every contract of the bus cites.
//!
//! `docs/MODEL.md` tells what they mean in plain words.
#![tactic(auto)]

mod answers;
mod commands;
mod entries;
mod events;
mod held;
mod limits;
mod lists;
mod naming;
mod opening;
mod order;
mod parts;
mod peers;
mod records;
mod tables;
mod version;

pub use answers::{Answer, Front, Places, Quantity, Reason, Receipt, Refused, Sent, Tried, errno};
pub use commands::{Command, CommandLists, Commands, CookieLists, SendCmd};
pub use entries::{Charge, Entry};
pub use events::{Action, Destruction, Doing, Outcome, OwedDrop, Phase, Sending, SlotLists};
pub use held::Held;
pub use limits::{
    CLOCK_LIMIT, FEW_PEERS, INVALID, MOST_BYTES, MOST_CHECKED, MOST_DESTINATIONS, MOST_HANDLES,
    MOST_NUMBERS, MOST_PAYLOAD, MOST_PEERS, MOST_POOL, MOST_POOLS, MOST_SCRIPT, MOST_TEXT,
    MOST_WIDE_SCRIPT, NO_ORIGIN, WIRE_LIMIT,
};
pub use lists::{Bytes, Items, Nums, Nums32};
pub use naming::{Key, Limits, NodeRef, Opening, PeerSpec, Peers, Wire, Wires, key_cmp};
pub use opening::valid_opening;
pub use order::{answer_stamp, order_of};
pub use parts::{
    Attach, Begun, Dead, Doomed, Drops, NodeRefs, NodeState, Owed, Received, Slot, Slots, Visited,
};
pub use peers::PeerSet;
pub use records::{Call, Calls, PeerCalls, PeerLists, Record, Stamp, Stamps};
pub use tables::Usage;
pub use version::Version;
