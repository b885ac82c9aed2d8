//! The words of the texts: numbers, lists, bytes, keys and commands, read whole and written, and the bytes that
//! begin one.
#![tactic(auto)]

mod among;
mod bytes;
mod commands;
mod decimals;
mod items;
mod keys;
mod kinds;
mod lists;
mod operands;
mod splitting;
mod writing;

pub use among::Numbers;
pub use bytes::{begins_bytes, read_bytes};
pub use commands::{begins_command, read_command};
pub use items::{Form, Item, begins_item, read_item};
pub use kinds::{Kind, begins_line};
pub use lists::{begins_list, read_list};
pub use splitting::{begins_text, is_text, split};
pub use writing::{write_bytes, write_command, write_cookie, write_item, write_list};
