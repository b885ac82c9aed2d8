//! Laws on records: what more calls leave as it was, what one more call adds, and when it keeps a record legal.
//!
//! Each law is a function without parameters and with an empty body. Who calls it has the law.
#![tactic(auto)]

mod ends;
mod entries;
mod growth;
mod legal;
mod receipts;

pub use ends::{
    next_after_a_destruction, next_after_a_message, next_after_a_notice, next_after_a_plain_call,
    next_after_a_send, nothing_behind_a_flush,
};
pub use entries::{
    destruction_adds_notices, entries_behind_a_notice, entries_behind_a_quiet_call,
    entries_behind_a_release, messages_behind_a_receipt, notices_behind_a_message,
    plain_call_adds_no_entry, send_adds_messages,
};
pub use growth::{
    any_greater_bound, call_behind_call, destructions_after_a_call, growth_changes_nothing,
    message_of_a_send, messages_after_a_call, named_nodes_were_made, names_after_a_call,
};
pub use legal::{
    destruction_keeps_legal, plain_call_keeps_legal, receipt_keeps_legal, send_keeps_legal,
};
pub use receipts::{
    entries_come_from_calls, keys_are_ordered_as_in_queues, receipts_rise, stamp_names_one_call,
};
