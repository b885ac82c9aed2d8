ghost use Rattle.std.specs.Prelude.{◌≡◌};
ghost use Rattle.b1_model.specs.MachineParts.{is_data as is_message, is_odd as has_bit_0};
ghost use Rattle.b1_peer_queue.specs.Rows.{is_marked, name_of as entry_name, release_name as name_of_release, stage_name as name_of_stage};

use b1_model::{Entry, Key};

/// What is looked for in a queue.
#[derive(Clone, Copy, Debug)]
pub enum Wanted {
    /// The staged message of a driver for a place.
    Stage { origin: u32, index: u32 },
    /// A staged notice of a driver.
    Notice { origin: u32 },
    /// The release notice of an own node.
    Release { serial: u32 },
}

/// Whether a number has bit 0 set.
fn is_odd(n: u64) -> bool
    ensures { result ≡ has_bit_0 n }
{
    n % 2 == 1
}

/// Whether an entry is a message.
fn is_data(entry: &Entry) -> bool
    ensures { result ≡ is_message entry.now }
{
    matches!(entry, Entry::Message { .. })
}

/// Whether an entry is a staged notice.
pub fn is_staged_notice(key: &Key, entry: &Entry) -> bool
    ensures { result ≡ is_marked (key.now, entry.now) }
{
    is_odd(key.stamp) && !is_data(entry)
}

/// The name of the message that a driver has staged for a place.
pub fn stage_name(origin: u32, index: u32) -> Key
    ensures { result ≡ name_of_stage origin index }
{
    Key {
        stamp: 1,
        origin,
        index,
    }
}

/// The name of a node's release notice.
pub fn release_name(serial: u32) -> Key
    ensures { result ≡ name_of_release serial }
{
    Key {
        stamp: 0,
        origin: 0,
        index: serial,
    }
}

/// The name of an entry: a staged message and a release notice have one.
pub fn name_of(key: &Key, entry: &Entry) -> Option<Key>
    ensures { result ≡ entry_name (key.now, entry.now) }
{
    match entry {
        Entry::Message { .. } if is_odd(key.stamp) => Some(stage_name(key.origin, key.index)),
        Entry::ReleaseNotice { serial } => Some(release_name(*serial)),
        _ => None,
    }
}
