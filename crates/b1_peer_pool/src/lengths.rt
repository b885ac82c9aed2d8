//! How long slices are.

ghost use Rattle.std.specs.Prelude.{◌≡◌, ◌≤◌};
ghost use Rattle.b1_model.specs.MachinePool.{slice_len};
ghost use Rattle.b1_peer_pool.specs.Content.{padded_len};

use b1_model::{MOST_HANDLES, MOST_PAYLOAD};

/// A payload's length, at most `MOST_PAYLOAD`, rounded up to a multiple of 8. The handles' numbers stand from there on.
pub fn padded_length(payload: u32) -> u32
    requires { payload ≤ MOST_PAYLOAD }
    ensures { result ≡ padded_len payload }
{
    (payload + 7) / 8 * 8
}

/// The length of the slice for a payload of at most `MOST_PAYLOAD` bytes and at most `MOST_HANDLES` handles.
pub fn slice_length(payload: u32, handles: u32) -> u32
    requires payload { payload ≤ MOST_PAYLOAD }
    requires handles { handles ≤ MOST_HANDLES }
    ensures { result ≡ slice_len payload handles }
{
    (padded_length(payload) + 8 * handles).max(8)
}
