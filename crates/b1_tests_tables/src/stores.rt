//! Values worked out by hand.

ghost use Rattle.std.specs.Prelude.{◌≤◌, length};

use b1_model::{MOST_HANDLES, MOST_PAYLOAD, Reason};
use b1_peer_pool::{Store, padded_length};
use b1_pool::{ListPool, PoolKind};
use std::alloc::AllocError;
use std::test::Fail;

/// What became of a message.
#[derive(Clone, Copy, Debug, PartialEq)]
enum Did {
    /// It has a slice at this offset.
    At(u32),

    /// No slice is long enough: the length that was asked for, and the greatest free length.
    Full(u32, u32),

    /// Another reason.
    Other,
}

use Did::{At, Full, Other};

/// Puts a message with so many handles, which stays queued.
fn put<P: PoolKind>(store: &mut Store<P>, payload: &[u8], handles: u32) -> Result<Did, AllocError>
    requires payload { length payload.now ≤ MOST_PAYLOAD }
    requires handles { handles ≤ MOST_HANDLES }
{
    store.reserve()?;
    match store.refusal(payload.len() as u32, handles) {
        Some(Reason::Full { asked, largest }) => Ok(Full(asked, largest)),
        Some(_) => Ok(Other),
        None => Ok(At(store.put(payload, handles))),
    }
}

/// Puts a message and publishes it, or cancels it.
fn deliver<P: PoolKind>(
    store: &mut Store<P>,
    payload: &[u8],
    numbers: &[u64],
    keep: bool,
) -> Result<Did, AllocError>
    requires payload { length payload.now ≤ MOST_PAYLOAD }
    requires numbers { length numbers.now ≤ MOST_HANDLES }
{
    store.reserve()?;
    let size = payload.len() as u32;
    if store.refusal(size, numbers.len() as u32).is_some() {
        return Ok(Other);
    }
    let offset = store.put(payload, numbers.len() as u32);
    if keep {
        store.publish(offset, padded_length(size), numbers);
    } else {
        store.cancel(offset);
    }
    Ok(At(offset))
}

#[test]
fn received_slices(rt: HostRuntime) -> Result<(), Fail> {
    let mut store = Store::<ListPool>::make(rt.alloc(), 32)?;
    assert_eq!(rt; deliver(&mut store, b"abc", &[2], true)?, At(0));
    assert_eq!(rt; deliver(&mut store, b"abc", &[2], false)?, At(16));
    assert_eq!(rt; deliver(&mut store, b"abc", &[2], true)?, At(16));
    assert!(rt; !store.release(8));
    assert!(rt; !store.release(1 << 40));
    assert!(rt; store.release(16));
    assert!(rt; !store.release(16));
    assert_eq!(rt; put(&mut store, b"abc", 2)?, Full(24, 16));
    assert!(rt; store.release(0));
    assert_eq!(rt; put(&mut store, b"abc", 2)?, At(0));
    Ok(())
}
