ghost use Rattle.std.specs.Prelude.{◌≡◌, ◌≤◌, [], length, IfOk};
ghost use Rattle.b1_model.specs.declared.entries.Entry.TheVariants.{Message};

use b1_model::{Bytes, Entry, Key, Limits, MOST_PAYLOAD, NodeRefs, Nums, Slots};
use b1_peer_queue::Mailbox;
use b1_queue::PlainQueue;
use std::alloc::{AllocError, Global};
use std::test::Fail;

fn limits(entries: u32) -> Limits
    ensures { result ≡ record { entries = entries; bytes = 64; handles = 8 } }
{
    Limits {
        entries,
        bytes: 64,
        handles: 8,
    }
}

fn key(stamp: u64, origin: u32, index: u32) -> Key
    ensures { result ≡ record { stamp = stamp; origin = origin; index = index } }
{
    Key {
        stamp,
        origin,
        index,
    }
}

// A message that carries nothing.
fn message(
    alloc: Global,
    origin: u32,
    index: u32,
    user: u32,
    payload: &[u8],
) -> Result<Entry, AllocError>
    requires { length payload.now ≤ MOST_PAYLOAD }
    ensures { IfOk result (λ e. e
        ≡ Message origin user index 3 0 (length payload.now) [] [] [] payload.now) }
{
    Ok(Entry::Message {
        origin,
        user,
        index,
        serial: 3,
        offset: 0,
        len: payload.len() as u32,
        with: NodeRefs::new(alloc),
        slots: Slots::new(alloc),
        handles: Nums::new(alloc),
        payload: Bytes::from_slice(alloc, payload)?,
    })
}

// A message is staged, committed and taken, and its charge goes with it.
#[test]
fn a_message(rt: HostRuntime) -> Result<(), Fail> {
    let mut mail = Mailbox::<PlainQueue>::make(rt.alloc(), limits(2), 7, &[7, 5])?;
    assert_eq!(rt; (mail.limits().entries, mail.home()), (2, 7));
    mail.reserve(2)?;
    mail.put_message(key(1, 2, 0), message(rt.alloc(), 2, 0, 5, &[9, 8])?);
    assert!(rt; mail.refusal(5, 2, 0).is_some());
    assert!(rt; mail.refusal(7, 2, 0).is_none());
    assert!(rt; mail.take_stage(2, 1).is_none());
    assert!(rt; mail.commit(2, 0, 4, &[]));
    assert!(rt;
        matches!(
            mail.front(),
            Some((Key { stamp: 4, .. }, Entry::Message { user: 5, .. }))
        )
    );
    assert!(rt;
        matches!(
            mail.take(),
            Some((Key { stamp: 4, .. }, Entry::Message { user: 5, .. }))
        )
    );
    assert!(rt; mail.refusal(5, 2, 0).is_none());
    assert!(rt; mail.take().is_none());
    mail.renew(limits(1));
    assert!(rt; mail.refusal(5, 2, 0).is_some());
    Ok(())
}
