//! Values worked out by hand, and both kinds of pool beside each other.

ghost use Rattle.std.specs.Prelude.{◌≡◌, ◌%◌, ◌<◌, ◌≤◌};

use b1_cost::Steps;
use b1_pool::{ListPool, Memory, PoolKind};
use b1_poolx::SizedPool;
use std::marker::Brand;
use std::sync::ledger::{Blank, Ledger};
use std::test::Fail;

/// What a call came to.
#[derive(Clone, Copy, Debug, PartialEq)]
enum Did {
    /// A slice at this offset, with the sum of its first bytes.
    Took(u32, u64),

    /// Nothing fits, and this is the greatest free length.
    Full(u32, u32),

    /// A slice was given back, or there was none.
    Released(bool),

    /// All slices were given back.
    Cleared,
}

use Did::{Cleared, Full, Released, Took};

/// Takes a slice, writes its first bytes, reads them, and publishes it or gives it back.
fn take<P: PoolKind>(pool: &mut P, len: u32, byte: u8, keep: bool) -> Result<Did, Memory>
    requires least { 8 ≤ len }
    requires multiple { len % 8 ≡ 0 }
{
    pool.reserve()?;
    if let Err(full) = pool.fits(len) {
        return Ok(Full(full.asked, full.largest));
    }
    let off = pool.alloc(len);
    let mut out = [0; 8];
    pool.write(off, 3, &[byte, 1, 2]);
    pool.read(off, 0, &mut out);
    if keep {
        pool.publish(off);
    } else {
        pool.cancel(off);
    }
    Ok(Took(off, u64::from_le_bytes(out)))
}

/// Does the call that a word stands for.
fn act<P: PoolKind>(pool: &mut P, word: u64) -> Result<Did, Memory> {
    let len = 8 * ((word >> 40) % 3) as u32 + 8;
    match (word >> 32) % 128 {
        0 => {
            pool.clear();
            Ok(Cleared)
        }
        1..=64 => Ok(Released(pool.release((word >> 44) % 16 * 8).is_ok())),
        k => take(pool, len, (word >> 56) as u8, k > 70),
    }
}

#[test]
fn both_kinds_agree(rt: HostRuntime) -> Result<(), Fail> {
    let mut list = ListPool::make(rt.alloc(), 128)?;
    let mut sized = SizedPool::make(rt.alloc(), 128)?;
    let mut word: u64 = 1;
    for _ in 0..500 {
        word = word
            .wrapping_mul(6364136223846793005)
            .wrapping_add(1442695040888963407);
        assert_eq!(rt; act(&mut list, word)?, act(&mut sized, word)?);
    }
    Ok(())
}

/// Where a slice would be taken.
fn found<L: Ledger>(pool: &SizedPool, len: u32, blank: Blank) -> Option<u32>
    requires name { blank.name ≡ L.name }
    requires parts { blank.parts ≡ L.parts }
    requires some { 0 < blank.parts }
{
    let mut steps = Steps::<L>::start(blank);
    pool.find_counted(len, &mut steps)
}

#[test]
fn least_free_slice(rt: HostRuntime) -> Result<(), Fail> {
    let mut pool = SizedPool::make(rt.alloc(), 48)?;
    let zero = 0x201_0700_0000;
    assert_eq!(rt; take(&mut pool, 16, 7, true)?, Took(0, zero));
    assert_eq!(rt; take(&mut pool, 8, 7, true)?, Took(16, zero));
    assert_eq!(rt; take(&mut pool, 16, 7, true)?, Took(24, zero));
    assert!(rt; pool.release(0).is_ok());
    assert_eq!(rt; found::<Brand>(&pool, 8, Blank::new(1)), Some(40));
    assert_eq!(rt; take(&mut pool, 8, 7, true)?, Took(40, zero));
    assert_eq!(rt; found::<Brand>(&pool, 8, Blank::new(1)), Some(0));
    assert_eq!(rt; take(&mut pool, 8, 7, true)?, Took(0, zero));
    assert_eq!(rt; found::<Brand>(&pool, 16, Blank::new(1)), None);
    assert_eq!(rt; take(&mut pool, 16, 7, true)?, Full(16, 8));
    Ok(())
}
