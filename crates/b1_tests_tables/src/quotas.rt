ghost use Rattle.std.specs.Prelude.{◌≡◌};

use b1_model::{Charge, Limits, Quantity};
use b1_quota::{Over, Quota};
use std::test::Fail;

fn bytes(bytes: u32) -> Charge
    ensures { result ≡ record { entries = 0; bytes = bytes; handles = 0 } }
{
    Charge {
        entries: 0,
        bytes,
        handles: 0,
    }
}

fn limits(bytes: u32) -> Limits
    ensures { result ≡ record { entries = 8; bytes = bytes; handles = 8 } }
{
    Limits {
        entries: 8,
        bytes,
        handles: 8,
    }
}

// Of 32 bytes a foreign user may fill 16, and the peer's own user what is left.
#[test]
fn quota_of_bytes(rt: HostRuntime) -> Result<(), Fail> {
    let mut quota = Quota::make(rt.alloc(), limits(32), 7, &[7, 5, 7, 5])?;
    assert_eq!(rt; quota.charge(5, bytes(24)), Err(over(0, 0, 24)));
    assert_eq!(rt; quota.charge(5, bytes(16)), Ok(()));
    assert_eq!(rt; quota.charge(5, bytes(8)), Err(over(16, 0, 8)));
    assert_eq!(rt; quota.charge(7, bytes(16)), Ok(()));
    assert_eq!(rt; quota.charge(7, bytes(8)), Err(over(16, 16, 8)));
    Ok(())
}

fn over(own: u64, others: u64, asked: u32) -> Over
    ensures { result ≡ record {
      what = Quantity.Bytes;
      own = own;
      others = others;
      limit = 32;
      asked = asked;
    } }
{
    Over {
        what: Quantity::Bytes,
        own,
        others,
        limit: 32,
        asked,
    }
}
