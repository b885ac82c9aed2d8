ghost use Rattle.std.specs.Prelude.{◌≡◌, ◌<◌};

use b1_cost::Steps;
use std::marker::Brand;
use std::sync::ledger::{Blank, Ledger};
use std::test::Fail;

/// How many bytes a count of two steps takes.
fn bytes_of_two_steps<L: Ledger>(blank: Blank) -> usize
    requires name { blank.name ≡ L.name }
    requires parts { blank.parts ≡ L.parts }
    requires some { 0 < blank.parts }
{
    let mut steps = Steps::<L>::start(blank);
    steps.tick();
    steps.tick();
    size_of_val(&steps)
}

#[test]
fn takes_no_bytes(rt: HostRuntime) -> Result<(), Fail> {
    assert_eq!(rt; bytes_of_two_steps::<Brand>(Blank::new(1)), 0);
    Ok(())
}
