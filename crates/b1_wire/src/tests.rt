use super::*;
use std::test::Fail;

#[test]
fn numbers_are_read(rt: HostRuntime) -> Result<(), Fail> {
    let bytes = [7, 0x78, 0x56, 0x34, 0x12, 0, 0, 0, 0x80];
    assert_eq!(rt; take_u32(&bytes, 1), Ok(0x1234_5678));
    assert_eq!(rt; take_u64(&bytes, 1), Ok(0x8000_0000_1234_5678));
    assert_eq!(rt; take_u32(&bytes, 5), Ok(0x8000_0000));
    assert_eq!(rt; take_u32(&bytes, 6), Err(Short { at: 6 }));
    assert_eq!(rt; take_u64(&bytes, 2), Err(Short { at: 2 }));
    assert_eq!(rt; take_u32(&bytes, 10), Err(Short { at: 10 }));
    assert_eq!(rt; take_u32(&bytes, usize::MAX), Err(Short { at: usize::MAX }));
    Ok(())
}

#[test]
fn numbers_are_written(rt: HostRuntime) -> Result<(), Fail> {
    let mut out = Vec::new(rt.alloc());
    put_u32(&mut out, 0x1234_5678)?;
    put_u64(&mut out, 0x8000_0000_0000_0001)?;
    assert_eq!(rt;
        out.as_slice(),
        [0x78, 0x56, 0x34, 0x12, 1, 0, 0, 0, 0, 0, 0, 0x80].as_slice()
    );
    Ok(())
}
