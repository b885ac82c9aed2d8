use b1_errs::{Cause, NotRead};
use b1_model::{Bytes, Command, Limits, Nums, SendCmd};
use b1_records::{decode, decode2, encode, encode2};
use std::test::Fail;

/// A SEND of `hi` to the number 2.
const SEND: [u8; 40] = [
    7, 0, 0, 0, 0, 0, 0, 0, 1, 0, 0, 0, 0, 0, 0, 0, 2, 0, 0, 0, 0, 0, 0, 0, 2, 0, 0, 0, 0, 0, 0, 0,
    104, 105, 0, 0, 0, 0, 0, 0,
];

#[test]
fn a_send_is_read(rt: HostRuntime) -> Result<(), Fail> {
    let (command, end) = decode(rt.alloc(), &SEND, 0)?;
    assert_eq!(rt; end, 40);
    let Command::Send(send) = command else {
        return Err("the record is not a SEND's")?;
    };
    assert_eq!(rt; send.go_on, false);
    assert_eq!(rt; send.to.as_slice(), [2].as_slice());
    assert_eq!(rt; send.with.len(), 0);
    assert_eq!(rt; send.payload.as_slice(), b"hi".as_slice());
    Ok(())
}

#[test]
fn broken_records(rt: HostRuntime) -> Result<(), Fail> {
    let cases = [
        (0, 10, 0, Cause::Command),
        (4, 2, 4, Cause::Flags),
        (9, 5, 8, Cause::Count),
        (13, 5, 12, Cause::Count),
        (19, 1, 16, Cause::Count),
        (20, 1, 20, Cause::Reserved),
        (34, 1, 32, Cause::Reserved),
        (8, 3, 40, Cause::Short),
    ];
    for (place, byte, at, cause) in cases {
        let mut bytes = Vec::from_slice(rt.alloc(), &SEND)?;
        bytes[place] = byte;
        let read = decode(rt.alloc(), &bytes, 0);
        assert_eq!(rt; read.err(), Some(NotRead::Bad { at, cause }));
    }
    let cut = decode(rt.alloc(), &SEND[..39], 0);
    assert_eq!(rt;
        cut.err(),
        Some(NotRead::Bad {
            at: 32,
            cause: Cause::Short
        })
    );
    let past = decode(rt.alloc(), &SEND, 41);
    assert_eq!(rt;
        past.err(),
        Some(NotRead::Bad {
            at: 41,
            cause: Cause::Short
        })
    );
    Ok(())
}

#[test]
fn commands_are_written(rt: HostRuntime) -> Result<(), Fail> {
    let alloc = rt.alloc();
    let send = SendCmd {
        go_on: true,
        to: Nums::from_slice(alloc, &[2, 6])?,
        with: Nums::from_slice(alloc, &[4])?,
        payload: Bytes::from_slice(alloc, b"123456789")?,
    };
    let mut out = Vec::new(alloc);
    encode(&Command::Send(send), &mut out)?;
    assert_eq!(rt;
        out.as_slice(),
        [
            7, 0, 0, 0, 1, 0, 0, 0, 2, 0, 0, 0, 1, 0, 0, 0, 9, 0, 0, 0, 0, 0, 0, 0, 2, 0, 0, 0, 0,
            0, 0, 0, 6, 0, 0, 0, 0, 0, 0, 0, 4, 0, 0, 0, 0, 0, 0, 0, 49, 50, 51, 52, 53, 54, 55,
            56, 57, 0, 0, 0, 0, 0, 0, 0
        ]
        .as_slice()
    );
    let limits = Limits {
        entries: 1,
        bytes: 2,
        handles: 3,
    };
    let mut out = Vec::new(alloc);
    encode(&Command::Reset { limits }, &mut out)?;
    encode(&Command::Await, &mut out)?;
    assert_eq!(rt;
        out.as_slice(),
        [
            3, 0, 0, 0, 0, 0, 0, 0, 1, 0, 0, 0, 2, 0, 0, 0, 3, 0, 0, 0, 0, 0, 0, 0, 9, 0, 0, 0, 0,
            0, 0, 0
        ]
        .as_slice()
    );
    Ok(())
}

/// The same SEND with the cookie 0.
const SEND_WITH_COOKIE: [u8; 48] = [
    7, 0, 0, 0, 0, 0, 0, 0, 0, 0, 0, 0, 0, 0, 0, 0, 1, 0, 0, 0, 0, 0, 0, 0, 2, 0, 0, 0, 0, 0, 0, 0,
    2, 0, 0, 0, 0, 0, 0, 0, 104, 105, 0, 0, 0, 0, 0, 0,
];

#[test]
fn a_send_with_a_cookie(rt: HostRuntime) -> Result<(), Fail> {
    let alloc = rt.alloc();
    let (plain, _) = decode(alloc, &SEND, 0)?;
    let (cookie, command, end) = decode2(alloc, &SEND_WITH_COOKIE, 0)?;
    assert_eq!(rt; cookie, 0);
    assert_eq!(rt; end, 48);
    let mut without = Vec::new(alloc);
    encode(&command, &mut without)?;
    assert_eq!(rt; without.as_slice(), SEND.as_slice());
    let mut with = Vec::new(alloc);
    encode2(0, &plain, &mut with)?;
    assert_eq!(rt; with.as_slice(), SEND_WITH_COOKIE.as_slice());
    Ok(())
}

// A PEER_RESET flushes where its flag is set, and else sets the limits alone.
#[test]
fn resets_with_a_cookie(rt: HostRuntime) -> Result<(), Fail> {
    let alloc = rt.alloc();
    let mut bytes = [
        3, 0, 0, 0, 1, 0, 0, 0, 9, 0, 0, 0, 0, 0, 0, 128, 1, 0, 0, 0, 2, 0, 0, 0, 3, 0, 0, 0, 0, 0,
        0, 0,
    ];
    let (cookie, flush, end) = decode2(alloc, &bytes, 0)?;
    assert_eq!(rt; cookie, 0x8000_0000_0000_0009);
    assert_eq!(rt; end, 32);
    assert!(rt;
        matches!(
            flush,
            Command::Reset {
                limits: Limits {
                    entries: 1,
                    bytes: 2,
                    handles: 3
                }
            }
        )
    );
    let mut out = Vec::new(alloc);
    encode2(cookie, &flush, &mut out)?;
    assert_eq!(rt; out.as_slice(), bytes.as_slice());
    bytes[4] = 0;
    let (_, limit, _) = decode2(alloc, &bytes, 0)?;
    assert!(rt;
        matches!(
            limit,
            Command::Limit {
                limits: Limits {
                    entries: 1,
                    bytes: 2,
                    handles: 3
                }
            }
        )
    );
    bytes[4] = 2;
    let broken = decode2(alloc, &bytes, 0);
    assert_eq!(rt;
        broken.err(),
        Some(NotRead::Bad {
            at: 4,
            cause: Cause::Flags
        })
    );
    Ok(())
}
