use crate::scripts::in_pieces;
use b1_errs::{Cause, NotRead};
use b1_model::Command;
use b1_script::{Script, read_whole, write};
use b1_text::{assemble, print_script};
use std::alloc::{AllocError, Global};
use std::test::Fail;

/// Two peers, a wire from peer 1 to peer 0, a SEND of `hi` by peer 0 and a RECV by peer 1, each with the cookie 0.
const ONE_MESSAGE: [u8; 184] = [
    0x42, 0x55, 0x53, 0x31, 0x53, 0x43, 0x52, 0x31, 2, 0, 0, 0, 2, 0, 0, 0, 0, 0, 0, 0, 0, 0, 0, 0,
    1, 0, 0, 0, 0, 0, 0, 0, 0xb8, 0, 0, 0, 0, 0, 0, 0, 0, 0, 0, 0, 0, 0x10, 0, 0, 0x10, 0, 0, 0, 0,
    0x10, 0, 0, 0x10, 0, 0, 0, 0, 0, 0, 0, 1, 0, 0, 0, 0, 0x10, 0, 0, 0x10, 0, 0, 0, 0, 0x10, 0, 0,
    0x10, 0, 0, 0, 0, 0, 0, 0, 1, 0, 0, 0, 0, 0, 0, 0, 4, 0, 0, 0, 0, 0, 0, 0, 1, 0, 0, 0, 0, 0, 0,
    0, 7, 0, 0, 0, 0, 0, 0, 0, 0, 0, 0, 0, 0, 0, 0, 0, 1, 0, 0, 0, 0, 0, 0, 0, 2, 0, 0, 0, 0, 0, 0,
    0, 2, 0, 0, 0, 0, 0, 0, 0, 0x68, 0x69, 0, 0, 0, 0, 0, 0, 1, 0, 0, 0, 0, 0, 0, 0, 8, 0, 0, 0, 0,
    0, 0, 0, 0, 0, 0, 0, 0, 0, 0, 0,
];

/// The same as text.
const TEXT: &str =
    "bus1 script 2\nclock 0\npeer 0 4096 16 4096 16\npeer 1 4096 16 4096 16\nwire 1 4 0\ncommands 0\n#0 send 0 to 2 with - data 6869\ncommands 1\n#0 recv\nturns -\n";

/// One peer that sets its limits, by a PEER_RESET without flush.
const LIMIT: [u8; 104] = [
    0x42, 0x55, 0x53, 0x31, 0x53, 0x43, 0x52, 0x31, 2, 0, 0, 0, 1, 0, 0, 0, 0, 0, 0, 0, 0, 0, 0, 0,
    0, 0, 0, 0, 0, 0, 0, 0, 104, 0, 0, 0, 0, 0, 0, 0, 0, 0, 0, 0, 8, 0, 0, 0, 1, 0, 0, 0, 1, 0, 0,
    0, 1, 0, 0, 0, 0, 0, 0, 0, 1, 0, 0, 0, 0, 0, 0, 0, 3, 0, 0, 0, 0, 0, 0, 0, 9, 0, 0, 0, 0, 0, 0,
    0, 4, 0, 0, 0, 5, 0, 0, 0, 6, 0, 0, 0, 0, 0, 0, 0,
];

#[test]
fn one_message_with_cookies(rt: HostRuntime) -> Result<(), Fail> {
    let script = assemble(rt.alloc(), TEXT.as_bytes())?;
    let bytes = write(rt.alloc(), &script)?;
    assert_eq!(rt; bytes.as_slice(), ONE_MESSAGE.as_slice());
    let back = print_script(rt.alloc(), &read_whole(rt.alloc(), &bytes)?)?;
    assert_eq!(rt; back.as_slice(), TEXT.as_bytes());
    Ok(())
}

#[test]
fn a_reset_with_and_without_flush(rt: HostRuntime) -> Result<(), Fail> {
    let text = "bus1 script 2\nclock 0\npeer 0 8 1 1 1\ncommands 0\n#9 limit 4 5 6\nturns -\n";
    let script = assemble(rt.alloc(), text.as_bytes())?;
    assert_eq!(rt; write(rt.alloc(), &script)?.as_slice(), LIMIT.as_slice());
    let mut bytes = Vec::from_slice(rt.alloc(), &LIMIT)?;
    bytes[76] = 1;
    let script = read_whole(rt.alloc(), &bytes)?;
    let text = "bus1 script 2\nclock 0\npeer 0 8 1 1 1\ncommands 0\n#9 reset 4 5 6\nturns -\n";
    assert_eq!(rt;
        print_script(rt.alloc(), &script)?.as_slice(),
        text.as_bytes()
    );
    Ok(())
}

// What is read of bytes in pieces of so many, one at least.
fn read_in_pieces(alloc: Global, bytes: &[u8], size: usize) -> Result<Script, NotRead> {
    let (reader, _) = in_pieces(alloc, bytes, size)?;
    reader.finish()
}

// The bytes, but for one of them.
fn with_byte(alloc: Global, bytes: &[u8], place: usize, byte: u8) -> Result<Vec<u8>, AllocError> {
    let mut copy = Vec::from_slice(alloc, bytes)?;
    if let Some(changed) = copy.get_mut(place) {
        *changed = byte;
    }
    Ok(copy)
}

/// Each rule of version 2 that can be broken by one byte, and some that are those of version 1 too.
#[test]
fn broken_scripts_of_version_2(rt: HostRuntime) -> Result<(), Fail> {
    let cases = [
        (8, 0, 8, Cause::Version),
        (8, 3, 8, Cause::Version),
        (12, 0, 12, Cause::Count),
        (32, 0xb9, 32, Cause::Length),
        (108, 1, 108, Cause::Reserved),
        (112, 10, 112, Cause::Command),
        (116, 2, 116, Cause::Flags),
        (129, 5, 128, Cause::Count),
        (140, 1, 140, Cause::Reserved),
        (154, 1, 152, Cause::Reserved),
        (172, 1, 172, Cause::Flags),
    ];
    for (place, byte, at, cause) in cases {
        let bytes = with_byte(rt.alloc(), &ONE_MESSAGE, place, byte)?;
        let why = Some(NotRead::Bad { at, cause });
        assert!(rt; read_whole(rt.alloc(), &bytes).err() == why);
        assert!(rt; read_in_pieces(rt.alloc(), &bytes, 7).err() == why);
    }
    Ok(())
}

// A known bit is FLUSH alone; version 1 knows none.
#[test]
fn flags_of_a_reset(rt: HostRuntime) -> Result<(), Fail> {
    let mut bytes = Vec::from_slice(rt.alloc(), &LIMIT)?;
    bytes[76] = 2;
    let why = Some(NotRead::Bad {
        at: 76,
        cause: Cause::Flags,
    });
    assert!(rt; read_whole(rt.alloc(), &bytes).err() == why);
    let text = "bus1 script 1\nclock 0\npeer 0 8 1 1 1\ncommands 0\nreset 4 5 6\nturns -\n";
    let script = assemble(rt.alloc(), text.as_bytes())?;
    let mut bytes = write(rt.alloc(), &script)?;
    match bytes.get_mut(76) {
        Some(flags) => *flags = 1,
        None => assert!(rt; false),
    }
    assert!(rt; read_whole(rt.alloc(), &bytes).err() == why);
    Ok(())
}

#[test]
fn a_record_cut_in_its_cookie(rt: HostRuntime) {
    let why = read_whole(rt.alloc(), &ONE_MESSAGE[..183]).err();
    assert!(rt;
        why == Some(NotRead::Bad {
            at: 176,
            cause: Cause::Short
        })
    );
}

// A header of version 2 with so many peers, and so many bytes in all.
fn header(alloc: Global, peers: u32, len: u32) -> Result<Vec<u8>, AllocError> {
    let mut bytes = Vec::from_slice(alloc, b"BUS1SCR1")?;
    bytes.extend_from_slice(&2u32.to_le_bytes())?;
    bytes.extend_from_slice(&peers.to_le_bytes())?;
    bytes.extend_from_slice(&[0; 16])?;
    bytes.extend_from_slice(&len.to_le_bytes())?;
    bytes.extend_from_slice(&[0; 4])?;
    Ok(bytes)
}

// A script of more than 64 peers has at most 1,048,576 bytes, which its length field tells before the peers come.
#[test]
fn lengths_of_wide_scripts(rt: HostRuntime) -> Result<(), Fail> {
    let cases = [
        (64, 1_048_577, 40, Cause::Short),
        (65, 1_048_576, 40, Cause::Short),
        (65, 1_048_577, 32, Cause::Length),
        (1024, 1_048_577, 32, Cause::Length),
        (1025, 1_048_576, 12, Cause::Count),
    ];
    for (peers, len, at, cause) in cases {
        let bytes = header(rt.alloc(), peers, len)?;
        let why = Some(NotRead::Bad { at, cause });
        assert!(rt; read_whole(rt.alloc(), &bytes).err() == why);
    }
    Ok(())
}

// 64 of the greatest pools are as much as all pools can be.
#[test]
fn pools_together(rt: HostRuntime) -> Result<(), Fail> {
    let mut bytes = header(rt.alloc(), 65, 4096)?;
    for _ in 0..64 {
        bytes.extend_from_slice(&[0, 0, 0, 0, 0, 0, 0x40, 0])?;
        bytes.extend_from_slice(&[0; 16])?;
    }
    bytes.extend_from_slice(&[0, 0, 0, 0, 8, 0, 0, 0])?;
    let why = read_whole(rt.alloc(), &bytes).err();
    assert!(rt;
        why == Some(NotRead::Bad {
            at: 1580,
            cause: Cause::Range
        })
    );
    Ok(())
}

// Whatever the pieces, the same script is read.
#[test]
fn script_with_cookies_in_pieces(rt: HostRuntime) -> Result<(), Fail> {
    for size in [1, 7, 168, 4096] {
        let (reader, taken) = in_pieces(rt.alloc(), &ONE_MESSAGE, size)?;
        assert_eq!(rt; taken, 184);
        let script = reader.finish()?;
        assert_eq!(rt;
            write(rt.alloc(), &script)?.as_slice(),
            ONE_MESSAGE.as_slice()
        );
    }
    Ok(())
}

// The place where a text breaks; 0 where it is accepted.
fn place_of(alloc: Global, text: &str) -> usize {
    match assemble(alloc, text.as_bytes()) {
        Err(NotRead::Bad { at, .. }) => at,
        _ => 0,
    }
}

// The texts have the lines of one peer before these.
fn with_line(alloc: Global, version: u32, line: &str) -> Result<String, AllocError> {
    format!(in alloc; "bus1 script {version}\nclock 0\npeer 0 8 1 1 1\ncommands 0\n{line}")
}

#[test]
fn broken_texts_of_both_versions(rt: HostRuntime) -> Result<(), Fail> {
    // The lines before begin at 0, and the last of them ends at 48.
    let cases = [
        // A cookie in version 1, none in version 2, and a limit of each.
        (1, "#0 recv\n", 48),
        (1, "limit 4 5 6\n", 48),
        (2, "recv\n", 48),
        (2, "limit 4 5 6\n", 48),
        // Cookies that are no numbers of 64 bits.
        (2, "#18446744073709551616 recv\n", 48),
        (2, "#01 recv\n", 48),
        (2, "# recv\n", 48),
        (2, "#1  recv\n", 48),
        // Cut off where something goes on, and where nothing does.
        (2, "#", 49),
        (2, "#12", 51),
        (2, "#12 ", 52),
        (2, "#12 li", 54),
        (2, "#12 limit 4 5 ", 62),
        (2, "#12 lx", 48),
        (2, "#18446744073709551616", 48),
        (1, "#", 48),
        (1, "li", 48),
        (2, "turns 0", 55),
    ];
    for (version, line, place) in cases {
        let text = with_line(rt.alloc(), version, line)?;
        assert_eq!(rt; place_of(rt.alloc(), text.as_str()), place);
    }
    assert_eq!(rt; place_of(rt.alloc(), "bus1 script 3\n"), 0);
    assert_eq!(rt; place_of(rt.alloc(), "bus1 script "), 12);
    assert_eq!(rt; place_of(rt.alloc(), "bus1 script 2"), 13);
    Ok(())
}

// A text of version 2 with a peer of this pool so many times, and then one of another pool.
fn with_peers(alloc: Global, version: u32, count: usize, last: u32) -> Result<String, AllocError> {
    let mut text = format!(in alloc; "bus1 script {version}\nclock 0\n")?;
    for _ in 0..count {
        text.push_str("peer 0 4194304 0 0 0\n")?;
    }
    let last = format!(in alloc; "peer 0 {last} 0 0 0\n")?;
    text.push_str(last.as_str())?;
    Ok(text)
}

#[test]
fn peers_and_pools_of_texts(rt: HostRuntime) -> Result<(), Fail> {
    // The first two lines have 22 bytes, and each of the peers' lines 21.
    let cases = [
        // 64 peers go on, and nothing is left for a further one in either version.
        (1, 63, 4_194_304, 1366),
        (2, 63, 4_194_304, 1366),
        (1, 64, 8, 1366),
        (2, 64, 8, 1366),
        // A pool that is greater than each may be.
        (2, 63, 4_194_312, 1345),
    ];
    for (version, count, last, place) in cases {
        let text = with_peers(rt.alloc(), version, count, last)?;
        assert_eq!(rt; place_of(rt.alloc(), text.as_str()), place);
    }
    Ok(())
}

#[test]
fn a_script_has_the_version_of_its_text(rt: HostRuntime) -> Result<(), Fail> {
    let script = assemble(rt.alloc(), TEXT.as_bytes())?;
    assert!(rt; script.cookies.is_some());
    for list in script.commands.as_slice() {
        for command in list.as_slice() {
            assert!(rt; matches!(command, Command::Send(_) | Command::Recv));
        }
    }
    Ok(())
}
