use b1_errs::{Cause, NotRead};
use b1_model::{Calls, Command};
use b1_script::{ScriptReader, read, read_whole, resolve, write};
use b1_text::{assemble, print_script};
use std::alloc::{AllocError, Global};
use std::test::Fail;

/// Two peers, a wire from peer 1 to peer 0, a SEND of `hi` by peer 0 and a RECV by peer 1.
const ONE_MESSAGE: [u8; 168] = [
    0x42, 0x55, 0x53, 0x31, 0x53, 0x43, 0x52, 0x31, 1, 0, 0, 0, 2, 0, 0, 0, 0, 0, 0, 0, 0, 0, 0, 0,
    1, 0, 0, 0, 0, 0, 0, 0, 0xa8, 0, 0, 0, 0, 0, 0, 0, 0, 0, 0, 0, 0, 0x10, 0, 0, 0x10, 0, 0, 0, 0,
    0x10, 0, 0, 0x10, 0, 0, 0, 0, 0, 0, 0, 1, 0, 0, 0, 0, 0x10, 0, 0, 0x10, 0, 0, 0, 0, 0x10, 0, 0,
    0x10, 0, 0, 0, 0, 0, 0, 0, 1, 0, 0, 0, 0, 0, 0, 0, 4, 0, 0, 0, 0, 0, 0, 0, 1, 0, 0, 0, 0, 0, 0,
    0, 7, 0, 0, 0, 0, 0, 0, 0, 1, 0, 0, 0, 0, 0, 0, 0, 2, 0, 0, 0, 0, 0, 0, 0, 2, 0, 0, 0, 0, 0, 0,
    0, 0x68, 0x69, 0, 0, 0, 0, 0, 0, 1, 0, 0, 0, 0, 0, 0, 0, 8, 0, 0, 0, 0, 0, 0, 0,
];

/// The same as text.
const TEXT: &str =
    "bus1 script 1\nclock 0\npeer 0 4096 16 4096 16\npeer 1 4096 16 4096 16\nwire 1 4 0\ncommands 0\nsend 0 to 2 with - data 6869\ncommands 1\nrecv\nturns -\n";

#[test]
fn one_message_as_text(rt: HostRuntime) -> Result<(), Fail> {
    let script = assemble(rt.alloc(), TEXT.as_bytes())?;
    let bytes = write(rt.alloc(), &script)?;
    assert_eq!(rt; bytes.as_slice(), ONE_MESSAGE.as_slice());
    Ok(())
}

#[test]
fn one_message_printed(rt: HostRuntime) -> Result<(), Fail> {
    let script = read_whole(rt.alloc(), &ONE_MESSAGE)?;
    let text = print_script(rt.alloc(), &script)?;
    assert_eq!(rt; text.as_slice(), TEXT.as_bytes());
    Ok(())
}

/// The place where a text breaks; 0 where it is accepted.
fn place_of(alloc: Global, text: &str) -> usize {
    match assemble(alloc, text.as_bytes()) {
        Err(NotRead::Bad { at, .. }) => at,
        _ => 0,
    }
}

#[test]
fn broken_texts(rt: HostRuntime) -> Result<(), Fail> {
    let cases = [
        // A command that isn't known.
        (
            "bus1 script 1\nclock 0\npeer 0 4096 16 4096 16\npeer 1 4096 16 4096 16\nwire 1 4 0\ncommands 0\nsend 0 to 2 with - data 6869\ncommands 1\nrecieve\nturns -\n",
            130,
        ),
        // Cut off, and cut off where nothing goes on.
        ("bus1 script 1\nclo", 17),
        ("bus1 script 1\nclo ", 14),
        // An odd clock, and one that can become even.
        ("bus1 script 1\nclock 1\n", 14),
        ("bus1 script 1\nclock 1", 21),
        // A wire to its own peer, and commands of the second peer first.
        (
            "bus1 script 1\nclock 0\npeer 0 8 0 0 0\npeer 0 8 0 0 0\nwire 0 4 0\n",
            52,
        ),
        (
            "bus1 script 1\nclock 0\npeer 0 8 0 0 0\npeer 0 8 0 0 0\ncommands 1\n",
            52,
        ),
        // A turn of no peer, and a line behind the turns.
        (
            "bus1 script 1\nclock 0\npeer 0 8 0 0 0\ncommands 0\nturns 1\n",
            48,
        ),
        (
            "bus1 script 1\nclock 0\npeer 0 8 0 0 0\ncommands 0\nturns 0\n\n",
            56,
        ),
    ];
    for (text, place) in cases {
        assert_eq!(rt; place_of(rt.alloc(), text), place);
    }
    Ok(())
}

#[test]
fn greatest_operands(rt: HostRuntime) -> Result<(), Fail> {
    let text =
        "bus1 script 1\nclock 0\npeer 0 8 0 0 0\ncommands 0\nrelease @144115188075855871.63\nslice @9223372036854775807\nturns 0\n";
    let script = assemble(rt.alloc(), text.as_bytes())?;
    let back = print_script(rt.alloc(), &script)?;
    assert_eq!(rt; back.as_slice(), text.as_bytes());
    Ok(())
}

// A script that is cut off is no script, and a text that is cut off breaks at its end.
#[test]
fn cut_scripts_and_texts(rt: HostRuntime) -> Result<(), Fail> {
    for len in 0..ONE_MESSAGE.len() {
        let script = read_whole(rt.alloc(), &ONE_MESSAGE[..len]);
        let short = matches!(
            &script,
            Err(NotRead::Bad {
                cause: Cause::Short,
                ..
            })
        );
        assert!(rt; short);
    }
    let text = TEXT.as_bytes();
    for len in 0..text.len() {
        let script = assemble(rt.alloc(), &text[..len]);
        let cut = script.err()
            == Some(NotRead::Bad {
                at: len,
                cause: Cause::Line,
            });
        assert!(rt; cut);
    }
    Ok(())
}

#[test]
fn one_message_at_the_front(rt: HostRuntime) -> Result<(), Fail> {
    let (_, end) = read(rt.alloc(), &ONE_MESSAGE)?;
    assert_eq!(rt; end, 168);
    Ok(())
}

#[test]
fn a_reference_without_receipt(rt: HostRuntime) -> Result<(), Fail> {
    let alloc = rt.alloc();
    let resolved = resolve(
        alloc,
        &Command::SliceRelease { offset: 1 },
        &Calls::new(alloc),
    )?;
    assert!(rt; matches!(&resolved, Command::SliceRelease { offset: u64::MAX }));
    Ok(())
}

// What a reader makes of bytes in pieces of so many, one at least, and how many bytes it took.
pub(crate) fn in_pieces(
    alloc: Global,
    bytes: &[u8],
    size: usize,
) -> Result<(ScriptReader, usize), AllocError> {
    let mut reader = ScriptReader::make(alloc);
    let mut taken = 0usize;
    for piece in bytes.chunks(size.max(1)) {
        taken = taken.saturating_add(reader.feed(piece)?);
    }
    Ok((reader, taken))
}

// However a script is cut, the same is read, and nothing behind it is taken.
#[test]
fn script_in_pieces(rt: HostRuntime) -> Result<(), Fail> {
    let alloc = rt.alloc();
    let mut longer = Vec::from_slice(alloc, &ONE_MESSAGE)?;
    longer.extend_from_slice(&[1, 2, 3])?;
    for bytes in [ONE_MESSAGE.as_slice(), longer.as_slice()] {
        for size in [1, 7, 168, 171] {
            let (reader, taken) = in_pieces(alloc, bytes, size)?;
            assert_eq!(rt; taken, 168);
            assert!(rt; reader.is_whole());
            let script = reader.finish()?;
            assert_eq!(rt; write(alloc, &script)?.as_slice(), ONE_MESSAGE.as_slice());
        }
    }
    Ok(())
}

#[test]
fn cut_script_in_pieces(rt: HostRuntime) -> Result<(), Fail> {
    let alloc = rt.alloc();
    let (reader, taken) = in_pieces(alloc, &ONE_MESSAGE[..167], 5)?;
    assert_eq!(rt; taken, 167);
    assert!(rt; !reader.is_whole());
    assert_eq!(rt;
        reader.finish().err(),
        Some(NotRead::Bad {
            at: 164,
            cause: Cause::Short
        })
    );
    Ok(())
}
