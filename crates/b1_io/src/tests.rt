ghost use Rattle.std.specs.Prelude.{◌≡◌, ◌<◌, Some, [], length, IfSome};
ghost use Rattle.b1_io.specs.Streams.{Rose, Took, TookSuch};

use super::*;
use std::alloc::Global;
use std::test::Fail;

// What a caller over any source and sink can promise of its statuses.
fn relay<S: Source, K: Sink>(alloc: Global, source: &mut S, sink: &mut K) -> u8
    ensures took { result ≡ 0 → IfSome (S.left source.old) (λ held.
        Took (K.taken sink.old) (K.taken sink.new) held) }
    ensures ended { result ≡ 0 → IfSome (S.left source.old) (λ _. S.left source.new ≡ Some []) }
    ensures long { result ≡ 2 → IfSome (S.left source.old) (λ held. 9 < length held) }
    ensures source_fault { result ≡ 4 → Rose (S.faults source.old) (S.faults source.new) }
    ensures unwritten { result ≡ 4 → sink.new ≡ sink.old }
    ensures sink_fault { result ≡ 5 → Rose (K.faults sink.old) (K.faults sink.new) }
    ensures prefix { result ≡ 5 → IfSome (S.left source.old) (λ held.
        TookSuch (K.taken sink.old) (K.taken sink.new) held (λ n. n < length held)) }
{
    match read_all(alloc, source, 9) {
        Ok(bytes) => match write_all(sink, &bytes) {
            Ok(()) => 0,
            Err(_) => 5,
        },
        Err(NotAll::Long) => 2,
        Err(NotAll::Fault) => 4,
        Err(NotAll::Memory) => 6,
    }
}

// A source of nine or more bytes, the calls that fail, and what reading them with limit 9 gives.
struct Reading {
    bytes: &'static str,
    per_call: usize,
    fails: &'static [u64],
    gives: Result<&'static str, NotAll>,
}

const READINGS: [Reading; 7] = [
    Reading {
        bytes: "",
        per_call: 4,
        fails: &[],
        gives: Ok(""),
    },
    Reading {
        bytes: "123456789",
        per_call: 4,
        fails: &[],
        gives: Ok("123456789"),
    },
    Reading {
        bytes: "1234567890",
        per_call: 4,
        fails: &[],
        gives: Err(NotAll::Long),
    },
    Reading {
        bytes: "12345678",
        per_call: 4,
        fails: &[1],
        gives: Err(NotAll::Fault),
    },
    Reading {
        bytes: "12345678",
        per_call: 4,
        fails: &[2],
        gives: Err(NotAll::Fault),
    },
    Reading {
        bytes: "12345678",
        per_call: 4,
        fails: &[3],
        gives: Ok("12345678"),
    },
    Reading {
        bytes: "1234567890",
        per_call: 4,
        fails: &[3],
        gives: Err(NotAll::Long),
    },
];

#[test]
fn readings(rt: HostRuntime) -> Result<(), Fail> {
    for row in &READINGS {
        let bytes = row.bytes.as_bytes().to_vec(rt.alloc())?;
        let mut source = MemSource::make(bytes, row.per_call.max(1), row.fails.to_vec(rt.alloc())?);
        let read = read_all(rt.alloc(), &mut source, 9);
        match (&read, &row.gives) {
            (Ok(bytes), Ok(text)) => assert_eq!(rt; bytes.as_slice(), text.as_bytes()),
            (Err(e), Err(wanted)) => assert_eq!(rt; *e, *wanted),
            _ => panic!(rt; "another outcome"),
        }
    }
    Ok(())
}

#[test]
fn writings(rt: HostRuntime) -> Result<(), Fail> {
    // The room, the call that fails, whether all was written, and how many bytes were taken.
    let rows: [(usize, u64, bool, usize); 6] = [
        (200, 9, true, 150),
        (200, 0, false, 0),
        (200, 1, false, 64),
        (200, 2, false, 128),
        (150, 3, true, 150),
        (149, 9, false, 149),
    ];
    let text = [7u8; 150];
    for (room, fails, all, count) in rows {
        let fails = [fails].to_vec(rt.alloc())?;
        let mut sink = MemSink::make(rt.alloc(), room, 64, fails)?;
        let written = write_all(&mut sink, &text);
        assert_eq!(rt; written.is_ok(), all);
        assert_eq!(rt; sink.taken().len(), count);
    }
    Ok(())
}

#[test]
fn relayed(rt: HostRuntime) -> Result<(), Fail> {
    let bytes = b"report".to_vec(rt.alloc())?;
    let mut source = MemSource::make(bytes, 2, Vec::new(rt.alloc()));
    let mut sink = MemSink::make(rt.alloc(), 6, 4, Vec::new(rt.alloc()))?;
    let status = relay(rt.alloc(), &mut source, &mut sink);
    assert_eq!(rt; status, 0);
    assert_eq!(rt; sink.taken(), b"report".as_slice());
    Ok(())
}

#[test]
fn standard_streams(rt: HostRuntime) -> Result<(), Fail> {
    let mut source = StdSource::make(&rt);
    assert_eq!(rt; source.read(&mut []), Ok(0));
    let mut sink = StdSink::make(&rt);
    assert_eq!(rt; write_all(&mut sink, b"written\n"), Ok(()));
    Ok(())
}
