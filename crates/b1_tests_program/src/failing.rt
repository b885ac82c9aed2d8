use crate::rows::{CLIENT_SERVER_LOGGER, CLIENT_SERVER_LOGGER_REPORT};
use b1_edge::OpenGate;
use b1_io::{MemSink, MemSource};
use b1_shell::{quiet, top};
use std::alloc::{AllocError, Global};
use std::test::Fail;

// A script of one message to one peer, as numbers of four bytes each.
const ONE_MESSAGE: [u32; 42] = [
    0x31535542, 0x31524353, 1, 2, 0, 0, 1, 0, 168, 0, 0, 4096, 16, 4096, 16, 0, 1, 4096, 16, 4096,
    16, 0, 1, 0, 4, 0, 1, 0, 7, 0, 1, 0, 2, 0, 2, 0, 26984, 0, 1, 0, 8, 0,
];

const ONE_MESSAGE_REPORT: &str =
    "bus1 report 1\npeers 2\npeer 0 epoch 0 clock 2\nsend 0 to 2 with - data 6869 = sent 2 ok\npeer 1 epoch 0 clock 2\nrecv = data 2.0.0 node 4 slice 0 handles - bytes 6869\nend\n";

// The script's bytes, least byte of a number first.
fn script(alloc: Global) -> Result<Vec<u8>, AllocError> {
    let mut bytes = Vec::new(alloc);
    for number in ONE_MESSAGE {
        bytes.extend_from_slice(&number.to_le_bytes())?;
    }
    Ok(bytes)
}

// What playing the script gives on ends that move 64 bytes in a call: the status, and the sink behind it.
fn play(
    alloc: Global,
    read_fails: Vec<u64>,
    write_fails: Vec<u64>,
) -> Result<(u8, MemSink), AllocError> {
    let mut words = Vec::new(alloc);
    words.push(String::from_str(alloc, "play")?)?;
    let mut source = MemSource::make(script(alloc)?, 64, read_fails);
    let mut sink = MemSink::make(alloc, 4096, 64, write_fails)?;
    let status = quiet(alloc, &words, &mut source, &mut sink);
    Ok((status, sink))
}

#[test]
fn no_call_fails(rt: HostRuntime) -> Result<(), Fail> {
    let alloc = rt.alloc();
    let (status, sink) = play(alloc, Vec::new(alloc), Vec::new(alloc))?;
    assert_eq!(rt; status, 0);
    assert_eq!(rt; sink.taken(), ONE_MESSAGE_REPORT.as_bytes());
    Ok(())
}

#[test]
fn a_read_fails(rt: HostRuntime) -> Result<(), Fail> {
    let alloc = rt.alloc();
    let (status, sink) = play(alloc, [1].to_vec(alloc)?, Vec::new(alloc))?;
    assert_eq!(rt; status, 4);
    assert!(rt; sink.taken().is_empty());
    Ok(())
}

// What was taken before the write that fails.
#[test]
fn a_write_fails(rt: HostRuntime) -> Result<(), Fail> {
    let alloc = rt.alloc();
    for (fails, taken) in [(0u64, 0usize), (1, 64)] {
        let (status, sink) = play(alloc, Vec::new(alloc), [fails].to_vec(alloc)?)?;
        assert_eq!(rt; status, 5);
        assert_eq!(rt; sink.taken(), &ONE_MESSAGE_REPORT.as_bytes()[..taken]);
    }
    Ok(())
}

#[test]
fn no_words(rt: HostRuntime) -> Result<(), Fail> {
    let alloc = rt.alloc();
    let mut source = MemSource::make(Vec::new(alloc), 64, Vec::new(alloc));
    let mut sink = MemSink::make(alloc, 64, 64, Vec::new(alloc))?;
    let status = top(
        &rt,
        alloc,
        &Vec::new(alloc),
        &mut source,
        &mut sink,
        &OpenGate,
    );
    assert_eq!(rt; status, 1);
    assert_eq!(rt;
        sink.taken(),
        b"usage: bus1sh play|run|asm|dump|check|migrate|soak N\n".as_slice()
    );
    Ok(())
}

// What the word makes of the bytes on ends that move 64 bytes in a call: the status, and the sink behind it.
fn call(
    alloc: Global,
    word: &str,
    bytes: &[u8],
    read_fails: Vec<u64>,
    write_fails: Vec<u64>,
) -> Result<(u8, MemSink), AllocError> {
    let mut words = Vec::new(alloc);
    words.push(String::from_str(alloc, word)?)?;
    let mut source = MemSource::make(bytes.to_vec(alloc)?, 64, read_fails);
    let mut sink = MemSink::make(alloc, 4096, 64, write_fails)?;
    let status = quiet(alloc, &words, &mut source, &mut sink);
    Ok((status, sink))
}

// The script of the client, the server and the logger.
fn assembled(alloc: Global) -> Result<Vec<u8>, Fail> {
    let text = CLIENT_SERVER_LOGGER.as_bytes();
    let (status, sink) = call(alloc, "asm", text, Vec::new(alloc), Vec::new(alloc))?;
    if status != 0 {
        return Err("the text is refused")?;
    }
    Ok(sink.taken().to_vec(alloc)?)
}

// Each read fails in turn, the last of which finds the end; where none fails, the report is written.
#[test]
fn each_read_fails(rt: HostRuntime) -> Result<(), Fail> {
    let alloc = rt.alloc();
    let script = assembled(alloc)?;
    let reads = script.len().div_ceil(64) as u64 + 1;
    for number in 0..reads {
        let fails = [number].to_vec(alloc)?;
        let (status, sink) = call(alloc, "play", &script, fails, Vec::new(alloc))?;
        assert_eq!(rt; status, 4);
        assert!(rt; sink.taken().is_empty());
    }
    let (status, sink) = call(
        alloc,
        "play",
        &script,
        [reads].to_vec(alloc)?,
        Vec::new(alloc),
    )?;
    assert_eq!(rt; status, 0);
    assert_eq!(rt; sink.taken(), CLIENT_SERVER_LOGGER_REPORT.as_bytes());
    Ok(())
}

// Each write fails in turn, and what was taken before it is the begin of the report.
#[test]
fn each_write_fails(rt: HostRuntime) -> Result<(), Fail> {
    let alloc = rt.alloc();
    let script = assembled(alloc)?;
    let report = CLIENT_SERVER_LOGGER_REPORT.as_bytes();
    let writes = report.len().div_ceil(64);
    for number in 0..writes {
        let fails = [number as u64].to_vec(alloc)?;
        let (status, sink) = call(alloc, "play", &script, Vec::new(alloc), fails)?;
        assert_eq!(rt; status, 5);
        assert_eq!(rt; sink.taken(), &report[..number * 64]);
    }
    let fails = [writes as u64].to_vec(alloc)?;
    let (status, sink) = call(alloc, "play", &script, Vec::new(alloc), fails)?;
    assert_eq!(rt; status, 0);
    assert_eq!(rt; sink.taken(), report);
    Ok(())
}
