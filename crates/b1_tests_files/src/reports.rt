use b1_errs::{Cause, NotRead};
use b1_model::{Answer, Call, Command, Quantity, Reason, Refused};
use b1_report::{parse, print, print_call};
use std::alloc::{AllocError, Global};
use std::test::Fail;

#[test]
fn a_refused_quota(rt: HostRuntime) -> Result<(), Fail> {
    let reason = Reason::Quota {
        what: Quantity::Bytes,
        own: 16,
        others: 0,
        limit: 32,
        asked: 8,
    };
    let call = Call {
        command: Command::Recv,
        answer: Answer::Refused(Refused {
            reason,
            place: Some(0),
        }),
    };
    let text = print_call(rt.alloc(), &call, None)?;
    assert_eq!(rt;
        text.as_slice(),
        b"recv = refused EDQUOT:bytes:16:0:32:8 at 0\n".as_slice()
    );
    Ok(())
}

#[test]
fn a_disconnect(rt: HostRuntime) -> Result<(), Fail> {
    let call = Call {
        command: Command::Disconnect,
        answer: Answer::Reset { stamp: None },
    };
    let text = print_call(rt.alloc(), &call, None)?;
    assert_eq!(rt; text.as_slice(), b"disconnect = left -\n".as_slice());
    Ok(())
}

/// The report of one peer with one call.
fn with_call(alloc: Global, line: &str) -> Result<Vec<u8>, AllocError> {
    let text = format!(in alloc; "bus1 report 1\npeers 1\npeer 0 epoch 0 clock 2\n{line}\nend\n")?;
    Ok(text.into_bytes())
}

#[test]
fn calls_are_read_and_printed_again(rt: HostRuntime) -> Result<(), Fail> {
    let lines = [
        "send 0 to 2,6 with 4 data 676574 = sent 2 ok,EXFULL:16:8",
        "recv = data 4.2.0 node 4 slice 0 handles invalid bytes 61",
        "recv = destroyed 2.1.0 handle 6",
        "recv = destroyed 2.2.0 node 4",
        "recv = released 2 node 4",
        "destroy 4 = destroyed 8",
        "release 2 = refused ENXIO:6",
        "slice 0 = ok",
        "reset 16 4096 16 = reset 2",
        "disconnect = left -",
        "query = info 0 4096 16 4096 16",
        "recv = refused EAGAIN:staged:0:1",
        "send 1 to 2 with - data - = refused EDQUOT:bytes:16:0:32:8 at 0",
        "release invalid = refused EINVAL",
        "slice invalid = refused ENXIO:invalid",
    ];
    for line in lines {
        let text = with_call(rt.alloc(), line)?;
        let rec = parse(rt.alloc(), text.as_slice(), 1, None)?;
        let printed = print(rt.alloc(), &rec, None)?;
        assert!(rt; printed.as_slice() == text.as_slice());
    }
    Ok(())
}

#[test]
fn broken_calls(rt: HostRuntime) -> Result<(), Fail> {
    let lines = [
        "recv = reset -",
        "recv = destroyed 2.0.0 node 6",
        "recv = refused ENXIO:06",
        "await = ok",
        "recv = ok ",
        "end",
    ];
    for line in lines {
        let text = with_call(rt.alloc(), line)?;
        let why = parse(rt.alloc(), text.as_slice(), 1, None).err();
        let at = if line == "end" { 49 } else { 45 };
        assert!(rt;
            why == Some(NotRead::Bad {
                at,
                cause: Cause::Line
            })
        );
    }
    Ok(())
}

#[test]
fn broken_reports(rt: HostRuntime) -> Result<(), Fail> {
    let cases = [
        ("", 0),
        ("bus2", 0),
        ("bus1 report 1", 13),
        ("bus1 report 1\npeers 2\n", 14),
        ("bus1 report 1\npeers 1\npeer 0 epoch 00", 22),
        ("bus1 report 1\npeers 1\npeer 0 epoch 0 clock 2", 44),
        ("bus1 report 1\npeers 1\npeer 0 epoch 0 clock 2\nend", 48),
        (
            "bus1 report 1\npeers 1\npeer 0 epoch 0 clock 2\nrecv = destroyed 2.0.0 node 6",
            74,
        ),
    ];
    for (text, at) in cases {
        let why = parse(rt.alloc(), text.as_bytes(), 1, None).err();
        assert!(rt;
            why == Some(NotRead::Bad {
                at,
                cause: Cause::Line
            })
        );
    }
    Ok(())
}
