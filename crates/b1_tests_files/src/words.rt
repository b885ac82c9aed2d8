use b1_model::{Command, Version};
use b1_report_lines::{Stop, Unread, read_answer};
use b1_text_words::{
    Form, Item, begins_command, begins_item, read_bytes, read_command, read_item, read_list,
};
use std::test::Fail;

#[test]
fn operands(rt: HostRuntime) {
    let handle = Item::Handle(Form::Script);
    assert_eq!(rt; read_item(handle, b"@1.63"), Some(255));
    assert_eq!(rt; read_item(handle, b"@1.64"), None);
    assert_eq!(rt; begins_item(handle, b"1844674407370955161"), true);
    assert_eq!(rt; begins_item(handle, b"1844674407370955163"), false);
}

#[test]
fn a_list(rt: HostRuntime) -> Result<(), Fail> {
    match read_list(rt.alloc(), Item::Known, 2, b"7,invalid")? {
        Some(numbers) => assert_eq!(rt; numbers.as_slice(), [7, u64::MAX].as_slice()),
        None => assert!(rt; false),
    }
    Ok(())
}

#[test]
fn bytes_as_pairs(rt: HostRuntime) -> Result<(), Fail> {
    match read_bytes(rt.alloc(), 2, b"0aff")? {
        Some(bytes) => assert_eq!(rt; bytes.as_slice(), [10, 255].as_slice()),
        None => assert!(rt; false),
    }
    Ok(())
}

#[test]
fn a_release(rt: HostRuntime) -> Result<(), Fail> {
    match read_command(rt.alloc(), Form::Script, Version::One, b"release 8")? {
        Some(Command::Release { number }) => assert_eq!(rt; number, 8),
        _ => assert!(rt; false),
    }
    Ok(())
}

#[test]
fn a_limit(rt: HostRuntime) -> Result<(), Fail> {
    for form in [Form::Script, Form::Report] {
        match read_command(rt.alloc(), form, Version::Two, b"limit 4 5 6")? {
            Some(Command::Limit { limits }) => assert_eq!(rt; limits.handles, 6),
            _ => assert!(rt; false),
        }
        assert!(rt; read_command(rt.alloc(), form, Version::One, b"limit 4 5 6")?.is_none());
        assert!(rt; begins_command(form, Version::Two, b"lim"));
        assert!(rt; !begins_command(form, Version::One, b"lim"));
    }
    Ok(())
}

#[test]
fn a_cut_line(rt: HostRuntime) {
    assert_eq!(rt;
        begins_command(Form::Script, Version::One, b"send 1 to 2,"),
        true
    );
    assert_eq!(rt; begins_command(Form::Report, Version::Two, b"aw"), false);
}

#[test]
fn a_cut_answer(rt: HostRuntime) -> Result<(), Fail> {
    let read = read_answer(rt.alloc(), &Command::Recv, b"refused EAGAIN:sta");
    assert!(rt; matches!(&read, Err(Unread::Stopped(Stop::Cut))));
    Ok(())
}
