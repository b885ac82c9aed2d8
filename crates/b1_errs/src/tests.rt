use super::*;
use std::test::Fail;

#[test]
fn words(rt: HostRuntime) -> Result<(), Fail> {
    assert_eq!(rt; word(Cause::Short), "short");
    assert_eq!(rt; word(Cause::Wiring), "wiring");
    assert_eq!(rt; word(Cause::Line), "line");
    Ok(())
}

#[test]
fn memory_is_a_variant_of_its_own(rt: HostRuntime) -> Result<(), Fail> {
    let not_read = NotRead::from(AllocError);
    assert_eq!(rt; not_read, NotRead::Memory);
    Ok(())
}

#[test]
fn a_fault_as_text(rt: HostRuntime) -> Result<(), Fail> {
    let fault = NotRead::Bad {
        at: 36,
        cause: Cause::Reserved,
    };
    let text = format!(in rt.alloc(); "{fault}")?;
    assert_eq!(rt; text.as_str(), "bad input at 36: reserved");
    Ok(())
}
