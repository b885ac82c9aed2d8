use b1_entry::EntryTable;
use b1_model::Entry;
use std::test::Fail;

#[test]
fn places(rt: HostRuntime) -> Result<(), Fail> {
    let mut table = EntryTable::make(rt.alloc());
    assert_eq!(rt; table.room(), 0);
    table.reserve(2)?;
    let first = table.insert(Entry::ReleaseNotice { serial: 4 });
    let second = table.insert(Entry::OwnNotice {
        serial: 7,
        index: 1,
    });
    assert!(rt; first < table.room() && second < table.room());
    if let Some(Entry::OwnNotice { serial, .. }) = table.get_mut(second) {
        *serial = 8;
    }
    assert!(rt;
        matches!(
            table.get(second),
            Some(Entry::OwnNotice {
                serial: 8,
                index: 1
            })
        )
    );
    assert!(rt;
        matches!(
            table.remove(first),
            Some(Entry::ReleaseNotice { serial: 4 })
        )
    );
    assert!(rt; table.get(first).is_none());
    assert!(rt; table.remove(first).is_none());
    let third = table.insert(Entry::ReleaseNotice { serial: 9 });
    assert_ne!(rt; third, second);
    Ok(())
}
