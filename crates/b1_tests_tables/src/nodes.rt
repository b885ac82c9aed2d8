use b1_nodes::NodeTable;
use std::test::Fail;

#[test]
fn numbers_and_serials(rt: HostRuntime) -> Result<(), Fail> {
    let mut nodes = NodeTable::make(rt.alloc(), 0, 3)?;
    nodes.reserve(2)?;
    assert_eq!(rt; nodes.find(8), None);
    assert_eq!(rt; nodes.create(8), 0);
    assert_eq!(rt; nodes.create(4), 1);
    assert_eq!(rt; nodes.find(4), Some(1));
    assert_eq!(rt; nodes.number(0), 8);
    nodes.take_notice(0);
    assert!(rt; nodes.notice_taken(0));
    assert_eq!(rt; nodes.len(), 2);
    nodes.reserve(1)?;
    assert_eq!(rt; nodes.find(8), Some(0));
    assert_eq!(rt; nodes.find(4), Some(1));
    assert_eq!(rt; nodes.find(12), None);
    Ok(())
}
