use crate::openings::one_peer;
use b1_core::{Core, Turn};
use b1_model::{Command, CommandLists, Commands, Front, valid_opening};
use b1_pool::ListPool;
use b1_queue::PlainQueue;
use std::test::Fail;

// A QUERY is one turn, and then its call is in the record.
#[test]
fn a_query_is_a_call(rt: HostRuntime) -> Result<(), Fail> {
    let alloc = rt.alloc();
    let opening = one_peer(alloc)?;
    let mut commands = Vec::new(alloc);
    commands.push(Command::Query)?;
    let mut lists = Vec::new(alloc);
    lists.push(Commands::from_vec(commands))?;
    assert!(rt; valid_opening(alloc, &opening)?);
    assert_eq!(rt; opening.peers.len(), lists.len());
    let lists = CommandLists::from_vec(lists);
    let mut core = Core::<PlainQueue, ListPool>::start(alloc, &opening, lists)?;
    assert_eq!(rt; core.step(0)?, Turn::Ended);
    let record = core.finish();
    assert_eq!(rt; record.peers.len(), 1);
    Ok(())
}

// An attempt of the drain at an empty queue waits.
#[test]
fn the_drain_waits(rt: HostRuntime) -> Result<(), Fail> {
    let alloc = rt.alloc();
    let opening = one_peer(alloc)?;
    let mut lists = Vec::new(alloc);
    lists.push(Commands::new(alloc))?;
    assert!(rt; valid_opening(alloc, &opening)?);
    assert_eq!(rt; opening.peers.len(), lists.len());
    let lists = CommandLists::from_vec(lists);
    let mut core = Core::<PlainQueue, ListPool>::start(alloc, &opening, lists)?;
    assert!(rt; !core.is_open(0));
    assert!(rt; core.at_end(0));
    assert!(rt; !core.is_shut(0));
    let turn = core.drain_step(0)?;
    let found = Turn::Waiting {
        front: Front::Absent,
        removed: 0,
    };
    assert_eq!(rt; turn, found);
    Ok(())
}
