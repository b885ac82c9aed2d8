use b1_edge::{HoldGate, OpenGate, Point};
use b1_model::{
    Answer, Bytes, Command, CommandLists, Commands, Limits, Nums, Nums32, Opening, PeerSpec, Peers,
    Record, SendCmd, Wire, Wires, valid_opening,
};
use b1_run::{Ran, run};
use b1_script::Script;
use b1_soak::soak;
use std::alloc::{AllocError, Global};
use std::test::Fail;

/// For how many turns a gate holds a thread at most.
const TURNS: u64 = 1_000_000_000;

// A plain peer.
fn plain(user: u32) -> PeerSpec {
    PeerSpec {
        user,
        pool: 4096,
        limits: Limits {
            entries: 16,
            bytes: 4096,
            handles: 16,
        },
    }
}

// Two plain peers, of which the first holds a node of the second, as 2, and does these commands; the second receives.
fn script(alloc: Global, first: Command) -> Result<Script, AllocError> {
    let wire = Wire {
        from: 1,
        to: 0,
        number: 4,
    };
    let mut one = Vec::new(alloc);
    one.push(first)?;
    let mut other = Vec::new(alloc);
    other.push(Command::Await)?;
    let mut lists = Vec::new(alloc);
    lists.push(Commands::from_vec(one))?;
    lists.push(Commands::from_vec(other))?;
    Ok(Script {
        opening: Opening {
            first_clock: 0,
            peers: Peers::from_slice(alloc, &[plain(0), plain(1)])?,
            wires: Wires::from_slice(alloc, &[wire])?,
        },
        commands: CommandLists::from_vec(lists),
        turns: Nums32::new(alloc),
        cookies: None,
    })
}

// A SEND of two bytes to 2.
fn hi(alloc: Global) -> Result<Command, AllocError> {
    Ok(Command::Send(SendCmd {
        go_on: false,
        to: Nums::from_slice(alloc, &[2])?,
        with: Nums::new(alloc),
        payload: Bytes::from_slice(alloc, &[0x68, 0x69])?,
    }))
}

// Peer 0 has sent, peer 1 has received, and both clocks are 2.
fn is_one_message(record: &Record) -> bool {
    let peers = record.peers.as_slice();
    if peers.len() != 2 || peers[0].calls.len() != 1 || peers[1].calls.len() != 1 {
        return false;
    }
    let sent = matches!(peers[0].calls.as_slice()[0].answer, Answer::Sent(_));
    let got = matches!(peers[1].calls.as_slice()[0].answer, Answer::Got(_));
    sent && got && peers[0].clock == 2 && peers[1].clock == 2
}

#[test]
fn one_message_on_threads(rt: HostRuntime) -> Result<(), Fail> {
    let alloc = rt.alloc();
    let script = script(alloc, hi(alloc)?)?;
    assert!(rt; valid_opening(alloc, &script.opening)?);
    match run(&rt, alloc, &OpenGate, &script)? {
        Ran::Done(record) => assert!(rt; is_one_message(&record)),
        Ran::Stalled { .. } => assert!(rt; false),
    }
    Ok(())
}

#[test]
fn both_peers_wait(rt: HostRuntime) -> Result<(), Fail> {
    let alloc = rt.alloc();
    let script = script(alloc, Command::Await)?;
    assert!(rt; valid_opening(alloc, &script.opening)?);
    match run(&rt, alloc, &OpenGate, &script)? {
        Ran::Done(_) => assert!(rt; false),
        Ran::Stalled { waiting, .. } => assert!(rt; waiting.as_slice() == [0, 1].as_slice()),
    }
    Ok(())
}

#[test]
fn the_script_of_seven_on_threads(rt: HostRuntime) -> Result<(), Fail> {
    let alloc = rt.alloc();
    let line = soak(&rt, alloc, &OpenGate, 7)?;
    let told = b"soak 7 peers 6 sends 1536 entries 5120 receipts 5120 bytes 184320\n";
    assert!(rt; line.as_slice() == told.as_slice());
    Ok(())
}

#[test]
fn drivers_of_the_script_of_seven_run_beside_each_other(rt: HostRuntime) -> Result<(), Fail> {
    let alloc = rt.alloc();
    let one = Point::Between {
        driver: 0,
        event: 1,
    };
    let other = Point::Between {
        driver: 1,
        event: 1,
    };
    let gate = HoldGate::make(one, other, TURNS);
    let line = soak(&rt, alloc, &gate, 7)?;
    assert!(rt; line.len() == 66);
    assert!(rt; gate.met());
    assert!(rt; !gate.ran_out());
    Ok(())
}
