ghost use Rattle.std.specs.Prelude.{◌≡◌, IfOk};
ghost use Rattle.b1_script.specs.Spelling.{HasSpelling};
ghost use Rattle.b1_gen.specs.Generated.{generated};

use crate::commands::{command_lists, peer_count_of};
use crate::laws::every_generated_script_has_a_spelling;
use crate::opening::opening;
use b1_model::Nums32;
use b1_script::Script;
use std::alloc::{AllocError, Global};

/// The script of a number: 4 to 8 peers, each of which sends in each of `PHASES` phases one message to the peers that
/// match it there, then takes what they send it there, and gives the slices back. An error is want of memory.
pub fn generate(alloc: Global, number: u32) -> Result<Script, AllocError>
    ensures script { IfOk result (λ script. script ≡ generated number) }
    ensures spelled { IfOk result HasSpelling }
{
    every_generated_script_has_a_spelling();
    Ok(Script {
        opening: opening(alloc, peer_count_of(number))?,
        commands: command_lists(alloc, number)?,
        turns: Nums32::new(alloc),
        cookies: None,
    })
}

#[cfg(test)]
mod tests {
    use super::*;
    use crate::counting::{Counts, Quantity, count_all, count_of};
    use crate::lines::summary;
    use b1_model::{
        Answer, Bytes, Call, Calls, Command, Key, Nums, PeerCalls, PeerLists, Places, Reason,
        Receipt, Record, Sent,
    };
    use std::test::Fail;

    /// How many SENDs of a script have so many destinations.
    fn sends_to(script: &Script, destinations: usize) -> u64 {
        let mut found = 0u64;
        for list in script.commands.as_slice() {
            for command in list.as_slice() {
                if let Command::Send(send) = command
                    && send.to.len() == destinations
                {
                    found = found.saturating_add(1);
                }
            }
        }
        found
    }

    #[test]
    fn seven_has_six_peers_and_a_fourth_destination_at_times(rt: HostRuntime) -> Result<(), Fail> {
        let script = generate(rt.alloc(), 7)?;
        assert_eq!(rt; script.opening.peers.len(), 6);
        assert_eq!(rt; script.opening.wires.len(), 30);
        assert_eq!(rt; script.commands.len(), 6);
        assert_eq!(rt; sends_to(&script, 3), 1024);
        assert_eq!(rt; sends_to(&script, 4), 512);
        assert!(rt; script.turns.is_empty());
        Ok(())
    }

    #[test]
    fn greatest_number_generates(rt: HostRuntime) -> Result<(), Fail> {
        let script = generate(rt.alloc(), u32::MAX)?;
        assert_eq!(rt; script.opening.peers.len(), 4);
        Ok(())
    }

    fn call(command: Command, answer: Answer) -> Call {
        Call { command, answer }
    }

    #[test]
    fn counts_what_was_accepted_and_taken(rt: HostRuntime) -> Result<(), Fail> {
        let alloc = rt.alloc();
        let places = Vec::from_array(alloc, [None, Some(Reason::Memory), None])?;
        let sent = Answer::Sent(Sent {
            stamp: 2,
            places: Places::from_vec(places),
        });
        let message = Receipt::Message {
            key: Key {
                stamp: 2,
                origin: 0,
                index: 0,
            },
            number: 4,
            offset: 0,
            handles: Nums::new(alloc),
            payload: Bytes::from_slice(alloc, b"hi")?,
        };
        let released = Receipt::Released {
            stamp: 4,
            number: 4,
        };
        let calls = Vec::from_array(
            alloc,
            [
                call(Command::Recv, sent),
                call(Command::Recv, Answer::Got(message)),
                call(Command::Recv, Answer::Got(released)),
            ],
        )?;
        let peer = PeerCalls {
            epoch: 0,
            clock: 2,
            calls: Calls::from_vec(calls),
        };
        let run = Record {
            peers: PeerLists::from_vec(Vec::from_array(alloc, [peer])?),
        };
        let counts = Counts {
            sends: 1,
            entries: 2,
            receipts: 1,
            bytes: 2,
        };
        assert_eq!(rt; count_all(&run), Some(counts));
        assert_eq!(rt; count_of(Quantity::Entries, &run), Some(2));
        Ok(())
    }

    #[test]
    fn tells_the_counts_in_one_line(rt: HostRuntime) -> Result<(), Fail> {
        let counts = Counts {
            sends: 1536,
            entries: 5120,
            receipts: 5120,
            bytes: 184_320,
        };
        let line = summary(rt.alloc(), 7, 6, counts)?;
        let wanted = "soak 7 peers 6 sends 1536 entries 5120 receipts 5120 bytes 184320\n";
        assert_eq!(rt; line.as_slice(), wanted.as_bytes());
        Ok(())
    }
}
