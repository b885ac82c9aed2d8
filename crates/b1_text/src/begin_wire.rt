ghost use Rattle.std.specs.Prelude.{◌&&◌, ◌<◌, ◌≤◌, ◌↔◌, IsTrue, length};
ghost use Rattle.std.specs.Fmt.{decimal};
ghost use Rattle.b1_model.specs.declared.limits.TheConstants.{MOST_PEERS};
ghost use Rattle.b1_records.specs.Spelling.{Is32};
ghost use Rattle.b1_text_words.specs.Words.{Spells, Begins};
ghost use Rattle.b1_text.specs.Texts.{wire_text};
ghost use Rattle.b1_text.specs.Bodies.{end_body, IsEnd, wire_body};
ghost use Rattle.b1_text.specs.Drafts.{HasWireFields, can_wire, has_room, wire_len};
ghost use Rattle.b1_text.specs.Nexts.{Passes, AreFew, IsOwn};

use crate::begin_parts::begins_decimal;
use crate::draft::{WIRE_LEN, can_wire, has_room};
use crate::fields::{behind, read_handle, read_u32};
use b1_model::{Held, Opening, Wire};
use b1_text_words::{Item, Numbers, begins_item, begins_text, split};

pub fn begins_next_wire(opening: &Opening, held: &Held, len: usize, line: &[u8]) -> bool
    requires peers { length opening.now.peers ≤ MOST_PEERS }
    requires few { AreFew held.now }
    ensures { IsTrue result ↔ Begins (Spells wire_text (Passes HasWireFields (λ w.
        can_wire (length opening.now.peers) held.now w
        && has_room (length opening.now.peers) len wire_len))) line.now }
{
    let peers = opening.peers.len();
    peers >= 2 && has_room(peers, len, WIRE_LEN) && begins_wire(peers as u32, held, line)
}

/// Whether the line of a wire that can be made begins with these bytes.
fn begins_wire(peers: u32, held: &Held, line: &[u8]) -> bool
    requires some { 2 ≤ peers }
    requires peers { peers ≤ MOST_PEERS }
    requires few { AreFew held.now }
    ensures { IsTrue result ↔ Begins
        (Spells wire_text (Passes HasWireFields (can_wire peers held.now))) line.now }
{
    match behind("wire ", line) {
        Some(rest) => begins_from(peers, held, rest),
        None => begins_text("wire ", line),
    }
}

fn begins_from(peers: u32, held: &Held, line: &[u8]) -> bool
    requires some { 2 ≤ peers }
    requires peers { peers ≤ MOST_PEERS }
    requires few { AreFew held.now }
    ensures { IsTrue result ↔ Begins
        (Spells wire_body (Passes HasWireFields (can_wire peers held.now))) line.now }
{
    let Some((first, rest)) = split(line, b' ') else {
        return begins_item(Item::UpTo(peers as u64 - 1), line);
    };
    match read_u32(first) {
        Some(from) => from < peers && begins_end(peers, held, from, rest),
        None => false,
    }
}

fn begins_end(peers: u32, held: &Held, from: u32, line: &[u8]) -> bool
    requires some { 2 ≤ peers }
    requires peers { peers ≤ MOST_PEERS }
    requires from { from < peers }
    requires few { AreFew held.now }
    ensures { IsTrue result ↔ Begins (Spells end_body (Passes IsEnd (λ x.
        can_wire peers held.now (record { from = from; to = x.1; number = x.0 })))) line.now }
{
    let Some((first, rest)) = split(line, b' ') else {
        return begins_own(line);
    };
    match read_handle(first) {
        Some(number) => begins_to(peers, held, from, number, rest),
        None => false,
    }
}

/// Whether an own number begins with these bytes.
fn begins_own(word: &[u8]) -> bool
    ensures { IsTrue result ↔ Begins (Spells decimal IsOwn) word.now }
{
    let numbers = Numbers {
        least: 0,
        most: u64::MAX,
        step: 4,
    };
    begins_item(Item::Among(numbers), word)
}

/// Whether the number of a peer to which such a wire can be made begins with these bytes.
fn begins_to(peers: u32, held: &Held, from: u32, number: u64, word: &[u8]) -> bool
    ensures { IsTrue result ↔ Begins (Spells decimal (Passes Is32 (λ to.
        can_wire peers held.now (record { from = from; to = to; number = number })))) word.now }
{
    for to in 0..peers {
        let wire = Wire { from, to, number };
        if can_wire(peers as usize, held, &wire) && begins_decimal(to as u64, word) {
            return true;
        }
    }
    false
}
