ghost use Rattle.std.specs.Prelude.{◌==◌, ◌&&◌, ◌<◌, ◌≤◌, ◌+◌, ◌++◌, ◌↔◌, nat_lt, IsTrue, IfOk, length, codes};
ghost use Rattle.std.specs.Fmt.{decimal};
ghost use Rattle.b1_model.specs.declared.limits.TheConstants.{MOST_PEERS};
ghost use Rattle.b1_records.specs.Spelling.{Is32, Is64};
ghost use Rattle.b1_script.specs.Spelling.{IsSpec};
ghost use Rattle.b1_script.specs.Reading.{is_first_clock};
ghost use Rattle.b1_text_words.specs.Numbers.{list_text};
ghost use Rattle.b1_text_words.specs.Words.{Spells, Begins};
ghost use Rattle.b1_text.specs.declared.draft.Draft.TheVariants.{Empty, Opened, Listing};
ghost use Rattle.b1_text.specs.Texts.{peer_text};
ghost use Rattle.b1_text.specs.Drafts.{IsNext, AreTurns, can_peer, can_turn, has_room, peer_len, turns_len};
ghost use Rattle.b1_text.specs.Nexts.{IsReached, Passes, HasSpec, AreFew};

use crate::begin_command::begins_next_command;
use crate::begin_parts::{begins_number, begins_one, begins_several};
use crate::begin_wire::begins_next_wire;
use crate::draft::{Draft, Entries, EntryLists, has_room, peer_len, pools_left};
use b1_model::{Held, MOST_POOL, Opening, Version};
use b1_script::{most_len, most_peers};
use b1_text_words::{Item, Kind, Numbers, begins_line, begins_text};
use std::alloc::{AllocError, Global};

/// Whether a line that was cut off can become a line with which a script goes on. An error is want of memory.
pub fn can_become_next(alloc: Global, draft: &Draft, line: &[u8]) -> Result<bool, AllocError>
    requires { IsReached draft.now }
    ensures { IfOk result (λ can. IsTrue can ↔ Begins (IsNext draft.now) line.now) }
{
    match draft {
        Draft::Empty => Ok(begins_name(line)),
        Draft::Named { .. } => Ok(begins_clock(line)),
        Draft::Opened {
            version,
            opening,
            held,
            len,
        } => Ok(begins_opened(*version, opening, held, *len, line)),
        Draft::Listing {
            version,
            opening,
            lists,
            list,
            len,
        } => begins_listing(alloc, *version, opening, lists, list, *len, line),
        Draft::Whole(_) => Ok(false),
    }
}

fn begins_name(line: &[u8]) -> bool
    ensures { IsTrue result ↔ Begins (IsNext Empty) line.now }
{
    begins_text("bus1 script 1", line) || begins_text("bus1 script 2", line)
}

fn begins_clock(line: &[u8]) -> bool
    ensures { IsTrue result ↔ Begins (Spells (λ n. codes "clock "
        ++ decimal n) (Passes Is64 is_first_clock)) line.now }
{
    let clocks = Numbers {
        least: 0,
        most: 1 << 62,
        step: 2,
    };
    begins_one("clock ", Item::Among(clocks), line)
}

fn begins_opened(version: Version, opening: &Opening, held: &Held, len: usize, line: &[u8]) -> bool
    requires peers { length opening.now.peers ≤ MOST_PEERS }
    requires few { AreFew held.now }
    ensures { IsTrue result ↔ Begins (IsNext (Opened version opening.now held.now len)) line.now }
{
    if begins_next_peer(version, opening, len, line) || begins_next_wire(opening, held, len, line) {
        return true;
    }
    begins_first_list(opening, line)
}

fn begins_next_peer(version: Version, opening: &Opening, len: usize, line: &[u8]) -> bool
    requires { length opening.now.peers ≤ MOST_PEERS }
    ensures { IsTrue result ↔ Begins
        (Spells peer_text (Passes IsSpec (λ p. can_peer version opening.now p
        && has_room (length opening.now.peers + 1) len (peer_len opening.now)))) line.now }
{
    opening.wires.len() == 0
        && opening.peers.len() < most_peers(version)
        && has_room(opening.peers.len() + 1, len, peer_len(opening))
        && begins_spec(pools_left(opening.peers.as_slice()), line)
}

/// Whether the line of a peer with a pool of so many bytes at most, and of any limits, begins with these bytes.
fn begins_spec(left: u64, line: &[u8]) -> bool
    ensures { IsTrue result ↔ Begins (Spells peer_text (HasSpec left)) line.now }
{
    if left < 8 {
        return false;
    }
    let limit = Kind::One(Item::UpTo(u32::MAX as u64));
    let pools = Numbers {
        least: 8,
        most: left.min(MOST_POOL as u64),
        step: 8,
    };
    let kinds = [
        Kind::Fixed("peer"),
        limit,
        Kind::One(Item::Among(pools)),
        limit,
        limit,
        limit,
    ];
    begins_line(b' ', &kinds, line)
}

fn begins_first_list(opening: &Opening, line: &[u8]) -> bool
    ensures { IsTrue result ↔ Begins (Spells (λ n. codes "commands "
        ++ decimal n) (Passes Is32 (λ n. (n == 0)
        && nat_lt 0 (length opening.now.peers)))) line.now }
{
    opening.peers.len() > 0 && begins_number("commands ", 0, line)
}

fn begins_list(opening: &Opening, lists: usize, line: &[u8]) -> bool
    requires { lists < MOST_PEERS }
    ensures { IsTrue result ↔ Begins (Spells (λ n. codes "commands "
        ++ decimal n) (Passes Is32 (λ n. (n == lists + 1)
        && nat_lt n (length opening.now.peers)))) line.now }
{
    let next = lists + 1;
    next < opening.peers.len() && begins_number("commands ", next as u64, line)
}

fn begins_turns(opening: &Opening, lists: usize, len: usize, line: &[u8]) -> bool
    requires { lists < MOST_PEERS }
    ensures { IsTrue result ↔ Begins (Spells (λ ns. codes "turns "
        ++ list_text decimal ns) (Passes AreTurns (λ ns. can_turn opening.now (lists + 1) ns
        && has_room (length opening.now.peers) len (turns_len (length ns))))) line.now }
{
    let most = most_len(opening.peers.len());
    if lists + 1 != opening.peers.len() || len > most {
        return false;
    }
    let most = (most - len) / 8 * 2;
    begins_several("turns ", Item::UpTo(lists as u64), most as u64, line)
}

fn begins_listing(
    alloc: Global,
    version: Version,
    opening: &Opening,
    lists: &EntryLists,
    _list: &Entries,
    len: usize,
    line: &[u8],
) -> Result<bool, AllocError>
    requires { length lists.now < MOST_PEERS }
    ensures { IfOk result (λ can. IsTrue can
        ↔ Begins (IsNext (Listing version opening.now lists.now _list.now len)) line.now) }
{
    let before = lists.len();
    if begins_list(opening, before, line) || begins_turns(opening, before, len, line) {
        return Ok(true);
    }
    begins_next_command(alloc, version, opening.peers.len(), len, line)
}
