ghost use Rattle.std.specs.Prelude.{◌≡◌, ◌++◌, ◌∷◌, ◌<◌, ◌≤◌, ◌+◌, [], length, map, filter_map, IfOk};
ghost use Rattle.std.specs.List.{list_all};
ghost use Rattle.std.specs.Prelude.{nat_lt};
ghost use Rattle.b1_records.specs.Spelling.{IsWithin2};
ghost use Rattle.b1_script.specs.Reading.{is_first_clock, is_pool, gives_foreign};
ghost use Rattle.b1_text.specs.Drafts.{Fits, IsCarried, record_len, turns_len, is_of, has_room, opened, pools_left, can_pool, can_peer, peer_len, with_peer, can_wire, with_wire, with_first_list, with_list, with_command, can_turn, script_said, commands_said, with_turns, after_nothing, after_name, after_opening, after_lists, step};
ghost use Rattle.b1_text.specs.Nexts.{plain_len};

use crate::statement::{Entry, Statement};
use b1_model::{
    CLOCK_LIMIT, Command, CommandLists, Commands, CookieLists, Held, Items, MOST_POOL, MOST_POOLS,
    MOST_SCRIPT, Nums, Opening, PeerSpec, Peers, Version, Wire, Wires,
};
use b1_script::{Script, Turns, most_len, most_peers};
use std::alloc::{AllocError, Global};

/// How many bytes the least script has: one peer, no wires, commands or turns.
const LEAST_LEN: usize = 72;

/// How many bytes a peer adds, with its list of commands.
const PEER_LEN: usize = 32;

/// How many bytes a wire adds.
pub(crate) const WIRE_LEN: usize = 16;

/// How many bytes a cookie adds to a command's record.
pub(crate) const COOKIE_LEN: usize = 8;

/// One peer's commands as far as they were read.
pub type Entries = Items<Entry>;

/// The commands of each peer as far as they were read.
pub type EntryLists = Items<Entries>;

/// A script as far as the lines of its text were read. Each `len` is how many bytes the least script has that can come
/// of it.
#[derive(Drop)]
pub enum Draft {
    /// Nothing was read.
    Empty,
    /// The name was read.
    Named {
        version: Version,
    },
    /// The first clock was read, and some peers and wires.
    Opened {
        version: Version,
        opening: Opening,
        /// What the wires give.
        held: Held,
        len: usize,
    },
    /// Peers' commands are read: all of the first ones, and some of the next one.
    Listing {
        version: Version,
        opening: Opening,
        lists: EntryLists,
        list: Entries,
        len: usize,
    },
    /// All was read.
    Whole(Script),
}

impl Draft {
    /// What the draft is behind one more line; `None` where no script goes on so.
    pub fn take(self, alloc: Global, statement: Statement) -> Result<Option<Draft>, AllocError>
        requires { Fits statement }
        ensures { IfOk result (λ next. next ≡ step self statement) }
    {
        match self {
            Draft::Empty => Ok(take_name(statement)),
            Draft::Named { version } => Ok(take_clock(alloc, version, statement)),
            Draft::Opened {
                version,
                opening,
                held,
                len,
            } => take_opening(alloc, version, opening, held, len, statement),
            Draft::Listing {
                version,
                opening,
                lists,
                list,
                len,
            } => take_lists(alloc, version, opening, lists, list, len, statement),
            Draft::Whole(_) => Ok(None),
        }
    }
}

/// A list with one more item behind it. An error is want of memory.
fn pushed<T: Drop>(items: Items<T>, item: T) -> Result<Items<T>, AllocError>
    ensures { IfOk result (λ list. list ≡ items ++ item ∷ []) }
{
    let mut items = items.into_vec();
    items.push(item)?;
    Ok(Items::from_vec(items))
}

fn take_name(statement: Statement) -> Option<Draft>
    ensures { result ≡ after_nothing statement }
{
    match statement {
        Statement::Name { version } => Some(Draft::Named { version }),
        _ => None,
    }
}

fn take_clock(alloc: Global, version: Version, statement: Statement) -> Option<Draft>
    ensures { result ≡ after_name version statement }
{
    match statement {
        Statement::Clock { clock } => open(alloc, version, clock),
        _ => None,
    }
}

/// Whether a clock may be the first: even, and at most `CLOCK_LIMIT`.
fn may_be_first(clock: u64) -> bool
    ensures { result ≡ is_first_clock clock }
{
    clock % 2 == 0 && clock <= CLOCK_LIMIT
}

fn open(alloc: Global, version: Version, clock: u64) -> Option<Draft>
    ensures { result ≡ opened version clock }
{
    if !may_be_first(clock) {
        return None;
    }
    Some(Draft::Opened {
        version,
        opening: Opening {
            first_clock: clock,
            peers: Peers::new(alloc),
            wires: Wires::new(alloc),
        },
        held: Held::new(alloc),
        len: LEAST_LEN,
    })
}

fn take_opening(
    alloc: Global,
    version: Version,
    opening: Opening,
    held: Held,
    len: usize,
    statement: Statement,
) -> Result<Option<Draft>, AllocError>
    ensures { IfOk result (λ next. next ≡ after_opening version opening held len statement) }
{
    match statement {
        Statement::Peer(peer) => take_peer(version, opening, held, len, peer),
        Statement::Wire(wire) => take_wire(version, opening, held, len, wire),
        Statement::Commands { peer } => Ok(take_first_list(alloc, version, opening, len, peer)),
        _ => Ok(None),
    }
}

/// Whether so many bytes more are not too many, in a script of so many peers.
pub(crate) fn has_room(peers: usize, len: usize, more: usize) -> bool
    ensures { result ≡ has_room peers len more }
{
    let most = most_len(peers);
    len <= most && more <= most - len
}

/// Whether a pool may have this size: a multiple of 8 from 8 to `MOST_POOL`.
fn may_be_pool(size: u32) -> bool
    ensures { result ≡ is_pool size }
{
    size % 8 == 0 && size >= 8 && size <= MOST_POOL
}

/// How many bytes pools can still have behind those of these peers.
pub(crate) fn pools_left(peers: &[PeerSpec]) -> u64
    ensures { result ≡ pools_left peers.now }
{
    let mut left = MOST_POOLS;
    for peer in peers {
        left = left.saturating_sub(peer.pool as u64);
    }
    left
}

/// Whether one more pool can have this size.
fn can_pool(peers: &[PeerSpec], pool: u32) -> bool
    ensures { result ≡ can_pool peers.now pool }
{
    may_be_pool(pool) && pool as u64 <= pools_left(peers)
}

fn can_peer(version: Version, opening: &Opening, peer: &PeerSpec) -> bool
    ensures { result ≡ can_peer version opening.now peer.now }
{
    opening.wires.len() == 0
        && opening.peers.len() < most_peers(version)
        && can_pool(opening.peers.as_slice(), peer.pool)
}

pub(crate) fn peer_len(opening: &Opening) -> usize
    ensures { result ≡ peer_len opening.now }
{
    if opening.peers.len() == 0 {
        0
    } else {
        PEER_LEN
    }
}

fn take_peer(
    version: Version,
    opening: Opening,
    held: Held,
    len: usize,
    peer: PeerSpec,
) -> Result<Option<Draft>, AllocError>
    ensures { IfOk result (λ next. next ≡ with_peer version opening held len peer) }
{
    let more = peer_len(&opening);
    if !can_peer(version, &opening, &peer) || !has_room(opening.peers.len() + 1, len, more) {
        return Ok(None);
    }
    let opening = Opening {
        peers: pushed(opening.peers, peer)?,
        ..opening
    };
    let len = len + more;
    Ok(Some(Draft::Opened {
        version,
        opening,
        held,
        len,
    }))
}

/// Whether a wire can be made among `peers` peers.
pub(crate) fn can_wire(peers: usize, held: &Held, wire: &Wire) -> bool
    ensures { result ≡ can_wire peers held.now wire.now }
{
    (wire.from as usize) < peers
        && (wire.to as usize) < peers
        && wire.to != wire.from
        && gives_another_owners(held, wire)
}

/// Whether a wire names a node that the other peer doesn't own.
fn gives_another_owners(held: &Held, wire: &Wire) -> bool
    ensures { result ≡ gives_foreign held.now wire.now }
{
    match held.from_owner(wire) {
        Some(given) => given.from != wire.to,
        None => false,
    }
}

fn take_wire(
    version: Version,
    opening: Opening,
    mut held: Held,
    len: usize,
    wire: Wire,
) -> Result<Option<Draft>, AllocError>
    ensures { IfOk result (λ next. next ≡ with_wire version opening held len wire) }
{
    let peers = opening.peers.len();
    if !can_wire(peers, &held, &wire) || !has_room(peers, len, WIRE_LEN) {
        return Ok(None);
    }
    held.add(&wire)?;
    let opening = Opening {
        wires: pushed(opening.wires, wire)?,
        ..opening
    };
    let len = len + WIRE_LEN;
    Ok(Some(Draft::Opened {
        version,
        opening,
        held,
        len,
    }))
}

fn take_first_list(
    alloc: Global,
    version: Version,
    opening: Opening,
    len: usize,
    peer: u32,
) -> Option<Draft>
    ensures { result ≡ with_first_list version opening len peer }
{
    if peer != 0 || opening.peers.len() == 0 {
        return None;
    }
    Some(Draft::Listing {
        version,
        opening,
        lists: EntryLists::new(alloc),
        list: Entries::new(alloc),
        len,
    })
}

fn take_lists(
    alloc: Global,
    version: Version,
    opening: Opening,
    lists: EntryLists,
    list: Entries,
    len: usize,
    statement: Statement,
) -> Result<Option<Draft>, AllocError>
    requires { Fits statement }
    ensures { IfOk result (λ next. next ≡ after_lists version opening lists list len statement) }
{
    match statement {
        Statement::Commands { peer } => {
            take_list(alloc, version, opening, lists, list, len, peer)
        }
        Statement::Command(entry) => take_command(version, opening, lists, list, len, entry),
        Statement::Turns(turns) => take_turns(alloc, version, opening, lists, list, len, turns),
        _ => Ok(None),
    }
}

fn take_list(
    alloc: Global,
    version: Version,
    opening: Opening,
    lists: EntryLists,
    list: Entries,
    len: usize,
    peer: u32,
) -> Result<Option<Draft>, AllocError>
    ensures { IfOk result (λ next. next ≡ with_list version opening lists list len peer) }
{
    let peer = peer as usize;
    if peer == 0 || lists.len() != peer - 1 || peer >= opening.peers.len() {
        return Ok(None);
    }
    Ok(Some(Draft::Listing {
        version,
        opening,
        lists: pushed(lists, list)?,
        list: Entries::new(alloc),
        len,
    }))
}

/// How many bytes a command's record has but for its cookie.
fn plain_len(command: &Command) -> usize
    requires { IsWithin2 command.now }
    ensures { result ≡ plain_len command.now }
{
    match command {
        Command::Disconnect | Command::Query | Command::Recv | Command::Await => 8,
        Command::Reset { .. } | Command::Limit { .. } => 24,
        Command::Release { .. } | Command::SliceRelease { .. } => 16,
        Command::Destroy { numbers } => 16 + 8 * numbers.len(),
        Command::Send(send) => {
            24 + 8 * send.to.len() + 8 * send.with.len() + (send.payload.len() + 7) / 8 * 8
        }
    }
}

/// How many bytes a command's record has.
#[tactic(auto, using(crate::proofs::Records::record_is, crate::proofs::Records::within_any))]
pub(crate) fn record_len(entry: &Entry) -> usize
    requires { IsCarried entry.now }
    ensures { result ≡ record_len entry.now }
{
    match entry.cookie {
        None => plain_len(&entry.command),
        Some(_) => plain_len(&entry.command) + COOKIE_LEN,
    }
}

/// Whether a command with this cookie, or with none, stands in a text of this version.
fn is_of(version: Version, cookie: Option<u64>) -> bool
    ensures { result ≡ is_of version cookie }
{
    match version {
        Version::One => cookie.is_none(),
        Version::Two => cookie.is_some(),
    }
}

fn take_command(
    version: Version,
    opening: Opening,
    lists: EntryLists,
    list: Entries,
    len: usize,
    entry: Entry,
) -> Result<Option<Draft>, AllocError>
    requires { IsCarried entry }
    ensures { IfOk result (λ next. next ≡ with_command version opening lists list len entry) }
{
    let more = record_len(&entry);
    if !is_of(version, entry.cookie) || !has_room(opening.peers.len(), len, more) {
        return Ok(None);
    }
    Ok(Some(Draft::Listing {
        version,
        opening,
        lists,
        list: pushed(list, entry)?,
        len: len + more,
    }))
}

/// Whether each turn is a peer's.
fn are_peers(turns: &[u32], peers: usize) -> bool
    ensures { result ≡ list_all (λ p. nat_lt p peers) turns.now }
{
    turns.iter().all(|p| (*p as usize) < peers)
}

fn can_turn(opening: &Opening, lists: usize, turns: &Turns) -> bool
    ensures { result ≡ can_turn opening.now lists turns.now }
{
    let peers = opening.peers.len();
    lists == peers && are_peers(turns.as_slice(), peers)
}

/// Whether so many turns are not too many bytes more, in a script of so many peers.
fn has_room_for_turns(peers: usize, len: usize, count: usize) -> bool
    ensures { result ≡ has_room peers len (turns_len count) }
{
    count <= MOST_SCRIPT && has_room(peers, len, 4 * (count + count % 2))
}

/// One peer's commands, and the cookies that are there.
fn split_list(alloc: Global, entries: Entries) -> Result<(Commands, Nums), AllocError>
    ensures commands { IfOk result (λ both. both.0 ≡ map (λ e. e.command) entries) }
    ensures cookies { IfOk result (λ both. both.1 ≡ filter_map (λ e. e.cookie) entries) }
{
    let mut commands = Vec::new(alloc);
    let mut cookies = Vec::new(alloc);
    for entry in entries.into_vec() {
        commands.push(entry.command)?;
        if let Some(cookie) = entry.cookie {
            cookies.push(cookie)?;
        }
    }
    Ok((Commands::from_vec(commands), Nums::from_vec(cookies)))
}

/// The commands of each peer, and the cookies that are there.
fn split_lists(alloc: Global, lists: EntryLists) -> Result<(CommandLists, CookieLists), AllocError>
    ensures commands { IfOk result (λ both. both.0 ≡ commands_said lists) }
    ensures cookies { IfOk result (λ both. both.1
        ≡ map (λ entries. filter_map (λ e. e.cookie) entries) lists) }
{
    let mut commands = Vec::new(alloc);
    let mut cookies = Vec::new(alloc);
    for entries in lists.into_vec() {
        let (list, own) = split_list(alloc, entries)?;
        commands.push(list)?;
        cookies.push(own)?;
    }
    Ok((
        CommandLists::from_vec(commands),
        CookieLists::from_vec(cookies),
    ))
}

/// The script of an opening, of each peer's commands, and of turns.
fn script(
    alloc: Global,
    version: Version,
    opening: Opening,
    lists: EntryLists,
    turns: Turns,
) -> Result<Script, AllocError>
    ensures { IfOk result (λ script. script ≡ script_said version opening lists turns) }
{
    let (commands, cookies) = split_lists(alloc, lists)?;
    Ok(Script {
        opening,
        commands,
        turns,
        cookies: match version {
            Version::One => None,
            Version::Two => Some(cookies),
        },
    })
}

fn take_turns(
    alloc: Global,
    version: Version,
    opening: Opening,
    lists: EntryLists,
    list: Entries,
    len: usize,
    turns: Turns,
) -> Result<Option<Draft>, AllocError>
    ensures { IfOk result (λ next. next ≡ with_turns version opening lists list len turns) }
{
    let lists = pushed(lists, list)?;
    let peers = opening.peers.len();
    if !can_turn(&opening, lists.len(), &turns) || !has_room_for_turns(peers, len, turns.len()) {
        return Ok(None);
    }
    let script = script(alloc, version, opening, lists, turns)?;
    Ok(Some(Draft::Whole(script)))
}
