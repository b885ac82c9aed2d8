ghost use Rattle.std.specs.Prelude.{◌≡◌, ◌==◌, ◌||◌, ◌<◌, ℕ, [], drop, length, slice_get, IfSome};
ghost use Rattle.std.specs.List.{list_any};
ghost use Rattle.b1_model.specs.MachineTables.{with_peer};
ghost use Rattle.b1_model.specs.Peers.{has_peer, peers_below};

use crate::limits::MOST_PEERS;
use std::marker::Model;

// How many peers one word has a bit for.
const WORD: u32 = 64;

// How many words there are.
const WORDS: usize = 16;

/// A set of peers that a bus can have, each below `MOST_PEERS`. Contracts see it as a list in rising order. It takes no memory.
#[derive(Debug, Drop)]
pub struct PeerSet {
    words: [u64; WORDS],
}

impl Model for PeerSet {
    ghost use Rattle.std.specs.Prelude.{ℕ, List};
    ghost use Rattle.b1_model.specs.declared.limits.TheConstants.{MOST_PEERS};
    ghost use Rattle.b1_model.specs.Peers.{peers_below};

    ghost Value = { List ℕ };

    ghost view = { λ s. peers_below MOST_PEERS s.words };
}

impl PeerSet {
    /// No peers.
    pub fn new() -> Self
        ensures { result ≡ [] }
    {
        PeerSet { words: [0; WORDS] }
    }

    /// Adds a peer; one that is there stays.
    pub fn insert(&mut self, peer: u32)
        requires { peer < MOST_PEERS }
        ensures peers { self.new ≡ with_peer peer self.old }
        ensures members { (q : ℕ) → list_any (λ p. p == q) self.new
            ≡ ((peer == q) || list_any (λ p. p == q) self.old) }
    {
        self.words[(peer / WORD) as usize] |= 1 << (peer % WORD);
    }

    /// Whether a peer is there.
    pub fn contains(&self, peer: u32) -> bool
        ensures { result ≡ list_any (λ q. q == peer) self.now }
    {
        has_peer(&self.words, peer)
    }

    /// How many peers there are.
    pub fn len(&self) -> usize
        ensures { result ≡ length self.now }
    {
        let mut count = 0;
        for peer in 0..MOST_PEERS as u32 {
            if has_peer(&self.words, peer) {
                count += 1;
            }
        }
        count
    }

    /// Whether there is no peer.
    pub fn is_empty(&self) -> bool
        ensures { result ≡ (length self.now == 0) }
    {
        self.len() == 0
    }

    /// The peer at an index, counted from 0 by rising numbers; `None` past the end.
    pub fn get(&self, index: usize) -> Option<u32>
        ensures { result ≡ slice_get self.now index }
    {
        let mut left = index;
        for peer in 0..MOST_PEERS as u32 {
            if has_peer(&self.words, peer) {
                if left == 0 {
                    return Some(peer);
                }
                left -= 1;
            }
        }
        None
    }

    /// The least peer; `None` where there is none.
    pub fn first(&self) -> Option<u32>
        ensures { result ≡ slice_get self.now 0 }
    {
        self.get(0)
    }

    /// Removes the least peer, and answers it; `None` where there is none.
    pub fn take_first(&mut self) -> Option<u32>
        ensures first { result ≡ slice_get self.old 0 }
        ensures rest { self.new ≡ drop 1 self.old }
        ensures few { IfSome result (λ peer. peer < MOST_PEERS) }
    {
        let first = self.first()?;
        self.words[(first / WORD) as usize] &= !(1 << (first % WORD));
        Some(first)
    }
}

// Whether a peer's bit is set.
fn has_peer(words: &[u64], peer: u32) -> bool
    ensures { result ≡ has_peer words.now peer }
{
    match words.get((peer / WORD) as usize) {
        Some(word) => word >> (peer % WORD) & 1 == 1,
        None => false,
    }
}
