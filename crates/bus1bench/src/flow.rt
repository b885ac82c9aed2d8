ghost use Rattle.b1_locks.specs.Faces.{IsOf};
ghost use Rattle.b1_crew.specs.Parts.{IsStill};

use b1_bus::{Bus, Driver};
use b1_crew::{Part, has_room};
use b1_edge::Gate;
use b1_model::{Answer, Bytes, Nums, Receipt, SendCmd, Tried};
use std::alloc::{AllocError, Global};
use std::sync::Wait;
use std::sync::atomic::{AtomicBool, AtomicU64, Ordering};
use std::thread;

// The numbers by which a sender knows its recipients.
const NUMBERS: [u64; 8] = [2, 6, 10, 14, 18, 22, 26, 30];

// How many messages a sender is ahead of its recipients at most.
const WINDOW: u64 = 64;

// What each message carries.
const PAYLOAD: [u8; 8] = *b"8 bytes.";

/// Who sends to whom.
#[derive(Clone, Copy, Debug)]
pub enum Shape {
    /// So many pairs: 0 sends to 1, 2 to 3, and so on.
    Pairs(u8),
    /// Peer 0 sends each message to the eight peers behind it.
    Multicast,
}

/// What a peer does.
#[derive(Clone, Copy, Debug)]
enum Role {
    Sends,
    Receives,
    StandsIdle,
}

/// Messages that drivers send and receive beside each other.
#[derive(Drop)]
pub struct Flow {
    shape: Shape,
    messages: u64,
    done: Vec<AtomicU64>,
    failed: AtomicBool,
}

impl Flow {
    /// So many messages of each sender, among so many peers. An error is want of memory.
    pub fn new(alloc: Global, shape: Shape, messages: u32, peers: u32) -> Result<Flow, AllocError> {
        let mut done = Vec::new(alloc);
        for _ in 0..peers {
            done.push(AtomicU64::new(0))?;
        }
        Ok(Flow {
            shape,
            messages: messages as u64,
            done,
            failed: AtomicBool::new(false),
        })
    }

    /// Whether some driver has given up, for want of memory or room.
    pub fn has_failed(&self) -> bool {
        self.failed.load(Ordering::SeqCst)
    }

    // A driver gives up.
    fn fail(&self) {
        self.failed.store(true, Ordering::SeqCst);
    }

    // How many messages a peer has sent or received.
    fn done_by(&self, peer: usize) -> u64 {
        match self.done.get(peer) {
            Some(count) => count.load(Ordering::SeqCst),
            None => 0,
        }
    }

    // A peer tells how many messages it has sent or received.
    fn tell(&self, peer: usize, count: u64) {
        if let Some(done) = self.done.get(peer) {
            done.store(count, Ordering::SeqCst);
        }
    }

    // Whether a sender that has sent so many is as far ahead of a recipient as it may be.
    fn is_ahead(&self, peer: usize, sent: u64) -> bool {
        let recipients = match self.shape {
            Shape::Pairs(_) => 1,
            Shape::Multicast => NUMBERS.len(),
        };
        (1..=recipients).any(|step| sent
            >= self
                .done_by(peer.saturating_add(step))
                .saturating_add(WINDOW))
    }

    // Whether a recipient that has received so many has been sent more.
    fn has_more(&self, peer: usize, received: u64) -> bool {
        let sender = match self.shape {
            Shape::Pairs(_) => peer.saturating_sub(1),
            Shape::Multicast => 0,
        };
        received < self.done_by(sender)
    }

    // What a peer does.
    fn role(&self, peer: usize) -> Role {
        match self.shape {
            Shape::Pairs(pairs) if peer / 2 >= pairs as usize => Role::StandsIdle,
            Shape::Pairs(_) if peer % 2 == 0 => Role::Sends,
            Shape::Pairs(_) => Role::Receives,
            Shape::Multicast if peer == 0 => Role::Sends,
            Shape::Multicast => Role::Receives,
        }
    }

    // The message that is sent.
    fn message(&self, alloc: Global) -> Result<SendCmd, AllocError> {
        let count = match self.shape {
            Shape::Pairs(_) => 1,
            Shape::Multicast => NUMBERS.len(),
        };
        Ok(SendCmd {
            go_on: false,
            to: Nums::from_slice(alloc, &NUMBERS[..count])?,
            with: Nums::new(alloc),
            payload: Bytes::from_slice(alloc, &PAYLOAD)?,
        })
    }

    // Sends one message, and says whether it was accepted.
    fn send_one<R: Wait, G: Gate>(
        &self,
        rt: &R,
        alloc: Global,
        bus: &Bus,
        gate: &G,
        driver: &mut Driver,
    ) -> bool
        requires { IsOf driver.old bus.now }
        ensures own { IsOf driver.new bus.now }
        ensures still { IsStill driver.old driver.new }
    {
        if driver.spare() == 0 {
            return false;
        }
        match self.message(alloc) {
            Ok(cmd) => driver.send(rt, alloc, bus, gate, cmd).is_ok(),
            Err(_) => false,
        }
    }

    // Sends all messages.
    fn send_all<R: Wait, G: Gate>(
        &self,
        rt: &R,
        alloc: Global,
        bus: &Bus,
        gate: &G,
        peer: usize,
        driver: &mut Driver,
    )
        requires { IsOf driver.old bus.now }
        ensures own { IsOf driver.new bus.now }
        ensures still { IsStill driver.old driver.new }
    {
        let mut sent = 0;
        for _ in rt.forever() {
            if sent >= self.messages || self.has_failed() {
                return;
            }
            if self.is_ahead(peer, sent) {
                thread::yield_now();
            } else if self.send_one(rt, alloc, bus, gate, driver) {
                sent += 1;
                self.tell(peer, sent);
            } else {
                self.fail();
            }
        }
    }

    // Receives until all messages are here.
    fn receive_all<R: Wait, G: Gate>(
        &self,
        rt: &R,
        bus: &Bus,
        gate: &G,
        peer: usize,
        driver: &mut Driver,
    )
        requires { IsOf driver.old bus.now }
        ensures own { IsOf driver.new bus.now }
        ensures still { IsStill driver.old driver.new }
    {
        let mut count = 0;
        for _ in rt.forever() {
            if count >= self.messages || self.has_failed() {
                return;
            }
            if !self.has_more(peer, count) {
                thread::yield_now();
            } else if driver.spare() < 2 {
                self.fail();
            } else if receive_one(rt, bus, gate, driver) {
                count += 1;
                self.tell(peer, count);
            } else {
                thread::yield_now();
            }
        }
    }
}

// Takes a message if there is one, gives its slice back, and says whether there was one.
fn receive_one<R: Wait, G: Gate>(rt: &R, bus: &Bus, gate: &G, driver: &mut Driver) -> bool
    requires { IsOf driver.old bus.now }
    ensures own { IsOf driver.new bus.now }
    ensures still { IsStill driver.old driver.new }
{
    if driver.spare() == 0 || !matches!(driver.attempt(rt, bus, gate), Tried::Got) {
        return false;
    }
    give_back(rt, bus, gate, driver);
    true
}

// Gives back the slice of the message that was received last.
fn give_back<R: Wait, G: Gate>(rt: &R, bus: &Bus, gate: &G, driver: &mut Driver)
    requires { IsOf driver.old bus.now }
    ensures own { IsOf driver.new bus.now }
    ensures still { IsStill driver.old driver.new }
{
    if driver.spare() == 0 {
        return;
    }
    if let Some(offset) = last_offset(driver) {
        let _ = driver.slice_release(rt, bus, gate, offset);
    }
}

// Where the slice of the last call's message begins.
fn last_offset(driver: &Driver) -> Option<u64> {
    match &driver.calls().last()?.answer {
        Answer::Got(receipt) => match receipt {
            Receipt::Message { offset, .. } => Some(*offset as u64),
            _ => None,
        },
        _ => None,
    }
}

impl Part for Flow {
    fn play<R: Wait, G: Gate>(
        &self,
        rt: &R,
        alloc: Global,
        bus: &Bus,
        gate: &G,
        peer: usize,
        driver: &mut Driver,
    ) {
        match self.role(peer) {
            Role::Sends => self.send_all(rt, alloc, bus, gate, peer, driver),
            Role::Receives => self.receive_all(rt, bus, gate, peer, driver),
            Role::StandsIdle => {}
        }
    }
}

/// Each driver makes room for so many calls, 2,000,000 at most.
#[derive(Clone, Copy)]
pub struct MakeRoom {
    /// How many.
    pub calls: usize,
}

impl Part for MakeRoom {
    fn play<R: Wait, G: Gate>(
        &self,
        _rt: &R,
        _alloc: Global,
        _bus: &Bus,
        _gate: &G,
        _peer: usize,
        driver: &mut Driver,
    ) {
        if self.calls <= 2_000_000 && driver.calls().is_empty() {
            let _ = has_room(driver, self.calls);
        }
    }
}
