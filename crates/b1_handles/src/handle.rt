ghost use Rattle.std.specs.Prelude.{◌≡◌, ◌<◌, ◌-◌, ◌^◌, ◌==◌, true, nat_lt, is_some, unwrap_or};
ghost use Rattle.b1_model.specs.MachineParts.{no_record};
ghost use Rattle.b1_model.specs.MachineTables.{is_needed as is_needed_record, more_flight as with_more_flight, less_flight as with_less_flight, more_held, less_held, noticed, made_dead};

use b1_model::NodeRef;
use std::marker::Model;

/// The number under which a node is held, and whether it is new.
#[derive(Clone, Copy)]
pub struct Held {
    pub number: u64,
    pub is_new: bool,
}

/// A record of another peer's node.
#[derive(Debug, Drop)]
pub struct Handle {
    node: NodeRef,
    number: Option<u64>,
    held: u64,
    flight: u64,
    dead: bool,
    notice: bool,
}

impl Model for Handle {
    ghost use Rattle.std.specs.Prelude.{◌≡◌, is_some, nat_lt};
    ghost use Rattle.b1_model.specs.MachineParts.{HandleRecord};

    ghost Value = { HandleRecord };

    ghost view = { λ h. record {
      node = h.node;
      number = h.number;
      held = h.held;
      flight = h.flight;
      dead = h.dead;
      notice = h.notice;
    } };

    ghost invariant = { λ h. is_some h.number ≡ nat_lt 0 h.held };
}

impl Handle {
    /// A record of a node that isn't held, carried or destroyed.
    pub fn new(node: NodeRef) -> Self
        ensures { result ≡ no_record node }
    {
        Handle {
            node,
            number: None,
            held: 0,
            flight: 0,
            dead: false,
            notice: false,
        }
    }

    /// The node.
    pub fn node(&self) -> NodeRef
        ensures { result ≡ self.now.node }
    {
        self.node
    }

    /// The number under which the node is held; `None` where it isn't.
    pub fn number(&self) -> Option<u64>
        ensures number { result ≡ self.now.number }
        ensures held { is_some result ≡ nat_lt 0 self.now.held }
    {
        self.number
    }

    /// How often the node is held.
    pub fn held(&self) -> u64
        ensures { result ≡ self.now.held }
    {
        self.held
    }

    /// How many queued slots carry the node.
    pub fn flight(&self) -> u64
        ensures { result ≡ self.now.flight }
    {
        self.flight
    }

    /// Whether the node's destroy notice has left the queue.
    pub fn is_dead(&self) -> bool
        ensures { result ≡ self.now.dead }
    {
        self.dead
    }

    /// Whether the node's destroy notice is queued.
    pub fn has_notice(&self) -> bool
        ensures { result ≡ self.now.notice }
    {
        self.notice
    }

    /// Whether the record is kept: while the node is held, carried or has a notice queued.
    pub fn is_needed(&self) -> bool
        ensures { result ≡ is_needed_record self.now }
    {
        self.held > 0 || self.flight > 0 || self.notice
    }

    /// One more queued slot carries the node.
    pub fn more_flight(&mut self)
        requires { self.old.flight < 2 ^ 64 - 1 }
        ensures { self.new ≡ with_more_flight self.old }
    {
        self.flight += 1;
    }

    /// One fewer queued slot carries the node.
    pub fn less_flight(&mut self)
        requires { 0 < self.old.flight }
        ensures { self.new ≡ with_less_flight self.old }
    {
        self.flight -= 1;
    }

    /// The node is held once more, under `number` where it wasn't held.
    pub fn hold(&mut self, number: u64) -> Held
        requires { self.old.held < 2 ^ 63 }
        ensures number { result.number ≡ unwrap_or self.old.number number }
        ensures is_new { result.is_new ≡ (self.old.held == 0) }
        ensures held { self.new ≡ more_held number self.old }
    {
        let is_new = self.held == 0;
        let number = match self.number {
            Some(number) => number,
            None => number,
        };
        self.number = Some(number);
        self.held += 1;
        Held { number, is_new }
    }

    /// A slot that carries the node arrives: one fewer carries it, and it is held once more.
    pub fn gain(&mut self, number: u64) -> Held
        requires carried { 0 < self.old.flight }
        requires fits { self.old.held < 2 ^ 63 }
        ensures number { result.number ≡ unwrap_or self.old.number number }
        ensures is_new { result.is_new ≡ (self.old.held == 0) }
        ensures gained { self.new ≡ more_held number (with_less_flight self.old) }
    {
        self.less_flight();
        self.hold(number)
    }

    /// The node is held once less, and its number ends with the last.
    pub fn release(&mut self)
        requires { is_some self.old.number ≡ true }
        ensures { self.new ≡ less_held self.old }
    {
        self.held -= 1;
        if self.held == 0 {
            self.number = None;
        }
    }

    /// The node's destroy notice is queued.
    pub fn notify(&mut self)
        ensures { self.new ≡ noticed self.old }
    {
        self.notice = true;
    }

    /// The node's destroy notice has left the queue.
    pub fn kill(&mut self)
        ensures { self.new ≡ made_dead self.old }
    {
        self.notice = false;
        self.dead = true;
    }
}
