ghost use Rattle.std.specs.Prelude.{◌≡◌, ◌+◌, ◌*◌, ◌-◌, ◌<◌, ◌≤◌, ◌^◌, ◌%◌, [], ◌∷◌, ◌++◌, length, max, if◌then◌else◌, OnOk, OnErr, vec_len};
ghost use Rattle.std.specs.Vec.{vec_capacity};
ghost use Rattle.b1_edge.specs.Ports.{with_call};
ghost use Rattle.b1_port_memory.specs.Memory.{is_send, next_stamp, sends_in, stamp_or_none};

use crate::forms::shown_stamp;
use b1_model::{Answer, Call, Command};
use std::alloc::{AllocError, Global};
use std::marker::Model;

/// A list of calls, with what is counted of it. The calls and `spare` together are below 2^25.
#[derive(Drop)]
pub(crate) struct Book {
    calls: Vec<Call>,
    /// How many of the calls are SENDs.
    sends: u64,
    /// The greatest stamp that the calls show, and 0 where none shows one.
    greatest: u64,
}

impl Model for Book {
    ghost use Rattle.std.specs.Prelude.{◌≡◌, ◌+◌, ◌*◌, ◌-◌, ◌<◌, ◌≤◌, ◌^◌, ◌%◌, length, vec_len};
    ghost use Rattle.std.specs.Vec.{vec_capacity};
    ghost use Rattle.b1_port_memory.specs.Memory.{Booked, greatest_stamp, sends_in};

    ghost Value = { Booked };

    ghost view = { λ b. record {
      calls = b.calls.items;
      spare = vec_capacity b.calls - vec_len b.calls;
    } };

    ghost invariant = { λ b. record {
      few : vec_capacity b.calls < 2 ^ 25;
      sends : b.sends ≡ sends_in b.calls.items;
      greatest : b.greatest ≡ greatest_stamp b.calls.items;
      even : b.greatest % 2 ≡ 0;
      low : b.greatest ≤ 2 ^ 62 + 2 * length b.calls.items;
    } };
}

impl Book {
    /// No calls and no spare. Takes no memory.
    pub(crate) fn make(alloc: Global) -> Book
        ensures { result ≡ record { calls = []; spare = 0 } }
    {
        Book {
            calls: Vec::new(alloc),
            sends: 0,
            greatest: 0,
        }
    }

    /// The calls.
    pub(crate) fn calls(&self) -> &[Call]
        ensures { result.now ≡ self.now.calls }
    {
        self.calls.as_slice()
    }

    /// How many more calls fit with no memory.
    pub(crate) fn spare(&self) -> usize
        ensures { result ≡ self.now.spare }
    {
        self.calls.capacity() - self.calls.len()
    }

    /// Makes room for at least `n` more calls. An error is want of memory, and leaves all as it was.
    pub(crate) fn reserve(&mut self, n: usize) -> Result<(), AllocError>
        requires few { length self.old.calls + n < 2 ^ 25 }
        ensures ok { OnOk result (self.new ≡ record self.old { spare = max self.old.spare n }) }
        ensures few { length self.new.calls + self.new.spare < 2 ^ 25 }
        ensures err { OnErr result (self.new ≡ self.old) }
    {
        self.calls.reserve_exact(n)
    }

    /// How many of the calls are SENDs.
    pub(crate) fn sends(&self) -> u64
        ensures { result ≡ sends_in self.now.calls }
    {
        self.sends
    }

    /// The stamp of the next send or destruction: two above all that the calls show, even.
    pub(crate) fn next_stamp(&self) -> u64
        ensures stamp { result ≡ next_stamp self.now.calls }
        ensures even { result % 2 ≡ 0 }
        ensures low { result ≤ 2 ^ 62 + 2 * (length self.now.calls + 1) }
    {
        self.greatest + 2
    }

    #[tactic(auto, using(crate::proofs::Counts::few_sends))]
    /// One more call, for which there is room. The stamp that it shows is even and not above `next_stamp`'s bound.
    pub(crate) fn add(&mut self, command: Command, answer: Answer)
        requires spare { 0 < self.old.spare }
        requires even { stamp_or_none answer % 2 ≡ 0 }
        requires low { stamp_or_none answer ≤ 2 ^ 62 + 2 * (length self.old.calls + 1) }
        ensures { self.new ≡ record {
          calls = with_call command answer self.old.calls;
          spare = self.old.spare - 1;
        } }
    {
        self.sends = counted(self.sends, &command);
        self.greatest = greater(self.greatest, &answer);
        put_last(&mut self.calls, Call { command, answer });
    }
}

/// Puts a call behind the others of a list that has room for it.
fn put_last(calls: &mut Vec<Call>, call: Call)
    requires { vec_len calls.old < vec_capacity calls.old }
    ensures items { calls.new.items ≡ calls.old.items ++ call ∷ [] }
    ensures len { vec_len calls.new ≡ vec_len calls.old + 1 }
    ensures capacity { vec_capacity calls.new ≡ vec_capacity calls.old }
{
    let end = calls.len();
    match calls.insert(end, call) {
        Ok(()) => {}
        Err(_) => unreachable!(),
    }
}

/// How many SENDs there are behind one more command.
fn counted(sends: u64, command: &Command) -> u64
    requires { sends < 2 ^ 64 - 1 }
    ensures { result ≡ sends + (if is_send command.now then 1 else 0) }
{
    match command {
        Command::Send(_) => sends + 1,
        _ => sends,
    }
}

/// The greater of a stamp and what an answer shows.
fn greater(greatest: u64, answer: &Answer) -> u64
    ensures { result ≡ max (stamp_or_none answer.now) greatest }
{
    match shown_stamp(answer) {
        Some(stamp) if stamp > greatest => stamp,
        _ => greatest,
    }
}
