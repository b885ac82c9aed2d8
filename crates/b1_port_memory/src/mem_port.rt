ghost use Rattle.std.specs.Prelude.{◌≡◌, ◌+◌, ◌-◌, ◌<◌, ◌^◌, ◌%◌, [], All, length, max, IfOk, IsOk, OnOk, OnErr, ⊤};
ghost use Rattle.std.specs.Borrow.{sem, follows_so};
ghost use mathlib.Core.Option.{none};
ghost use Rattle.b1_model.specs.declared.commands.Command.TheVariants as command;
ghost use Rattle.b1_edge.specs.Ports.{destroyed_answer, done_answer};
ghost use Rattle.b1_port_memory.specs.Memory.{Attempts, HasEvenStamp, Receives, Releases, Sends, after, destroy_answer, waits_of};
ghost use Rattle.b1_port_memory.specs.contracts.mem_port.MemPort.{the_row};

use crate::book::Book;
use crate::forms::is_bad_list;
use crate::steps::{answer_send, last_received, refuse, take};
use b1_model::{
    Answer, Call, Command, Front, Nums, Reason, Receipt, Refused, SendCmd, Sent, Tried,
};
use std::alloc::{AllocError, Global};
use std::collections::VecDeque;
use std::marker::Model;

/// A peer of no bus. It gives the receipts that it was made with, in their order; refuses for want of memory the sends
/// that it was told to refuse, by their numbers, counted from 0; and accepts each place of any other send. It is never
/// shut.
///
/// Contracts see its calls, how many more fit with no memory (`spare`), what its attempts found, the receipts to come,
/// and the numbers of the sends that it refuses. The calls and `spare` together are below 2^25.
#[derive(Drop)]
pub struct MemPort {
    book: Book,
    gives: VecDeque<Receipt>,
    fails: Vec<u64>,
    /// How many attempts had to wait, up to 2^64 - 1.
    waiting: u64,
    alloc: Global,
}

impl Model for MemPort {
    ghost use Rattle.std.specs.Prelude.{All};
    ghost use Rattle.b1_port_memory.specs.Memory.{HasEvenStamp, MemoryFace, waits_of};

    ghost Value = { MemoryFace };

    ghost view = { λ m. record {
      calls = m.book.calls;
      spare = m.book.spare;
      waits = waits_of m.waiting;
      gives = m.gives.items;
      fails = m.fails.items;
    } };

    ghost invariant = { λ m. All HasEvenStamp m.gives.items };
}

impl MemPort {
    /// A port with no call and no spare. The stamps of the receipts are even and below 2^62. Takes no memory.
    pub fn make(alloc: Global, gives: Vec<Receipt>, fails: Vec<u64>) -> MemPort
        requires stamps { All HasEvenStamp gives.items }
        ensures { result ≡ record {
          calls = [];
          spare = 0;
          waits = waits_of 0;
          gives = gives.items;
          fails = fails.items;
        } }
    {
        MemPort {
            book: Book::make(alloc),
            gives: VecDeque::from(gives),
            fails,
            waiting: 0,
            alloc,
        }
    }

    /// The calls, in their order.
    pub fn calls(&self) -> &[Call]
        ensures { result.now ≡ self.now.calls }
    {
        self.book.calls()
    }

    /// How many more calls fit with no memory.
    pub fn spare(&self) -> usize
        ensures { result ≡ self.now.spare }
    {
        self.book.spare()
    }

    /// Makes room for at least `n` more calls; the calls and `n` together are below 2^25. An error is want of memory, and
    /// leaves all as it was.
    pub fn reserve(&mut self, n: usize) -> Result<(), AllocError>
        requires few { length self.old.calls + n < 2 ^ 25 }
        ensures ok { OnOk result (self.new ≡ record self.old { spare = max self.old.spare n }) }
        ensures few { length self.new.calls + self.new.spare < 2 ^ 25 }
        ensures err { OnErr result (self.new ≡ self.old) }
    {
        self.book.reserve(n)
    }

    /// SEND: refused by its form first, then where its number is one of those to be refused, and else accepted at each
    /// place. It may also be refused for want of memory.
    pub fn send(&mut self, cmd: SendCmd) -> Result<Sent, Refused>
        requires spare { 0 < self.old.spare }
        ensures sends { Sends self.old cmd result self.new }
        ensures even { IfOk result (λ sent. sent.stamp % 2 ≡ 0) }
    {
        let (told, kept) = match answer_send(&self.book, &self.fails, self.alloc, &cmd) {
            Ok((told, kept)) => (Ok(told), Answer::Sent(kept)),
            Err(refused) => (Err(refused), Answer::Refused(refused)),
        };
        self.book.add(Command::Send(cmd), kept);
        told
    }

    /// RECV: the next receipt; Again with an absent front where none is left. Takes no memory.
    pub fn recv(&mut self) -> Result<&Receipt, Reason>
        requires spare { 0 < self.old.spare }
        ensures* call { sem 𝓛 (follows_so the_row the_row self.entry.ghost_name none (λ _ _. ⊤)
            (Receives self.old result)) }
    {
        take(&mut self.book, &mut self.gives);
        last_received(self.book.calls())
    }

    /// Tries RECV: the next receipt is one more call; where none is left it waits. Takes no memory.
    pub fn attempt(&mut self) -> Tried
        requires spare { 0 < self.old.spare }
        ensures { Attempts self.old result self.new }
    {
        if self.gives.is_empty() {
            self.waiting = self.waiting.saturating_add(1);
            return Tried::Waiting {
                front: Front::Absent,
                removed: 0,
            };
        }
        take(&mut self.book, &mut self.gives);
        Tried::Got
    }

    /// HANDLE_RELEASE: Invalid where it is no given number by its form. Takes no memory.
    pub fn release(&mut self, number: u64) -> Result<(), Reason>
        requires spare { 0 < self.old.spare }
        ensures answer { Releases number result }
        ensures call { self.new ≡ after self.old (command.Release number) (done_answer result) }
    {
        if number % 4 != 2 {
            refuse(&mut self.book, Command::Release { number }, Reason::Invalid);
            return Err(Reason::Invalid);
        }
        self.book.add(Command::Release { number }, Answer::Done);
        Ok(())
    }

    /// NODES_DESTROY: a stamp two above all that the calls show, even; Invalid by the form of the list. Takes no memory.
    pub fn destroy(&mut self, numbers: Nums) -> Result<u64, Reason>
        requires spare { 0 < self.old.spare }
        ensures answer { result ≡ destroy_answer self.old.calls numbers }
        ensures call { self.new
            ≡ after self.old (command.Destroy numbers) (destroyed_answer result) }
        ensures even { IfOk result (λ stamp. stamp % 2 ≡ 0) }
    {
        if is_bad_list(numbers.as_slice()) {
            refuse(
                &mut self.book,
                Command::Destroy { numbers },
                Reason::Invalid,
            );
            return Err(Reason::Invalid);
        }
        let stamp = self.book.next_stamp();
        self.book
            .add(Command::Destroy { numbers }, Answer::Destroyed { stamp });
        Ok(stamp)
    }

    /// SLICE_RELEASE: accepted at any offset. Takes no memory.
    pub fn slice_release(&mut self, offset: u64) -> Result<(), Reason>
        requires spare { 0 < self.old.spare }
        ensures answer { IsOk result }
        ensures call { self.new ≡ after self.old (command.SliceRelease offset) (done_answer result) }
    {
        self.book
            .add(Command::SliceRelease { offset }, Answer::Done);
        Ok(())
    }
}
