ghost use Rattle.std.specs.Prelude.{◌≡◌, ℕ, ◌+◌, ◌<◌, ◌≤◌, ◌^◌, List, length, OnOk, OnErr, ⊤};
ghost use Rattle.std.specs.Borrow.{sem, follows_so};
ghost use mathlib.Core.Option.{none};
ghost use Rattle.b1_model.specs.declared.records.Call.{Call as OneCall};
ghost use Rattle.b1_model.specs.declared.commands.Command.TheVariants as command;
ghost use Rattle.b1_edge.specs.Ports.{Waits, Tries, with_call, sent_answer, received_answer, done_answer, destroyed_answer};

use b1_model::{Call, Nums, Reason, Receipt, Refused, SendCmd, Sent, Tried};
use std::alloc::AllocError;

/// One peer of a bus, as a service sees it.
///
/// Contracts see its calls in their order, how many more of them fit with no memory (`left`), and what its attempts found
/// that had to wait.
pub trait Port {
    ghost listed: { Self → List OneCall };

    ghost left: { Self → ℕ };

    ghost waits: { Self → Waits };

    /// The calls of this peer, in their order.
    fn calls(&self) -> &[Call]
        ensures { result.now ≡ listed self.now };

    /// How many more calls fit with no memory.
    fn spare(&self) -> usize
        ensures { result ≡ left self.now };

    /// Makes room for `n` more calls. The calls and `n` together are below 2^25. An error is want of memory, and leaves
    /// all as it was.
    fn reserve(&mut self, n: usize) -> Result<(), AllocError>
        requires few { length (listed self.old) + n < 2 ^ 25 }
        ensures calls { listed self.new ≡ listed self.old }
        ensures waits { waits self.new ≡ waits self.old }
        ensures enough { OnOk result (n ≤ left self.new) }
        ensures few { OnOk result (length (listed self.new) + left self.new < 2 ^ 25) }
        ensures err { OnErr result (left self.new ≡ left self.old) };

    /// SEND: the message's stamp and what each destination answered, or why it is refused.
    fn send(&mut self, cmd: SendCmd) -> Result<Sent, Refused>
        requires spare { 0 < left self.old }
        ensures call { listed self.new ≡ with_call (command.Send cmd) (sent_answer result) (listed self.old) }
        ensures spare { left self.new + 1 ≡ left self.old }
        ensures waits { waits self.new ≡ waits self.old };

    /// RECV: the front of the queue, which is taken, or why it is refused.
    fn recv(&mut self) -> Result<&Receipt, Reason>
        requires spare { 0 < left self.old }
        ensures* call { sem 𝓛 (follows_so Self.row Self.row self.entry.ghost_name none (λ _ _. ⊤) (λ n.
            (listed n ≡ with_call command.Recv (received_answer result) (listed self.old))
            × (left n + 1 ≡ left self.old) × (waits n ≡ waits self.old))) };

    /// Tries RECV: a receipt or a shut peer is one more call; where the front is absent or staged it waits, and leaves
    /// the calls and the spare as they were.
    fn attempt(&mut self) -> Tried
        requires spare { 0 < left self.old }
        ensures { Tries result (listed self.old) (left self.old) (waits self.old)
            (listed self.new) (left self.new) (waits self.new) };

    /// HANDLE_RELEASE of a given number.
    fn release(&mut self, number: u64) -> Result<(), Reason>
        requires spare { 0 < left self.old }
        ensures call { listed self.new ≡ with_call (command.Release number) (done_answer result) (listed self.old) }
        ensures spare { left self.new + 1 ≡ left self.old }
        ensures waits { waits self.new ≡ waits self.old };

    /// NODES_DESTROY of own numbers: the destruction's stamp, even.
    fn destroy(&mut self, numbers: Nums) -> Result<u64, Reason>
        requires spare { 0 < left self.old }
        ensures call { listed self.new ≡ with_call (command.Destroy numbers) (destroyed_answer result) (listed self.old) }
        ensures spare { left self.new + 1 ≡ left self.old }
        ensures waits { waits self.new ≡ waits self.old };

    /// SLICE_RELEASE of a received slice, by its offset.
    fn slice_release(&mut self, offset: u64) -> Result<(), Reason>
        requires spare { 0 < left self.old }
        ensures call { listed self.new ≡ with_call (command.SliceRelease offset) (done_answer result) (listed self.old) }
        ensures spare { left self.new + 1 ≡ left self.old }
        ensures waits { waits self.new ≡ waits self.old };
}
