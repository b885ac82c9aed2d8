ghost use Rattle.std.specs.Prelude.{◌≡◌, ℕ, map, Some, None};
ghost use Rattle.b1_model.specs.declared.naming.Opening.{Opening};
ghost use Rattle.b1_model.specs.declared.commands.SendCmd.{SendCmd};
ghost use Rattle.b1_model.specs.declared.answers.Sent.{Sent};
ghost use Rattle.b1_model.specs.declared.answers.Receipt.{Receipt};
ghost use Rattle.b1_model.specs.declared.answers.Answer.TheVariants as ans;
ghost use Rattle.b1_model.specs.declared.records.Call.{Call};
ghost use Rattle.b1_model.specs.declared.records.Record.{Record};
ghost use Rattle.b1_model.specs.Ledger.{stamp_of, got_key, node_of};
ghost use Rattle.b1_model.specs.Legal.{IsNextReceipt, IsWhatWasSent, Legal};
ghost use Rattle.b1_ledger.specs.Growth.{Appends, calls_len, sent_call, destroy_stamp, IsNewStamp, IsAboveReceipts, next_destruction, DestroysAbove};

/// A record stays legal under a call without a stamp that receives nothing but a release notice: a release, a query, a
/// reset or disconnect that destroys no node, and any refused call, also one whose begin made nodes.
pub fn plain_call_keeps_legal()
    ensures { (o : Opening) (r t : Record) (p : ℕ) (c : Call) → Legal o r → Appends r t p c
        → stamp_of c.answer ≡ None → got_key c.answer ≡ None → Legal o t }
{}

/// A record stays legal under a receipt that is the next entry, with its contents, by the record before it.
pub fn receipt_keeps_legal()
    ensures { (o : Opening) (r t : Record) (p : ℕ) (c : Call) (b : Receipt) → Legal o r
        → Appends r t p c → c.answer ≡ ans.Got b
        → IsNextReceipt o.wires r p (calls_len r p) (ans.Got b)
        → IsWhatWasSent o.wires r p (calls_len r p) (ans.Got b) → Legal o t }
{}

/// A record stays legal under a send with a new stamp that is above all that the owners of its accepted destinations
/// have received in the nodes' epochs.
pub fn send_keeps_legal()
    ensures { (o : Opening) (r t : Record) (p : ℕ) (s : SendCmd) (b : Sent) → Legal o r
        → Appends r t p (sent_call s b) → IsNewStamp r p b.stamp
        → IsAboveReceipts r (map (node_of o.wires t p (calls_len r p)) s.to) b → Legal o t }
{}

/// A record stays legal under a destruction with a new stamp that is above all that the owners and holders of its
/// nodes have received, and above each received message that names one of them and had it live.
pub fn destruction_keeps_legal()
    ensures { (o : Opening) (r t : Record) (p : ℕ) (c : Call) (stamp : ℕ) → Legal o r
        → Appends r t p c → destroy_stamp c.answer ≡ Some stamp → IsNewStamp r p stamp
        → DestroysAbove o r (next_destruction o r t p c) stamp → Legal o t }
{}
