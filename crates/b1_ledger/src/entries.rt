ghost use Rattle.std.specs.Prelude.{◌≡◌, ◌≢◌, ◌⊎◌, ℕ, suc, ◌≤◌, true, ◌&&◌, List, map, slice_get, Some, None};
ghost use Rattle.b1_model.specs.declared.naming.Key.{Key};
ghost use Rattle.b1_model.specs.declared.naming.Wire.{Wire};
ghost use Rattle.b1_model.specs.declared.naming.Opening.{Opening};
ghost use Rattle.b1_model.specs.declared.commands.SendCmd.{SendCmd};
ghost use Rattle.b1_model.specs.declared.commands.Command.TheVariants as cmd;
ghost use Rattle.b1_model.specs.declared.answers.Sent.{Sent};
ghost use Rattle.b1_model.specs.declared.answers.Receipt.TheVariants as rec;
ghost use Rattle.b1_model.specs.declared.answers.Answer.TheVariants as ans;
ghost use Rattle.b1_model.specs.declared.records.Call.{Call};
ghost use Rattle.b1_model.specs.declared.records.Record.{Record};
ghost use Rattle.b1_model.specs.Names.{Node, calls_of, epoch_at};
ghost use Rattle.b1_model.specs.Ledger.{stamp_of, got_key, is_before, is_below, has_node, is_destroyed_in, slots, node_of, message, doomed_at, is_late};
ghost use Rattle.b1_model.specs.Legal.{last_key, is_above, is_message, is_notice, is_notice_of, is_candidate, Legal};
ghost use Rattle.b1_ledger.specs.Growth.{Appends, calls_len, sent_call, destroy_stamp, IsNewStamp, GoesTo, next_destruction, is_quiet};

/// A call without a stamp leaves at each earlier call of each peer, and at the end of each list, what may be received.
pub fn plain_call_adds_no_entry()
    ensures messages { (o : Opening) (r t : Record) (p : ℕ) (c : Call) (q k : ℕ) (key : Key)
        → Legal o r → Appends r t p c → stamp_of c.answer ≡ None → k ≤ calls_len r q
        → is_message o.wires t q k key ≡ is_message o.wires r q k key }
    ensures notices { (o : Opening) (r t : Record) (p : ℕ) (c : Call) (q k : ℕ) (key : Key)
        → Legal o r → Appends r t p c → stamp_of c.answer ≡ None → k ≤ calls_len r q
        → is_notice o.wires t q k key ≡ is_notice o.wires r q k key }
    ensures candidates { (o : Opening) (r t : Record) (p : ℕ) (c : Call) (q k : ℕ) (key : Key)
        → Legal o r → Appends r t p c → stamp_of c.answer ≡ None → k ≤ calls_len r q
        → is_candidate o.wires t q k key ≡ is_candidate o.wires r q k key }
    ensures late { (o : Opening) (r t : Record) (p : ℕ) (c : Call) (x : Node) (key : Key)
        → Legal o r → Appends r t p c → stamp_of c.answer ≡ None
        → is_late o.wires t x key ≡ is_late o.wires r x key }
{}

/// A send adds to what may be received at most its own accepted places, at their nodes' owners in the nodes' epochs.
pub fn send_adds_messages()
    ensures notices { (o : Opening) (r t : Record) (p : ℕ) (s : SendCmd) (b : Sent) (q k : ℕ)
        (key : Key) → Legal o r → Appends r t p (sent_call s b) → k ≤ calls_len r q
        → is_notice o.wires t q k key ≡ is_notice o.wires r q k key }
    ensures others { (o : Opening) (r t : Record) (p : ℕ) (s : SendCmd) (b : Sent) (q k : ℕ)
        (key : Key) → Legal o r → Appends r t p (sent_call s b) → k ≤ calls_len r q
        → (key.stamp ≡ b.stamp → key.origin ≢ p)
        → is_candidate o.wires t q k key ≡ is_candidate o.wires r q k key }
    ensures own { (o : Opening) (r t : Record) (p : ℕ) (s : SendCmd) (b : Sent) (q k : ℕ)
        (key : Key) → Legal o r → Appends r t p (sent_call s b) → IsNewStamp r p b.stamp
        → k ≤ calls_len r q → key.stamp ≡ b.stamp → key.origin ≡ p
        → is_message o.wires t q k key ≡ true
        → (x : Node) × GoesTo (map (node_of o.wires t p (calls_len r p)) s.to) b key.index x
        × (x.owner ≡ q) × (x.epoch ≡ epoch_at r q k) }
    ensures message { (o : Opening) (r t : Record) (p : ℕ) (s : SendCmd) (b : Sent) → Legal o r
        → Appends r t p (sent_call s b) → IsNewStamp r p b.stamp
        → message o.wires t b.stamp p
        ≡ Some (record {
          to = map (node_of o.wires t p (calls_len r p)) s.to;
          carried = map (node_of o.wires t p (calls_len r p)) s.with;
          places = b.places;
          payload = s.payload;
        }) }
    ensures late { (o : Opening) (r t : Record) (p : ℕ) (s : SendCmd) (b : Sent) (x : Node)
        (key : Key) → Legal o r → Appends r t p (sent_call s b)
        → is_late o.wires t x key ≡ is_late o.wires r x key }
{}

/// A destruction adds to what may be received at most the notices of its nodes; it takes away at most the messages after
/// it to a node that it destroys.
pub fn destruction_adds_notices()
    ensures messages { (o : Opening) (r t : Record) (p : ℕ) (c : Call) (stamp q k : ℕ) (key : Key)
        → Legal o r → Appends r t p c → destroy_stamp c.answer ≡ Some stamp → k ≤ calls_len r q
        → is_message o.wires t q k key ≡ true → is_message o.wires r q k key ≡ true }
    ensures late { (o : Opening) (r t : Record) (p : ℕ) (c : Call) (stamp : ℕ) (x : Node)
        (key : Key) → Legal o r → Appends r t p c → destroy_stamp c.answer ≡ Some stamp
        → is_late o.wires t x key ≡ true
        → (is_late o.wires r x key ≡ true)
        ⊎ ((is_before stamp p key.stamp key.origin ≡ true)
        × (is_destroyed_in (next_destruction o r t p c) x ≡ true)) }
    ensures others { (o : Opening) (r t : Record) (p : ℕ) (c : Call) (stamp q k : ℕ) (key : Key)
        → Legal o r → Appends r t p c → destroy_stamp c.answer ≡ Some stamp → k ≤ calls_len r q
        → (key.stamp ≡ stamp → key.origin ≢ p)
        → is_notice o.wires t q k key ≡ is_notice o.wires r q k key }
    ensures own { (o : Opening) (r t : Record) (p : ℕ) (c : Call) (stamp : ℕ) (key : Key) (x : Node)
        → Legal o r → Appends r t p c → destroy_stamp c.answer ≡ Some stamp → IsNewStamp r p stamp
        → key.stamp ≡ stamp → key.origin ≡ p → doomed_at o.wires t key ≡ Some x
        → is_destroyed_in (next_destruction o r t p c) x ≡ true }
{}

/// Behind a call that changes neither table, nor last receipt, nor epoch, the same entries may be received.
pub fn entries_behind_a_quiet_call()
    ensures { (ws : List Wire) (r : Record) (q k : ℕ) (c : Call) (key : Key)
        → slice_get (calls_of r q) k ≡ Some c → is_quiet c.command c.answer ≡ true
        → is_candidate ws r q (suc k) key ≡ is_candidate ws r q k key }
{}

/// Behind a receipt those messages may be received that are above it and could be received before it.
pub fn messages_behind_a_receipt()
    ensures { (ws : List Wire) (r : Record) (q k : ℕ) (c : Call) (key other : Key)
        → slice_get (calls_of r q) k ≡ Some c → got_key c.answer ≡ Some key
        → is_above key (last_key r q k) ≡ true
        → is_message ws r q (suc k) other ≡ (is_below key other && is_message ws r q k other) }
{}

/// Behind a message receipt those notices may be received that are above it and concern the peer: that did before, or
/// whose node was in a slot of the message.
pub fn notices_behind_a_message()
    ensures all { (ws : List Wire) (r : Record) (q k : ℕ) (c : Call) (key other : Key)
        → slice_get (calls_of r q) k ≡ Some c → got_key c.answer ≡ Some key
        → is_notice ws r q (suc k) other
        ≡ (is_below key other && is_notice_of ws r q (suc k) (doomed_at ws r other)) }
    ensures come { (ws : List Wire) (r : Record) (q k : ℕ) (c : Call) (key : Key)
        (number offset : ℕ) (handles payload : List ℕ) (x : Node)
        → slice_get (calls_of r q) k ≡ Some c
        → c.answer ≡ ans.Got (rec.Message key number offset handles payload)
        → is_notice_of ws r q (suc k) (Some x) ≡ true
        → (is_notice_of ws r q k (Some x) ≡ true) ⊎ (has_node x (slots ws r q key) ≡ true) }
    ensures stay { (ws : List Wire) (r : Record) (q k : ℕ) (c : Call) (key : Key)
        (number offset : ℕ) (handles payload : List ℕ) (x : Node)
        → slice_get (calls_of r q) k ≡ Some c
        → c.answer ≡ ans.Got (rec.Message key number offset handles payload)
        → is_notice_of ws r q k (Some x) ≡ true → is_notice_of ws r q (suc k) (Some x) ≡ true }
{}

/// Behind a destroy notice those entries may be received that are above it and could be received before it.
pub fn entries_behind_a_notice()
    ensures { (ws : List Wire) (r : Record) (q k : ℕ) (c : Call) (key other : Key) (number : ℕ)
        → slice_get (calls_of r q) k ≡ Some c → c.answer ≡ ans.Got (rec.Destroyed key number)
        → is_above key (last_key r q k) ≡ true
        → is_candidate ws r q (suc k) other ≡ (is_below key other && is_candidate ws r q k other) }
{}

/// Behind a release the same messages may be received, and no further notices.
pub fn entries_behind_a_release()
    ensures messages { (ws : List Wire) (r : Record) (q k : ℕ) (c : Call) (n : ℕ) (key : Key)
        → slice_get (calls_of r q) k ≡ Some c → c.command ≡ cmd.Release n → c.answer ≡ ans.Done
        → is_message ws r q (suc k) key ≡ is_message ws r q k key }
    ensures notices { (ws : List Wire) (r : Record) (q k : ℕ) (c : Call) (n : ℕ) (key : Key)
        → slice_get (calls_of r q) k ≡ Some c → c.command ≡ cmd.Release n → c.answer ≡ ans.Done
        → is_notice ws r q (suc k) key ≡ true → is_notice ws r q k key ≡ true }
{}
