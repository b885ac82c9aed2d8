ghost use Rattle.std.specs.Prelude.{◌≡◌, ◌≢◌, ℕ, suc, ◌<◌, ◌≤◌, false, ◌||◌, ◌==◌, find, List, ◌++◌, map, take, slice_get, Some, option_and_then};
ghost use Rattle.std.specs.List.{list_any};
ghost use Rattle.b1_model.specs.declared.naming.Key.{Key};
ghost use Rattle.b1_model.specs.declared.naming.Wire.{Wire};
ghost use Rattle.b1_model.specs.declared.naming.Opening.{Opening};
ghost use Rattle.b1_model.specs.declared.commands.SendCmd.{SendCmd};
ghost use Rattle.b1_model.specs.declared.answers.Sent.{Sent};
ghost use Rattle.b1_model.specs.declared.records.Call.{Call};
ghost use Rattle.b1_model.specs.declared.records.Record.{Record};
ghost use Rattle.b1_model.specs.Names.{Node, calls_of, wired, made_in, made, epoch_in, epoch_at, next_epoch, add_new, carried_by};
ghost use Rattle.b1_model.specs.Ledger.{got_key, Message, message_within, message_at, sent_at, message, slots_by, slots, start, table_in, table, changed, node_of, is_send, destruction_by, destructions_before, destructions_of, node_at, doomed_at, is_late_by, is_late, to_at};
ghost use Rattle.b1_model.specs.Legal.{last_key, last_after, Legal};
ghost use Rattle.b1_ledger.specs.Growth.{Extends, Appends, calls_len, sent_call, IsNewStamp, next_destruction, RisesAt, WasMade};

/// Where each peer's stamps rise, any greater bound of the look-ups gives the same message and the same table.
pub fn any_greater_bound()
    ensures messages { (ws : List Wire) (r : Record) (m n stamp q : ℕ) → RisesAt r → stamp < m
        → stamp < n → message_within ws r m stamp q ≡ message_within ws r n stamp q }
    ensures tables { (ws : List Wire) (r : Record) (n p k : ℕ) → RisesAt r
        → ((i : ℕ) (b : Call) (key : Key) → i < k → slice_get (calls_of r p) i ≡ Some b
        → got_key b.answer ≡ Some key → key.stamp < n)
        → table_in (slots_by (message_within ws r n) p) (start ws p) (take k (calls_of r p))
        ≡ table ws r p k }
{}

/// Where each peer's stamps rise, a message is what its send's numbers named, by the table of its origin.
pub fn message_of_a_send()
    ensures by_tables { (ws : List Wire) (r : Record) (stamp q : ℕ) → RisesAt r
        → message ws r stamp q
        ≡ option_and_then (message_at ws q (calls_of r q) (slots ws r q))
        (sent_at stamp (calls_of r q)) }
    ensures of_call { (ws : List Wire) (r : Record) (q k : ℕ) (s : SendCmd) (b : Sent) → RisesAt r
        → slice_get (calls_of r q) k ≡ Some (sent_call s b)
        → message ws r b.stamp q ≡ Some (record {
          to = map (node_of ws r q k) s.to;
          carried = map (node_of ws r q k) s.with;
          places = b.places;
          payload = s.payload;
        }) }
{}

/// More calls of any kind change nothing of what a legal record's calls show: the names, the tables, the messages and
/// the destructions before them stay.
pub fn growth_changes_nothing()
    ensures names { (o : Opening) (r t : Record) (q k : ℕ) → Legal o r → Extends r t
        → k < calls_len r q → made o.wires t q k ≡ made o.wires r q k }
    ensures tables { (o : Opening) (r t : Record) (q k : ℕ) → Legal o r → Extends r t
        → k ≤ calls_len r q → table o.wires t q k ≡ table o.wires r q k }
    ensures nodes { (o : Opening) (r t : Record) (q k n : ℕ) → Legal o r → Extends r t
        → k < calls_len r q → node_of o.wires t q k n ≡ node_of o.wires r q k n }
    ensures messages { (o : Opening) (r t : Record) (stamp q : ℕ) (m : Message) → Legal o r
        → Extends r t → message o.wires r stamp q ≡ Some m → message o.wires t stamp q ≡ Some m }
    ensures destructions { (o : Opening) (r t : Record) (q k : ℕ) → Legal o r → Extends r t
        → k ≤ calls_len r q → destructions_before o.wires t q k
        ≡ destructions_before o.wires r q k }
    ensures epochs { (o : Opening) (r t : Record) (q k : ℕ) → Legal o r → Extends r t
        → k ≤ calls_len r q → epoch_at t q k ≡ epoch_at r q k }
    ensures last_keys { (o : Opening) (r t : Record) (q k : ℕ) → Legal o r → Extends r t
        → k ≤ calls_len r q → last_key t q k ≡ last_key r q k }
{}

/// One more call that is no send with a stamp leaves the messages with that stamp, and any leaves those of other peers.
pub fn messages_after_a_call()
    ensures unsent { (o : Opening) (r t : Record) (p : ℕ) (c : Call) (stamp q : ℕ) → Legal o r
        → Appends r t p c → is_send stamp c.command c.answer ≡ false
        → message o.wires t stamp q ≡ message o.wires r stamp q }
    ensures others { (o : Opening) (r t : Record) (p : ℕ) (c : Call) (stamp q : ℕ) → Legal o r
        → Appends r t p c → q ≢ p → message o.wires t stamp q ≡ message o.wires r stamp q }
{}

/// One more call adds at most the destruction that it is; what was destroyed stays so, and what is late stays late.
pub fn destructions_after_a_call()
    ensures here { (o : Opening) (r t : Record) (p : ℕ) (c : Call) → Legal o r → Appends r t p c
        → destructions_of o.wires t p ≡ destructions_of o.wires r p ++ next_destruction o r t p c }
    ensures others { (o : Opening) (r t : Record) (p : ℕ) (c : Call) (q : ℕ) → Legal o r
        → Appends r t p c → q ≢ p → destructions_of o.wires t q ≡ destructions_of o.wires r q }
    ensures notices { (o : Opening) (r t : Record) (p : ℕ) (c : Call) (key : Key) (x : Node)
        → Legal o r → Appends r t p c → doomed_at o.wires r key ≡ Some x
        → doomed_at o.wires t key ≡ Some x }
    ensures late { (o : Opening) (r t : Record) (p : ℕ) (c : Call) (x : Node) (key : Key)
        → Legal o r → Appends r t p c
        → is_late o.wires t x key ≡ (is_late o.wires r x key
        || list_any (is_late_by x key) (next_destruction o r t p c)) }
    ensures own { (o : Opening) (r t : Record) (p : ℕ) (c : Call) (stamp : ℕ) (key : Key)
        → Legal o r → Appends r t p c → IsNewStamp r p stamp → key.stamp ≡ stamp → key.origin ≡ p
        → doomed_at o.wires t key ≡ node_at key.index (find (λ d.
        d.stamp == key.stamp) (next_destruction o r t p c)) }
{}

/// One more call adds the own numbers that it carries to its peer's names, in the peer's present epoch.
pub fn names_after_a_call()
    ensures { (o : Opening) (r t : Record) (p : ℕ) (c : Call) → Legal o r → Appends r t p c
        → made o.wires t p (calls_len r p)
        ≡ add_new (epoch_at r p (calls_len r p)) (made o.wires r p (calls_len r p))
        (carried_by c.command c.answer) }
{}

/// What one call of any record changes for the next one of its peer.
pub fn call_behind_call()
    ensures tables { (ws : List Wire) (r : Record) (q k : ℕ) (c : Call)
        → slice_get (calls_of r q) k ≡ Some c
        → table ws r q (suc k) ≡ changed (slots ws r q) c.command c.answer (table ws r q k) }
    ensures last_keys { (r : Record) (q k : ℕ) (c : Call) → slice_get (calls_of r q) k ≡ Some c
        → last_key r q (suc k) ≡ last_after (last_key r q k) c.answer }
    ensures epochs { (r : Record) (q k : ℕ) (c : Call) → slice_get (calls_of r q) k ≡ Some c
        → epoch_at r q (suc k) ≡ next_epoch (epoch_at r q k) c.answer }
    ensures names { (ws : List Wire) (r : Record) (q k : ℕ) (c : Call)
        → slice_get (calls_of r q) k ≡ Some c
        → made ws r q k
        ≡ add_new (epoch_at r q k) (made_in 0 (wired ws q) (take k (calls_of r q)))
        (carried_by c.command c.answer) }
    ensures destructions { (ws : List Wire) (r : Record) (q k : ℕ) (c : Call)
        → slice_get (calls_of r q) k ≡ Some c
        → destructions_before ws r q (suc k) ≡ destructions_before ws r q k
        ++ destruction_by q (made ws r q k) (table ws r q k) (destructions_before ws r q k)
        c.command c.answer }
{}

/// Each node that a record's numbers, messages and notices name was made by its owner, in an epoch that the owner
/// reached.
pub fn named_nodes_were_made()
    ensures numbers { (ws : List Wire) (r : Record) (p k n : ℕ) (x : Node)
        → node_of ws r p k n ≡ Some x → WasMade ws r x }
    ensures destinations { (ws : List Wire) (r : Record) (stamp q i : ℕ) (m : Message) (x : Node)
        → message ws r stamp q ≡ Some m → to_at m i ≡ Some x → WasMade ws r x }
    ensures notices { (ws : List Wire) (r : Record) (key : Key) (x : Node)
        → doomed_at ws r key ≡ Some x → WasMade ws r x }
    ensures epochs { (ws : List Wire) (r : Record) (x : Node) → WasMade ws r x
        → x.epoch ≤ epoch_in 0 (calls_of r x.owner) }
{}
