ghost use Rattle.std.specs.Prelude.{◌≡◌, ℕ, ◌<◌, true, List, slice_get, Some};
ghost use Rattle.b1_model.specs.declared.naming.Key.{Key};
ghost use Rattle.b1_model.specs.declared.naming.Wire.{Wire};
ghost use Rattle.b1_model.specs.declared.naming.Opening.{Opening};
ghost use Rattle.b1_model.specs.declared.records.Call.{Call};
ghost use Rattle.b1_model.specs.declared.records.Record.{Record};
ghost use Rattle.b1_model.specs.Names.{Node, calls_of, epoch_at};
ghost use Rattle.b1_model.specs.Ledger.{stamp_of, got_key, is_below, Message, message, doomed_at};
ghost use Rattle.b1_model.specs.Legal.{is_candidate, Legal};
ghost use Rattle.std.specs.Ordering.{is_lt};
ghost use Rattle.b1_model.specs.Keys.{compare_keys};
ghost use Rattle.b1_ledger.specs.Growth.{RisesAt};

/// Within an epoch of a peer the keys of its receipts rise strictly.
pub fn receipts_rise()
    ensures { (o : Opening) (r : Record) (p i k : ℕ) (b d : Call) (x y : Key) → Legal o r → i < k
        → slice_get (calls_of r p) i ≡ Some b → slice_get (calls_of r p) k ≡ Some d
        → got_key b.answer ≡ Some x → got_key d.answer ≡ Some y → epoch_at r p k ≡ epoch_at r p i
        → is_below x y ≡ true }
{}

/// A stamp and an origin name one call: no two calls of a peer have the same stamp.
pub fn stamp_names_one_call()
    ensures { (r : Record) (q i k stamp : ℕ) (b c : Call) → RisesAt r
        → slice_get (calls_of r q) i ≡ Some b → slice_get (calls_of r q) k ≡ Some c
        → stamp_of b.answer ≡ Some stamp → stamp_of c.answer ≡ Some stamp → i ≡ k }
{}

/// Each message and each notice has the stamp of a call of its origin.
pub fn entries_come_from_calls()
    ensures messages { (ws : List Wire) (r : Record) (stamp q : ℕ) (m : Message)
        → message ws r stamp q ≡ Some m
        → (i : ℕ) × (c : Call) × (slice_get (calls_of r q) i ≡ Some c)
        × (stamp_of c.answer ≡ Some stamp) }
    ensures notices { (ws : List Wire) (r : Record) (key : Key) (x : Node)
        → doomed_at ws r key ≡ Some x
        → (i : ℕ) × (c : Call) × (slice_get (calls_of r key.origin) i ≡ Some c)
        × (stamp_of c.answer ≡ Some key.stamp) }
    ensures candidates { (ws : List Wire) (r : Record) (p k : ℕ) (key : Key)
        → is_candidate ws r p k key ≡ true
        → (i : ℕ) × (c : Call) × (slice_get (calls_of r key.origin) i ≡ Some c)
        × (stamp_of c.answer ≡ Some key.stamp) }
{}

/// The order of keys of a record is that of the queues.
pub fn keys_are_ordered_as_in_queues()
    ensures { (x y : Key) → is_below x y ≡ is_lt (compare_keys x y) }
{}
