ghost use Rattle.std.specs.Prelude.{ℕ, Option};
ghost use Rattle.b1_model.specs.declared.naming.Opening.{Opening};
ghost use Rattle.b1_model.specs.declared.commands.Command.{Command};
ghost use Rattle.b1_model.specs.MachineParts.{State};
ghost use Rattle.b1_model.specs.MachineStep.{Step};
ghost use Rattle.b1_inv.specs.Sound.{IsSound};
ghost use Rattle.b1_inv_names.specs.Destroyed.{DestroyedStay};
ghost use Rattle.b1_inv.specs.Kept.{BeginsWith};
ghost use Rattle.b1_inv_record.specs.Kept.{KeptFromRight};
ghost use Rattle.b1_inv_record.specs.Dooming.{FlushesDoomAll};
ghost use Rattle.b1_inv_names.specs.Gap.{GapIsEmpty};
ghost use Rattle.b1_inv_record.specs.Names.{BegunNames, EpochCounted, MadeNumbers, ShutIsEmpty};

/// A step keeps each peer's epoch as often risen as its calls flush, but for the gap of a reset, and every bus begins so.
pub fn epochs_stay_counted()
    ensures opening_EpochCounted { BeginsWith (λ _. EpochCounted) }
    ensures kept_EpochCounted { KeptFromRight (λ _. EpochCounted) }
{}

/// A step keeps the numbers of each peer's nodes those that its calls and its open SEND name, own numbers and each once,
/// and every bus begins so.
pub fn made_numbers_stay_right()
    ensures opening_MadeNumbers { BeginsWith MadeNumbers }
    ensures kept_MadeNumbers { KeptFromRight MadeNumbers }
{}

/// A step keeps the nodes of every open SEND those that its numbers name at its own peer, and every bus begins so.
pub fn begun_names_stay_right()
    ensures opening_BegunNames { BeginsWith (λ _. BegunNames) }
    ensures kept_BegunNames { KeptFromRight (λ _. BegunNames) }
{}

/// A step keeps a peer that has disconnected without queue, records and live or dying nodes, and every bus begins so.
pub fn shut_peers_stay_empty()
    ensures opening_ShutIsEmpty { BeginsWith (λ _. ShutIsEmpty) }
    ensures kept_ShutIsEmpty { KeptFromRight (λ _. ShutIsEmpty) }
{}

/// A step leaves no node live at a peer with an open reset or disconnect, from its begin to its flush, and every bus
/// begins so.
pub fn flushes_doom_all()
    ensures opening_FlushesDoomAll { BeginsWith (λ _. FlushesDoomAll) }
    ensures kept_FlushesDoomAll { (o : Opening) (s : State) (p : ℕ) (c : Option Command)
        (t : State) → IsSound o s → FlushesDoomAll s → Step o s p c t → FlushesDoomAll t }
{}

/// A step leaves the table of a peer in the gap of a reset empty, and so it is when a bus begins.
pub fn tables_are_empty_in_gaps()
    ensures opening_TableIsLines_gap { BeginsWith GapIsEmpty }
    ensures kept_TableIsLines_gap { KeptFromRight GapIsEmpty }
{}

/// A step leaves every destroyed node destroyed.
pub fn destroyed_nodes_stay()
    ensures { (o : Opening) (s : State) (p : ℕ) (c : Option Command) (t : State) → Step o s p c t
        → DestroyedStay s t }
{}
