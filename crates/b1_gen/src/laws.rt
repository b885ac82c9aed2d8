ghost use Rattle.std.specs.Prelude.{◌≢◌, ◌<◌, ℕ};
ghost use Rattle.b1_script.specs.Spelling.{HasSpelling};
ghost use Rattle.b1_gen.specs.Generated.{generated, opening_of, handle_at, NamesNodeOf};

/// A generated script has a spelling: its opening is one that a bus can begin with, there is a list of commands for each
/// peer, each command is within a record's limits, and all of it is short enough for a file.
pub fn every_generated_script_has_a_spelling()
    ensures { (number : ℕ) → HasSpelling (generated number) }
{}

/// Each peer of a generated script holds the node of each other peer, under the handle by which it sends to it.
pub fn every_destination_is_held()
    ensures { (n p q : ℕ) → p < n → q < n → q ≢ p → NamesNodeOf (opening_of n) p (handle_at p q) q }
{}
