ghost use Rattle.std.specs.Prelude.{◌≡◌};
ghost use Rattle.b1_judge.specs.Words.{word_of};

/// A part of what is asked of a record. They are tried in this order.
#[derive(Clone, Copy, Debug, PartialEq, Eq)]
pub enum Clause {
    /// Each peer's calls are its commands with the references resolved, and after them receipts alone.
    Script,
    /// Each stamp of a send or a destruction is even, and is given once by its peer.
    Keys,
    /// Each stamp is above all that its peer gave or received before.
    Order,
    /// Each receipt is the next entry of the bus order for its peer.
    Prefix,
    /// Each receipt has the bytes, the handles and the numbers that were sent.
    Contents,
    /// Nothing is left to receive.
    Whole,
}

/// What is found of a record.
#[derive(Clone, Copy, Debug, PartialEq, Eq)]
pub enum Verdict {
    /// Each part holds.
    Legal,
    /// A part is broken: the first one that is, and the first peer and call that break it. The call is counted from 0,
    /// and is the number of the peer's calls where one lacks or something is left to receive.
    Broken {
        clause: Clause,
        peer: u32,
        call: u64,
    },
}

/// The word that is printed for a part: its name in lower-case letters.
pub fn word(clause: Clause) -> &'static str
    ensures { result.now ≡ word_of clause }
{
    match clause {
        Clause::Script => "script",
        Clause::Keys => "keys",
        Clause::Order => "order",
        Clause::Prefix => "prefix",
        Clause::Contents => "contents",
        Clause::Whole => "whole",
    }
}
