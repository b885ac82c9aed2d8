ghost use Rattle.std.specs.Prelude.{◌≡◌, ◌<◌, length};
ghost use Rattle.b1_rule.specs.Rule.{state_of};

use atomic_table::{Seat, Table};
use b1_model::Opening;
use b1_peer::PeerState;
use b1_pool::PoolKind;
use b1_queue::QueueKind;
use b1_rule::{BusRule, Start, View};
use std::alloc::Global;
use std::marker::Model;

/// A seat of the table of locks.
pub type Place<Q, P> = Seat<PeerState<Q, P>, View>;

/// The table of locks: for each peer a word, its lock, and a slot, its state.
pub type Board<Q, P> = Table<PeerState<Q, P>, View, Start<Q, P>, BusRule, Global>;

/// A bus that threads share: for each peer a lock and its state, and nothing else that can be locked or waited for.
///
/// Contracts see which table it is, how it was opened, and the state in which it was made.
#[derive(Drop)]
pub struct Bus<Q: QueueKind, P: PoolKind> {
    pub(crate) table: Board<Q, P>,
    pub(crate) opening: Opening,
}

impl<Q: QueueKind, P: PoolKind> Model for Bus<Q, P> {
    ghost use Rattle.std.specs.Prelude.{◌≡◌, ◌<◌, length};
    ghost use Rattle.b1_rule.specs.Rule.{state_of};
    ghost use Rattle.b1_locks.specs.Faces.{BusFace};

    ghost Value = { BusFace };

    ghost view = { λ b. record {
      table = b.table.shared.table_id;
      opening = b.opening;
      first = state_of b.table.shared.key.peers.value.items b.table.shared.key.drivers.value.items;
    } };

    ghost invariant = { λ b. record {
      opening : b.table.shared.key.opening.value ≡ b.opening;
      words : b.table.shared.table_id.words ≡ length b.opening.peers;
      slots : b.table.shared.table_id.slots ≡ length b.opening.peers;
      some : 0 < length b.opening.peers;
    } };
}

impl<Q: QueueKind, P: PoolKind> Bus<Q, P> {
    /// A bus of a table that has a word and a slot for each peer of the opening that it was made with.
    pub fn new(table: Board<Q, P>, opening: Opening) -> Bus<Q, P>
        requires opening { table.shared.key.opening.value ≡ opening }
        requires words { table.shared.table_id.words ≡ length opening.peers }
        requires slots { table.shared.table_id.slots ≡ length opening.peers }
        requires some { 0 < length opening.peers }
        ensures { result ≡ record {
          table = table.shared.table_id;
          opening = opening;
          first = state_of table.shared.key.peers.value.items table.shared.key.drivers.value.items;
        } }
    {
        Bus { table, opening }
    }

    /// The table and the opening of a bus.
    pub fn into_parts(self) -> (Board<Q, P>, Opening)
        ensures table { result.0.shared.table_id ≡ self.table }
        ensures opening { result.1 ≡ self.opening }
        ensures key { result.0.shared.key.opening.value ≡ self.opening }
        ensures first { self.first
            ≡ state_of result.0.shared.key.peers.value.items
            result.0.shared.key.drivers.value.items }
        ensures words { self.table.words ≡ length self.opening.peers }
        ensures slots { self.table.slots ≡ length self.opening.peers }
        ensures some { 0 < length self.opening.peers }
    {
        let Bus { table, opening } = self;
        (table, opening)
    }

    /// What is always so: there is a word and a slot for each peer. Does nothing.
    pub(crate) fn shape(&self)
        ensures words { self.now.table.words ≡ length self.now.opening.peers }
        ensures slots { self.now.table.slots ≡ length self.now.opening.peers }
    {
        let _ = &self.opening;
    }
}
