ghost use Rattle.std.specs.Prelude.{◌≡◌, ◌≢◌, ◌≤◌, [], AllPairs, length, vec_capacity};
ghost use Rattle.b1_model.specs.declared.events.Outcome.TheVariants as out;
ghost use Rattle.b1_model.specs.MachineParts.{is_live};
ghost use Rattle.b1_model.specs.MachineDestroy.{destroy_refusal, destroy_serials, overflow_reason, reset_serials, visit_set, doomed_part, visit_answer, visited, doom_answer, doom_stamped};
ghost use Rattle.b1_model.specs.MachineEvents.{destroy_by};
ghost use Rattle.b1_nodes.specs.Nodes.{AllMade};
ghost use Rattle.b1_inv_peer.specs.Needs.{IsClock, StagesAnew, VisitsAnew, AreDying};

use crate::notices::{stage_foreign, stage_own};
use crate::state::PeerState;
use b1_model::{PeerSet, Reason, Visited};
use b1_nodes::{doom, doom_live, overflow, refusal};
use b1_pool::PoolKind;
use b1_queue::QueueKind;

impl<Q: QueueKind, P: PoolKind> PeerState<Q, P> {
    /// Begins the destruction of the nodes with these own numbers: they are dying, and each one's notice is staged. The
    /// answer is the peers that have a reference to one of them, and their serials stand in `doomed`, which must be empty
    /// and have room for all nodes that were made. A refusal leaves all as it was.
    pub fn begin_destroy(
        &mut self,
        numbers: &[u64],
        doomed: &mut Vec<u32>,
    ) -> Result<PeerSet, Reason>
        requires clock { IsClock self.old.part.clock }
        requires empty { doomed.old.items ≡ [] }
        requires room { length self.old.part.nodes ≤ vec_capacity doomed.old }
        requires new_keys { StagesAnew self.old.part self.old.part.me
            (length (destroy_serials self.old.part numbers.now)) }
        ensures event { destroy_by (destroy_refusal self.old.part numbers.now)
            (destroy_serials self.old.part numbers.now) self.old.part
            ≡ (out.BeginDestroy result doomed.new.items, self.new.part) }
        ensures rest { self.new ≡ record self.old { part = self.new.part } }
        ensures capacity { vec_capacity doomed.new ≡ vec_capacity doomed.old }
    {
        if let Some(reason) = refusal(&self.nodes, self.clock, numbers) {
            return Err(reason);
        }
        doom(&self.nodes, numbers, doomed);
        Ok(self.begin(doomed))
    }

    /// Begins the destruction of all live nodes, by rising serials; else as `begin_destroy`.
    pub fn begin_reset(&mut self, doomed: &mut Vec<u32>) -> Result<PeerSet, Reason>
        requires clock { IsClock self.old.part.clock }
        requires empty { doomed.old.items ≡ [] }
        requires room { length self.old.part.nodes ≤ vec_capacity doomed.old }
        requires new_keys { StagesAnew self.old.part self.old.part.me
            (length (reset_serials self.old.part)) }
        ensures event { destroy_by (overflow_reason self.old.part)
            (reset_serials self.old.part) self.old.part
            ≡ (out.BeginDestroy result doomed.new.items, self.new.part) }
        ensures rest { self.new ≡ record self.old { part = self.new.part } }
        ensures capacity { vec_capacity doomed.new ≡ vec_capacity doomed.old }
    {
        if let Some(reason) = overflow(self.clock) {
            return Err(reason);
        }
        doom_live(&self.nodes, doomed);
        Ok(self.begin(doomed))
    }

    /// Begins the destruction of live nodes by their serials, and answers the peers that have a reference to one of them.
    fn begin(&mut self, doomed: &[u32]) -> PeerSet
        requires clock { IsClock self.old.part.clock }
        requires live { AllMade (λ n. is_live n.state) self.old.part.nodes doomed.now }
        requires distinct { AllPairs ◌≢◌ doomed.now }
        requires new_keys { StagesAnew self.old.part self.old.part.me (length doomed.now) }
        ensures holders { result ≡ visit_set self.old.part doomed.now }
        ensures doomed { self.new
            ≡ record self.old { part = doomed_part self.old.part doomed.now } }
    {
        let _few = self.nodes.len();
        stage_own(&mut self.mail, self.clock, self.me, doomed);
        self.nodes.dying(doomed)
    }

    /// Stages a notice for each record of a doomed node of another peer that has none queued, and answers the clock.
    pub fn visit(&mut self, origin: u32, doomed: &[u32]) -> Visited
        requires clock { IsClock self.old.part.clock }
        requires other { origin ≢ self.old.part.me }
        requires distinct { AllPairs ◌≢◌ doomed.now }
        requires new_keys { VisitsAnew self.old.part origin doomed.now }
        ensures answer { result ≡ visit_answer self.old.part origin doomed.now }
        ensures visited { self.new
            ≡ record self.old { part = visited self.old.part origin doomed.now } }
    {
        let staged = stage_foreign(
            &mut self.mail,
            &mut self.handles,
            self.clock,
            origin,
            doomed,
        );
        Visited {
            clock: self.clock,
            staged,
        }
    }

    /// Answers the final stamp, with which the dying nodes are destroyed. An error is the peers that came late, where there
    /// are some: nothing else changes then, and no peer is late afterwards.
    pub fn stamp_destroy(&mut self, collected: u64, doomed: &[u32]) -> Result<u64, PeerSet>
        requires clock { IsClock self.old.part.clock }
        requires collected { IsClock collected }
        requires distinct { AllPairs ◌≢◌ doomed.now }
        requires dying { AreDying self.old.part doomed.now }
        ensures answer { result ≡ doom_answer self.old.part collected }
        ensures stamped { self.new
            ≡ record self.old { part = doom_stamped self.old.part collected doomed.now } }
    {
        let late = self.nodes.late();
        if !late.is_empty() {
            return Err(late);
        }
        self.clock = self.clock.max(collected) + 2;
        self.nodes.stamped(doomed, self.clock);
        Ok(self.clock)
    }
}
