ghost use Rattle.std.specs.Prelude.{◌≡◌, List, [], ◌∷◌, ◌++◌, Some, OnOk, IfOk};
ghost use Rattle.b1_report_lines.specs.declared.lines.Line.{Line};

use b1_model::{Call, Calls, PeerCalls, PeerLists};
use b1_report_lines::Line;
use std::alloc::{AllocError, Global};
use std::mem;

/// Peers with their calls, the last of which may still go on.
#[derive(Drop)]
pub(crate) struct Draft {
    /// The peers that are done.
    peers: Vec<PeerCalls>,
    /// The epoch and the clock of the peer that has begun.
    begun: Option<(u64, u64)>,
    /// Its calls.
    calls: Vec<Call>,
}

impl Draft {
    ghost use Rattle.b1_report.specs.Runs.{opened, drafted, gathered};

    pub(crate) fn new(alloc: Global) -> Draft
        ensures { (ls : List Line) → drafted result ls ≡ gathered ls }
    {
        Draft {
            peers: Vec::new(alloc),
            begun: None,
            calls: Vec::new(alloc),
        }
    }

    fn close(&mut self, alloc: Global) -> Result<(), AllocError>
        ensures done { OnOk result (self.new.peers.items ≡ self.old.peers.items
            ++ opened self.old.begun self.old.calls.items) }
        ensures calls { OnOk result (self.new.calls.items ≡ []) }
    {
        let calls = mem::replace(&mut self.calls, Vec::new(alloc));
        if let Some((epoch, clock)) = self.begun {
            self.peers.push(PeerCalls {
                epoch,
                clock,
                calls: Calls::from_vec(calls),
            })?;
        }
        Ok(())
    }

    fn begin(&mut self, alloc: Global, epoch: u64, clock: u64) -> Result<(), AllocError>
        ensures done { OnOk result (self.new.peers.items ≡ self.old.peers.items
            ++ opened self.old.begun self.old.calls.items) }
        ensures calls { OnOk result (self.new.calls.items ≡ []) }
        ensures begun { OnOk result (self.new.begun ≡ Some (epoch, clock)) }
    {
        self.close(alloc)?;
        self.begun = Some((epoch, clock));
        Ok(())
    }

    pub(crate) fn take(&mut self, alloc: Global, line: Line) -> Result<(), AllocError>
        ensures { OnOk result ((ls : List Line)
            → drafted self.new ls ≡ drafted self.old (line ∷ ls)) }
    {
        match line {
            Line::Peer { epoch, clock } => self.begin(alloc, epoch, clock),
            Line::Call(call) => {
                self.calls.push(call)?;
                Ok(())
            }
            _ => Ok(()),
        }
    }

    pub(crate) fn finish(mut self, alloc: Global) -> Result<PeerLists, AllocError>
        ensures { IfOk result (λ peers. peers ≡ drafted self []) }
    {
        self.close(alloc)?;
        let Draft { peers, .. } = self;
        Ok(PeerLists::from_vec(peers))
    }
}
