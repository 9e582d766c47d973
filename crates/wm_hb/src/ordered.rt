//! Candidates whose order agrees with happens-before.
ghost use Rattle.std.specs.Prelude.{◌≡◌, ◌<◌, [], ◌∷◌, length};
ghost use Rattle.wm_event.specs.LoggedRun.{execution};
ghost use Rattle.wm_hb.specs.Scan.{Finds};

use crate::order::order_fault;
use std::marker::Model;
use wm_event::{Candidate, RuleFault};

/// The first fault of a thread.
fn fault_in_thread(candidate: &Candidate, thread: usize) -> Option<RuleFault>
    requires { thread < length candidate.now.log }
    ensures { Finds (execution candidate.now) (2 ∷ thread ∷ []) result }
{
    let log = &candidate.log().threads()[thread];
    for event in log.events.as_slice() {
        let fault = order_fault(candidate, event);
        if fault.is_some() {
            return fault;
        }
    }
    None
}

/// The first fault of the order.
fn first_fault(candidate: &Candidate) -> Option<RuleFault>
    ensures { Finds (execution candidate.now) (2 ∷ []) result }
{
    for thread in 0..candidate.log().threads().len() {
        let fault = fault_in_thread(candidate, thread);
        if fault.is_some() {
            return fault;
        }
    }
    None
}

/// A candidate whose order agrees with happens-before.
#[derive(Drop)]
pub struct Ordered<'c, 'i> {
    candidate: &'c Candidate<'i>,
}

impl<'c, 'i> Model for Ordered<'c, 'i> {
    ghost use Rattle.wm_event.specs.LoggedRun.{LoggedRun, execution};
    ghost use Rattle.wm_event.specs.Rules.{KeepsOrder};

    ghost Value = { LoggedRun };

    ghost view = { λ o. o.candidate.now };

    ghost invariant = { λ o. KeepsOrder (execution o.candidate.now) };
}

impl<'c, 'i> Ordered<'c, 'i> {
    ghost use Rattle.std.specs.Prelude.{OnOk, OnErr, IfErr, IfOk};
    ghost use Rattle.wm_event.specs.Rules.{KeepsOrder};
    ghost use Rattle.wm_hb.specs.Edges.{IsFirstBroken};

    /// The candidate, if its order agrees with each edge of happens-before; otherwise the first fault of V2.
    pub fn of(candidate: &'c Candidate<'i>) -> Result<Self, RuleFault>
        ensures value { IfOk result (λ o. o ≡ candidate.now) }
        ensures agrees { OnOk result (KeepsOrder (execution candidate.now)) }
        ensures fails { OnErr result (KeepsOrder (execution candidate.now) → ⊥) }
        ensures first { IfErr result (IsFirstBroken (execution candidate.now)) }
    {
        match first_fault(candidate) {
            None => Ok(Ordered { candidate }),
            Some(fault) => Err(fault),
        }
    }

    /// The candidate.
    pub fn candidate(&self) -> &'c Candidate<'i>
        ensures value { result.now ≡ self.now }
        ensures agrees { KeepsOrder (execution self.now) }
    {
        self.candidate
    }
}
