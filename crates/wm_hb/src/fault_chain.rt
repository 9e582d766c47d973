//! The chains of happens-before that a fault of a memory rule rests on.
ghost use Rattle.std.specs.Prelude.{IfOk};
ghost use Rattle.wm_event.specs.LoggedRun.{execution};
ghost use Rattle.wm_hb.specs.Premises.{FindsChains, FindsShown};

use crate::chain::{Link, shortest_chain};
use crate::ordered::Ordered;
use crate::premise::{Premise, premises_of};
use std::alloc::{AllocError, Global};
use wm_event::{Candidate, EventId, RuleFault};
use wm_list::List;

/// A chain from one event to another.
#[derive(Drop)]
pub struct FaultChain {
    pub from: EventId,
    pub to: EventId,
    /// Its links in order; the last one leads to `to`.
    pub links: List<Link>,
}

/// A shortest chain for each premise; None if one doesn't hold.
fn chains_in(
    alloc: Global,
    ordered: &Ordered,
    premises: &[Premise],
) -> Result<Option<List<FaultChain>>, AllocError>
    ensures { IfOk result (FindsChains (execution ordered.now) premises.now) }
{
    let mut chains = List::new(alloc);
    for premise in premises {
        let Premise { from, to } = *premise;
        let Some(links) = shortest_chain(alloc, ordered.candidate(), from, to)? else {
            return Ok(None);
        };
        chains.push(FaultChain { from, to, links })?;
    }
    Ok(Some(chains))
}

/// A shortest chain of edges for each happens-before that a fault of a memory rule rests on, in the order of the
/// fault's premises; None if it isn't the first fault of the run.
///
/// # Errors
///
/// Only if an allocation fails.
pub fn fault_chains(
    alloc: Global,
    candidate: &Candidate,
    fault: &RuleFault,
) -> Result<Option<List<FaultChain>>, AllocError>
    ensures { IfOk result (FindsShown (execution candidate.now) fault.now) }
{
    let premises = premises_of(alloc, fault)?;
    if premises.is_empty() {
        return Ok(Some(List::new(alloc)));
    }
    match Ordered::of(candidate) {
        Ok(ordered) => chains_in(alloc, &ordered, premises.as_slice()),
        Err(_) => Ok(None),
    }
}
