//! Whether other writers could mend a fault.
ghost use Rattle.std.specs.Prelude.{IfOk};
ghost use Rattle.wm_event.specs.LoggedRun.{execution};
ghost use Rattle.wm_writers.specs.Answer.{IsAnswer, StaysIfOnly};
ghost use Rattle.wm_writers.specs.Lasting.{FindsLasting};

use crate::need::needs_of;
use crate::source::{Source, are_forced, sources_of};
use std::alloc::{AllocError, Global};
use wm_event::{Candidate, Rule, RuleFault};
use wm_hb::{FaultChain, fault_chains, find_cycle};
use wm_list::List;

/// What a fault rests on.
#[derive(Drop)]
pub struct FaultWriters {
    /// A shortest chain of edges for each happens-before of the fault; for V2 a cycle of happens-before.
    pub chains: List<FaultChain>,
    /// What the fault needs of the witness: first for the read with the fault; then, chain after chain, for each write
    /// that synchronizes with a read, that the read takes a byte from the write.
    pub sources: List<Source>,
}

/// Whether other writers could mend a fault.
#[derive(Drop)]
pub enum Writers {
    /// Each source has a byte that only the writer of the witness fits. So no witness mends the fault: whatever the writers
    /// and the order, the log breaks a memory rule.
    Only(FaultWriters),
    /// A source has no such byte: at each of its bytes another event fits too.
    Several(FaultWriters),
    /// Another order may mend the fault: it is of V5, or of V2 and happens-before has no cycle. Or it isn't the first fault
    /// of the run.
    Other,
}

/// The chains that show that no order mends a fault: for V2 a cycle of happens-before, for V1, V3 and V4 a shortest chain
/// for each happens-before of the fault; None if another order may mend it.
fn lasting_chains(
    alloc: Global,
    candidate: &Candidate,
    fault: &RuleFault,
) -> Result<Option<List<FaultChain>>, AllocError>
    ensures { IfOk result (FindsLasting (execution candidate.now) fault.now) }
{
    match fault.rule {
        Rule::WrittenValues | Rule::Coherence | Rule::NoTearing => {
            fault_chains(alloc, candidate, fault)
        }
        Rule::Order => match find_cycle(alloc, candidate)? {
            Some(chain) => {
                let mut chains = List::new(alloc);
                chains.push(chain)?;
                Ok(Some(chains))
            }
            None => Ok(None),
        },
        Rule::SequentialConsistency => Ok(None),
    }
}

/// Whether other writers could mend a fault that no order mends, and which events fit the bytes that it rests on. An event
/// fits a byte of a read if it leaves there the value that was read, and is neither the read nor a later event of its
/// thread. Chains are shortest ones, or a cycle, and enter each thread once, so few reads are looked at.
///
/// # Errors
///
/// Only if an allocation fails.
pub fn writers_that_fit(
    alloc: Global,
    candidate: &Candidate,
    fault: &RuleFault,
) -> Result<Writers, AllocError>
    ensures answer { IfOk result (IsAnswer candidate.now fault.now) }
    ensures stays { IfOk result (StaysIfOnly candidate.now fault.now) }
{
    let _log = candidate.log();
    let Some(chains) = lasting_chains(alloc, candidate, fault)? else {
        return Ok(Writers::Other);
    };
    let needs = needs_of(alloc, fault, chains.as_slice())?;
    let sources = sources_of(alloc, candidate, needs.as_slice())?;
    let is_forced = are_forced(sources.as_slice());
    let writers = FaultWriters { chains, sources };
    if is_forced {
        Ok(Writers::Only(writers))
    } else {
        Ok(Writers::Several(writers))
    }
}
