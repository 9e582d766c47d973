//! What a fault of a leaf rests on. Nothing rests on it but how soon the search ends.

use crate::assumption::Assumption;
use std::alloc::{AllocError, Global};
use wm_event::{Candidate, EventId, Rule, RuleFault};
use wm_hb::{FaultChain, LinkKind, fault_chains, find_cycle};

/// Adds that each read of a chain takes a byte from the write that synchronizes with it.
fn add_chain(grounds: &mut Vec<Assumption>, chain: &FaultChain) -> Result<(), AllocError> {
    let mut writer = chain.from;
    for link in chain.links.as_slice() {
        if link.kind == LinkKind::Synchronizes
            && let EventId::At(key) = writer
        {
            grounds.push(Assumption::Takes(link.event, key))?;
        }
        writer = EventId::At(link.event);
    }
    Ok(())
}

/// That a byte of a read is from a writer, or of any byte if `is_any`.
fn taken(fault: &RuleFault, writer: EventId, is_any: bool) -> Assumption {
    match writer {
        EventId::At(key) if is_any => Assumption::Takes(fault.event, key),
        _ => Assumption::Byte(fault.event, fault.byte, writer),
    }
}

/// Adds what a fault says of its read.
fn add_own(grounds: &mut Vec<Assumption>, fault: &RuleFault) -> Result<(), AllocError> {
    match fault.rule {
        Rule::WrittenValues | Rule::Coherence => {
            grounds.push(taken(fault, fault.writer, false))?;
        }
        Rule::NoTearing => {
            grounds.push(taken(fault, fault.writer, true))?;
            if let Some(other) = fault.other {
                grounds.push(taken(fault, other, true))?;
            }
        }
        Rule::SequentialConsistency => {
            grounds.push(taken(fault, fault.writer, fault.case == 1))?;
        }
        Rule::Order => (),
    }
    Ok(())
}

/// Adds in which order a fault has its events.
fn add_order(grounds: &mut Vec<Assumption>, fault: &RuleFault) -> Result<(), AllocError> {
    let Some(EventId::At(other)) = fault.other else {
        return Ok(());
    };
    if fault.rule != Rule::SequentialConsistency {
        return Ok(());
    }
    if let EventId::At(writer) = fault.writer {
        grounds.push(Assumption::Before(writer, other))?;
    }
    grounds.push(Assumption::Before(other, fault.event))?;
    Ok(())
}

/// What a fault of a candidate rests on: without one of it another witness doesn't have the fault.
pub(crate) fn grounds_of(
    alloc: Global,
    candidate: &Candidate,
    fault: &RuleFault,
) -> Result<Vec<Assumption>, AllocError> {
    let mut grounds = Vec::new(alloc);
    add_own(&mut grounds, fault)?;
    if fault.rule == Rule::Order {
        if let Some(chain) = find_cycle(alloc, candidate)? {
            add_chain(&mut grounds, &chain)?;
        } else if let EventId::At(earlier) = fault.writer {
            grounds.push(Assumption::Before(fault.event, earlier))?;
        }
    } else if let Some(chains) = fault_chains(alloc, candidate, fault)? {
        for chain in chains.as_slice() {
            add_chain(&mut grounds, chain)?;
        }
    }
    add_order(&mut grounds, fault)?;
    Ok(grounds)
}
