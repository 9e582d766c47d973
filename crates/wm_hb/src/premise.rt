//! What a fault of a memory rule rests on.
ghost use Rattle.std.specs.Prelude.{◌≡◌, IfOk};
ghost use Rattle.wm_hb.specs.Premises.{coherence_premises, premises, sequential_premises};

use std::alloc::{AllocError, Global};
use wm_event::{EventId, Rule, RuleFault};
use wm_list::List;

/// A premise: one event happens before another.
#[derive(Clone, Copy)]
pub struct Premise {
    pub from: EventId,
    pub to: EventId,
}

/// The premises of a fault of the third rule.
fn coherence_premises(alloc: Global, fault: &RuleFault) -> Result<List<Premise>, AllocError>
    ensures { IfOk result (λ list. list ≡ coherence_premises fault.now fault.now.other) }
{
    let mut premises = List::new(alloc);
    let event = EventId::At(fault.event);
    let writer = fault.writer;
    match fault.other {
        None => premises.push(Premise {
            from: event,
            to: writer,
        })?,
        Some(other) => {
            premises.push(Premise {
                from: writer,
                to: other,
            })?;
            premises.push(Premise {
                from: other,
                to: event,
            })?;
        }
    }
    Ok(premises)
}

/// The premises of a fault of the fifth rule.
fn sequential_premises(alloc: Global, fault: &RuleFault) -> Result<List<Premise>, AllocError>
    ensures { IfOk result (λ list. list ≡ sequential_premises fault.now fault.now.case fault.now.other) }
{
    let mut premises = List::new(alloc);
    let Some(other) = fault.other else {
        return Ok(premises);
    };
    if fault.case != 2 && fault.case != 3 {
        return Ok(premises);
    }
    let event = EventId::At(fault.event);
    let writer = fault.writer;
    premises.push(Premise {
        from: writer,
        to: event,
    })?;
    premises.push(if fault.case == 2 {
        Premise {
            from: other,
            to: event,
        }
    } else {
        Premise {
            from: writer,
            to: other,
        }
    })?;
    Ok(premises)
}

/// The pairs of events that a fault of a memory rule rests on: the first one of each happens before the second.
pub(crate) fn premises_of(alloc: Global, fault: &RuleFault) -> Result<List<Premise>, AllocError>
    ensures { IfOk result (λ list. list ≡ premises fault.now) }
{
    match fault.rule {
        Rule::Coherence => coherence_premises(alloc, fault),
        Rule::SequentialConsistency => sequential_premises(alloc, fault),
        Rule::WrittenValues | Rule::Order | Rule::NoTearing => Ok(List::new(alloc)),
    }
}
