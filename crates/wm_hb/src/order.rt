//! V2: the order agrees with each edge of happens-before.
ghost use Rattle.std.specs.Prelude.{◌<◌, ◌↔◌, IsTrue, [], ◌∷◌, Some};
ghost use Rattle.wm_event.specs.declared.event.EventId.TheVariants.{At};
ghost use Rattle.wm_event.specs.Event.{key_of};
ghost use Rattle.wm_event.specs.Execution.{ReadsFrom, place};
ghost use Rattle.wm_event.specs.LoggedRun.{execution};
ghost use Rattle.wm_event.specs.Shape.{IsThere};
ghost use Rattle.wm_hb.specs.Scan.{Finds, IsEventOf};

use crate::writers::synchronizes;
use wm_event::{Candidate, Event, EventId, EventKey, Rule, RuleFault};

/// Whether an event comes before another in the order. Init comes before all others.
pub fn stands_before(candidate: &Candidate, first: EventId, second: EventId) -> bool
    requires first { IsThere candidate.now.log first }
    requires second { IsThere candidate.now.log second }
    ensures { IsTrue result ↔ (place (execution candidate.now) first < place (execution candidate.now) second) }
{
    match (candidate.place(first), candidate.place(second)) {
        (Some(first), Some(second)) => first < second,
        (None, Some(_)) => true,
        (_, None) => false,
    }
}

/// The fault at the edge to an event from the one before it in its thread.
fn thread_fault(candidate: &Candidate, event: &Event) -> Option<RuleFault>
    requires { IsEventOf (execution candidate.now) event.now }
    ensures { Finds (execution candidate.now) (2 ∷ event.now.thread ∷ event.now.number ∷ 0 ∷ 1 ∷ []) result }
{
    let number = event.number.checked_sub(1)?;
    let previous = EventKey {
        thread: event.thread,
        number,
    };
    if stands_before(candidate, EventId::At(previous), EventId::At(event.key())) {
        return None;
    }
    Some(RuleFault {
        rule: Rule::Order,
        case: 1,
        event: event.key(),
        byte: 0,
        writer: EventId::At(previous),
        other: None,
    })
}

/// The fault at the edge to a read from the writer of a byte.
fn writer_fault_at(
    candidate: &Candidate,
    event: &Event,
    byte: u8,
    writer: EventId,
) -> Option<RuleFault>
    requires listed { IsEventOf (execution candidate.now) event.now }
    requires writer { ReadsFrom (execution candidate.now) (key_of event.now) byte writer }
    ensures { Finds (execution candidate.now) (2 ∷ event.now.thread ∷ event.now.number ∷ byte ∷ 2 ∷ []) result }
{
    let EventId::At(key) = writer else {
        return None;
    };
    if !synchronizes(candidate, key, event.key())
        || stands_before(candidate, writer, EventId::At(event.key()))
    {
        return None;
    }
    Some(RuleFault {
        rule: Rule::Order,
        case: 2,
        event: event.key(),
        byte,
        writer,
        other: None,
    })
}

/// The first fault of an event.
pub fn order_fault(candidate: &Candidate, event: &Event) -> Option<RuleFault>
    requires { IsEventOf (execution candidate.now) event.now }
    ensures { Finds (execution candidate.now) (2 ∷ event.now.thread ∷ event.now.number ∷ []) result }
{
    let fault = thread_fault(candidate, event);
    if fault.is_some() {
        return fault;
    }
    for (byte, writer) in candidate.writers(event.key()).iter().enumerate() {
        let fault = writer_fault_at(candidate, event, byte as u8, *writer);
        if fault.is_some() {
            return fault;
        }
    }
    None
}
