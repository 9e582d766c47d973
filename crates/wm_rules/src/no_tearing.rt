//! V4: among the writers of a tear-free read at most one event is tear-free with its range.
ghost use Rattle.std.specs.Prelude.{ℕ, ◌<◌, ◌↔◌, [], ◌∷◌, IsTrue};
ghost use Rattle.wm_event.specs.declared.event.EventId.{EventId};
ghost use Rattle.wm_event.specs.declared.event.EventId.TheVariants.{At};
ghost use Rattle.wm_event.specs.Event.{key_of};
ghost use Rattle.wm_event.specs.Execution.{ReadsFrom};
ghost use Rattle.wm_event.specs.Faults.{BreaksNoTearing};
ghost use Rattle.wm_event.specs.LoggedRun.{execution};
ghost use Rattle.wm_event.specs.Rules.{IsTearFree, IsTearFreeLike};
ghost use Rattle.wm_event.specs.Shape.{ListsEachOnce};
ghost use Rattle.wm_rules.specs.Others.{FindsListed, Tears};
ghost use Rattle.wm_hb.specs.Scan.{Finds, IsEventOf};

use crate::writers::only_writer;
use wm_access::AccessWidth;
use wm_event::{Candidate, Event, EventId, EventKey, Rule, RuleFault};

/// Whether an event is atomic, or plain of 1, 2 or 4 bytes at a multiple of its width.
fn is_tear_free(event: &Event) -> bool
    ensures { IsTrue result ↔ IsTearFree event.now }
{
    event.is_atomic()
        || match event.width {
            AccessWidth::One => true,
            AccessWidth::Two => event.address % 2 == 0,
            AccessWidth::Four => event.address % 4 == 0,
            AccessWidth::Eight => false,
        }
}

/// Whether an id is an event that is tear-free and has the range of another.
fn is_tear_free_like(candidate: &Candidate, event: &Event, id: EventId) -> bool
    ensures { IsTrue result ↔ IsTearFreeLike (execution candidate.now) event.now id }
{
    match candidate.event(id) {
        Some(other) => is_tear_free(other) && other.range() == event.range(),
        None => false,
    }
}

/// Whether an earlier byte of a read has that writer.
pub fn has_earlier(candidate: &Candidate, event: &Event, byte: u8, id: EventId) -> bool
    ensures { IsTrue result ↔ ((j : ℕ) × (j < byte) × ReadsFrom (execution candidate.now) (key_of event.now) j id) }
{
    for (earlier, writer) in candidate.writers(event.key()).iter().enumerate() {
        if earlier < usize::from(byte) && *writer == id {
            return true;
        }
    }
    false
}

/// Whether a tear-free read has two tear-free writers with its range, one at this byte and another before it.
fn is_torn(candidate: &Candidate, event: &Event, byte: u8, writer: EventId, other: EventId) -> bool
    ensures { IsTrue result ↔ BreaksNoTearing (execution candidate.now) (key_of event.now) event.now byte writer other }
{
    is_tear_free(event)
        && other != writer
        && is_tear_free_like(candidate, event, other)
        && is_tear_free_like(candidate, event, writer)
        && has_earlier(candidate, event, byte, other)
}

/// Whether one of its writers tears a read at a byte.
fn is_torn_by_any(candidate: &Candidate, event: &Event, byte: u8, writer: EventId) -> bool
    ensures { (v : EventId) → BreaksNoTearing (execution candidate.now) (key_of event.now) event.now byte writer v → IsTrue result }
{
    for other in candidate.writers(event.key()) {
        if is_torn(candidate, event, byte, writer, *other) {
            return true;
        }
    }
    false
}

/// The first listed event that tears a read at a byte.
fn first_tearing(
    candidate: &Candidate,
    event: &Event,
    byte: u8,
    writer: EventId,
) -> Option<EventKey>
    ensures first { FindsListed candidate.now.witness.order (Tears candidate.now event.now byte writer) result }
    ensures order { ListsEachOnce candidate.now.log candidate.now.witness.order }
{
    let _order = candidate.witness();
    if !is_torn_by_any(candidate, event, byte, writer) {
        return None;
    }
    for key in candidate.witness().order.as_slice() {
        if is_torn(candidate, event, byte, writer, EventId::At(*key)) {
            return Some(*key);
        }
    }
    None
}

/// The first fault at a byte of a read.
fn tearing_fault_at(
    candidate: &Candidate,
    event: &Event,
    byte: u8,
    writer: EventId,
) -> Option<RuleFault>
    requires listed { IsEventOf (execution candidate.now) event.now }
    requires writer { ReadsFrom (execution candidate.now) (key_of event.now) byte writer }
    ensures { Finds (execution candidate.now) (4 ∷ event.now.thread ∷ event.now.number ∷ byte ∷ []) result }
{
    let Some(other) = first_tearing(candidate, event, byte, writer) else {
        return None;
    };
    Some(RuleFault {
        rule: Rule::NoTearing,
        case: 1,
        event: event.key(),
        byte,
        writer,
        other: Some(EventId::At(other)),
    })
}

/// The first fault of an event.
pub fn tearing_fault(candidate: &Candidate, event: &Event) -> Option<RuleFault>
    requires { IsEventOf (execution candidate.now) event.now }
    ensures { Finds (execution candidate.now) (4 ∷ event.now.thread ∷ event.now.number ∷ []) result }
{
    if only_writer(candidate, event).is_some() {
        return None;
    }
    for (byte, writer) in candidate.writers(event.key()).iter().enumerate() {
        let fault = tearing_fault_at(candidate, event, byte as u8, *writer);
        if fault.is_some() {
            return fault;
        }
    }
    None
}
