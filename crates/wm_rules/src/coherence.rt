//! V3: a read doesn't happen before its writer, and no write of the byte happens between them.
ghost use Rattle.std.specs.Prelude.{◌≡◌, ◌+◌, ◌<◌, ◌↔◌, [], ◌∷◌, IsTrue, None, Some, slice_get};
ghost use Rattle.wm_event.specs.declared.event.EventId.TheVariants.{At};
ghost use Rattle.wm_event.specs.Event.{key_of};
ghost use Rattle.wm_event.specs.Execution.{ReadsFrom};
ghost use Rattle.wm_event.specs.LoggedRun.{execution};
ghost use Rattle.wm_event.specs.Shape.{IsThere, ListsEachOnce};
ghost use Rattle.wm_event.specs.declared.event.EventKey.{EventKey};
ghost use Rattle.wm_rules.specs.Between.{FindsAt, IsPlaceOf};
ghost use Rattle.wm_rules.specs.Near.{IsTrueIfIncoherent};
ghost use Rattle.wm_rules.specs.Others.{FindsListed, IsWrittenBetween, WritesBetween};
ghost use Rattle.wm_hb.specs.Scan.{Finds, IsEventOf};

use crate::by_thread::earliest_between;
use crate::near::{is_after, is_any_between, place_after};
use crate::writers::only_writer;
use wm_event::{Event, EventId, EventKey, Rule, RuleFault};
use wm_hb::{HappensBefore, part_between};

/// Up to this number, writes are looked at one after the other; if there are more, each thread's are searched.
const FEW: usize = 64;

/// If at most this number of events lie between a read and its writer, they are checked before the writes of each byte.
const NEAR: usize = 32;

/// Whether an event writes a byte of a read and happens between it and the byte's writer.
pub fn is_written_between(
    relation: &HappensBefore,
    event: &Event,
    byte: u8,
    writer: EventId,
    other: EventId,
) -> bool
    ensures { IsTrue result ↔ IsWrittenBetween (execution relation.now) (key_of event.now) event.now byte writer other }
{
    let address = u64::from(event.address) + u64::from(byte);
    relation.candidate().byte_by(other, address).is_some()
        && relation.before(writer, other)
        && relation.before(other, EventId::At(event.key()))
}

/// The event at a place of the order, if it writes a byte of a read and happens between it and the byte's writer.
fn written_between_at(
    relation: &HappensBefore,
    event: &Event,
    byte: u8,
    writer: EventId,
    start: Option<usize>,
    end: usize,
    place: usize,
) -> Option<EventKey>
    requires start { IsPlaceOf relation.now.witness.order start writer }
    requires end { slice_get relation.now.witness.order end ≡ Some (key_of event.now) }
    ensures { FindsAt relation.now.witness.order place (WritesBetween relation.now event.now byte writer) result }
{
    if !is_after(relation, writer, start, place) {
        return None;
    }
    if !relation.before_at(place, end) {
        return None;
    }
    let candidate = relation.candidate();
    let order = candidate.witness().order.as_slice();
    let Some(key) = order.get(place) else {
        return None;
    };
    if is_written_between(relation, event, byte, writer, EventId::At(*key)) {
        Some(*key)
    } else {
        None
    }
}

/// The first listed write of a byte that happens between a read and its writer.
fn first_between(
    relation: &HappensBefore,
    event: &Event,
    byte: u8,
    writer: EventId,
) -> Option<EventKey>
    requires listed { IsEventOf (execution relation.now) event.now }
    requires there { IsThere relation.now.log writer }
    ensures first { FindsListed relation.now.witness.order (WritesBetween relation.now event.now byte writer) result }
    ensures order { ListsEachOnce relation.now.log relation.now.witness.order }
{
    let candidate = relation.candidate();
    let _order = candidate.witness();
    let Some(end) = candidate.place(EventId::At(event.key())) else {
        return None;
    };
    let start = candidate.place(writer);
    let writes = candidate.byte_writes(u64::from(event.address) + u64::from(byte));
    let part = part_between(writes, start.unwrap_or(0), end);
    if part.len() > FEW {
        return earliest_between(relation, event, byte, writer);
    }
    for write in part {
        let found = written_between_at(relation, event, byte, writer, start, end, write.place);
        if found.is_some() {
            return found;
        }
    }
    None
}

/// The fault of a read that happens before the writer of a byte.
fn future_fault_at(
    relation: &HappensBefore,
    event: &Event,
    byte: u8,
    writer: EventId,
) -> Option<RuleFault>
    requires listed { IsEventOf (execution relation.now) event.now }
    requires writer { ReadsFrom (execution relation.now) (key_of event.now) byte writer }
    ensures { Finds (execution relation.now) (3 ∷ event.now.thread ∷ event.now.number ∷ byte ∷ 1 ∷ []) result }
{
    if !relation.before(EventId::At(event.key()), writer) {
        return None;
    }
    Some(RuleFault {
        rule: Rule::Coherence,
        case: 1,
        event: event.key(),
        byte,
        writer,
        other: None,
    })
}

/// The fault of a byte that is written between a read and its writer.
fn between_fault_at(
    relation: &HappensBefore,
    event: &Event,
    byte: u8,
    writer: EventId,
) -> Option<RuleFault>
    requires listed { IsEventOf (execution relation.now) event.now }
    requires writer { ReadsFrom (execution relation.now) (key_of event.now) byte writer }
    requires there { IsThere relation.now.log writer }
    ensures { Finds (execution relation.now) (3 ∷ event.now.thread ∷ event.now.number ∷ byte ∷ 2 ∷ []) result }
{
    let Some(other) = first_between(relation, event, byte, writer) else {
        return None;
    };
    Some(RuleFault {
        rule: Rule::Coherence,
        case: 2,
        event: event.key(),
        byte,
        writer,
        other: Some(EventId::At(other)),
    })
}

/// The first fault at a byte of a read.
fn coherence_fault_at(
    relation: &HappensBefore,
    event: &Event,
    byte: u8,
    writer: EventId,
) -> Option<RuleFault>
    requires listed { IsEventOf (execution relation.now) event.now }
    requires writer { ReadsFrom (execution relation.now) (key_of event.now) byte writer }
    requires there { IsThere relation.now.log writer }
    ensures { Finds (execution relation.now) (3 ∷ event.now.thread ∷ event.now.number ∷ byte ∷ []) result }
{
    let fault = future_fault_at(relation, event, byte, writer);
    if fault.is_some() {
        return fault;
    }
    between_fault_at(relation, event, byte, writer)
}

/// Whether a read may break the rule at a byte with this writer. It looks at the events between the two if they are few.
fn may_be_incoherent(relation: &HappensBefore, event: &Event, writer: EventId) -> bool
    requires listed { IsEventOf (execution relation.now) event.now }
    requires there { IsThere relation.now.log writer }
    ensures { IsTrueIfIncoherent relation.now event.now writer result }
{
    let candidate = relation.candidate();
    let _log = candidate.log();
    let _order = candidate.witness();
    let Some(end) = candidate.place(EventId::At(event.key())) else {
        return true;
    };
    let start = candidate.place(writer);
    let Some(first) = place_after(start, end) else {
        return true;
    };
    if !is_after(relation, writer, start, end) {
        return false;
    }
    end - first > NEAR || is_any_between(relation, event, writer, start, first, end)
}

/// Whether a quick check shows that a read has no fault.
fn is_surely_coherent(relation: &HappensBefore, event: &Event) -> bool
    requires { IsEventOf (execution relation.now) event.now }
    ensures { IsTrue result → Finds (execution relation.now) (3 ∷ event.now.thread ∷ event.now.number ∷ []) None }
{
    match only_writer(relation.candidate(), event) {
        None => false,
        Some(writer) => !may_be_incoherent(relation, event, writer),
    }
}

/// The first fault of an event.
pub fn coherence_fault(relation: &HappensBefore, event: &Event) -> Option<RuleFault>
    requires { IsEventOf (execution relation.now) event.now }
    ensures { Finds (execution relation.now) (3 ∷ event.now.thread ∷ event.now.number ∷ []) result }
{
    if is_surely_coherent(relation, event) {
        return None;
    }
    let writers = relation.candidate().writers(event.key());
    for (byte, writer) in writers.iter().enumerate() {
        let fault = coherence_fault_at(relation, event, byte as u8, *writer);
        if fault.is_some() {
            return fault;
        }
    }
    None
}
