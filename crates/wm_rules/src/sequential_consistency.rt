//! V5: in three cases no atomic write is between a read and its writer in the order.
ghost use Rattle.std.specs.Prelude.{◌≡◌, ◌<◌, ◌↔◌, [], ◌∷◌, ℕ, IsTrue, None, Some};
ghost use Rattle.wm_event.specs.declared.event.EventId.{EventId};
ghost use Rattle.wm_event.specs.Execution.{event_at};
ghost use Rattle.wm_event.specs.declared.event.EventId.TheVariants.{At};
ghost use Rattle.wm_event.specs.Event.{key_of, range_of};
ghost use Rattle.wm_event.specs.Execution.{ReadsFrom};
ghost use Rattle.wm_event.specs.Faults.{BreaksSequentialConsistency};
ghost use Rattle.wm_event.specs.LoggedRun.{execution};
ghost use Rattle.wm_event.specs.Rules.{HasRange, IsAtomicWrite, Overtakes};
ghost use Rattle.wm_event.specs.Shape.{IsThere, ListsEachOnce};
ghost use Rattle.wm_rules.specs.Cases.{overtaking_number};
ghost use Rattle.wm_rules.specs.Near.{IsTrueIfInconsistent};
ghost use Rattle.wm_rules.specs.Others.{FindsListed, IsOutOfOrder};
ghost use Rattle.wm_rules.specs.Overtaking.{IsRangeBy};
ghost use Rattle.wm_hb.specs.Scan.{Finds, IsEventOf};

use crate::cases::{OVERTAKING_CASES, OvertakingCase};
use crate::near::place_after;
use crate::no_tearing::has_earlier;
use crate::overtaking::earliest_out_of_order;
use crate::writers::only_writer;
use wm_event::{Candidate, Event, EventId, EventKey, Range, Rule, RuleFault};
use wm_hb::{HappensBefore, part_between, stands_before, synchronizes};

/// Whether an id is an event that is atomic and writes.
fn is_atomic_write(candidate: &Candidate, id: EventId) -> bool
    ensures { IsTrue result ↔ IsAtomicWrite (execution candidate.now) id }
{
    match candidate.event(id) {
        Some(event) => event.is_atomic() && event.writes(),
        None => false,
    }
}

/// Whether an id is an event with the range of another.
fn has_range(candidate: &Candidate, id: EventId, event: &Event) -> bool
    ensures { IsTrue result ↔ HasRange (execution candidate.now) id event.now }
{
    match candidate.event(id) {
        Some(other) => other.range() == event.range(),
        None => false,
    }
}

/// The first case: the writer synchronizes with the read, whose range the other write has.
fn is_synchronized(candidate: &Candidate, event: &Event, writer: EventId, other: EventId) -> bool
    ensures { IsTrue result ↔ Overtakes (execution candidate.now) writer other (key_of event.now) event.now 1 }
{
    match writer {
        EventId::Init => false,
        EventId::At(key) => {
            synchronizes(candidate, key, event.key()) && has_range(candidate, other, event)
        }
    }
}

/// The second case: both writes happen before the read, and the writer is atomic with the other write's range.
fn is_written_over(relation: &HappensBefore, event: &Event, writer: EventId, other: EventId) -> bool
    ensures { IsTrue result ↔ Overtakes (execution relation.now) writer other (key_of event.now) event.now 2 }
{
    match relation.candidate().event(writer) {
        None => false,
        Some(written) => {
            written.is_atomic()
                && has_range(relation.candidate(), other, written)
                && relation.before(writer, EventId::At(event.key()))
                && relation.before(other, EventId::At(event.key()))
        }
    }
}

/// The third case: the writer happens before the read and the other write, which has the atomic read's range.
fn is_read_past(relation: &HappensBefore, event: &Event, writer: EventId, other: EventId) -> bool
    ensures { IsTrue result ↔ Overtakes (execution relation.now) writer other (key_of event.now) event.now 3 }
{
    event.is_atomic()
        && has_range(relation.candidate(), other, event)
        && relation.before(writer, EventId::At(event.key()))
        && relation.before(writer, other)
}

/// Whether a case of the rule forbids that a write is between a read and its writer.
fn overtakes(
    relation: &HappensBefore,
    event: &Event,
    writer: EventId,
    other: EventId,
    case: OvertakingCase,
) -> bool
    ensures { IsTrue result ↔ Overtakes (execution relation.now) writer other (key_of event.now) event.now (overtaking_number case) }
{
    match case {
        OvertakingCase::Synchronized => {
            is_synchronized(relation.candidate(), event, writer, other)
        }
        OvertakingCase::WrittenOver => is_written_over(relation, event, writer, other),
        OvertakingCase::ReadPast => is_read_past(relation, event, writer, other),
    }
}

/// Whether an atomic write is between a read and its writer although a case of the rule forbids it.
pub fn is_out_of_order(
    relation: &HappensBefore,
    event: &Event,
    writer: EventId,
    other: EventId,
    case: OvertakingCase,
) -> bool
    requires listed { IsEventOf (execution relation.now) event.now }
    requires writer { IsThere relation.now.log writer }
    requires other { IsThere relation.now.log other }
    ensures { IsTrue result
        ↔ BreaksSequentialConsistency (execution relation.now) (key_of event.now) event.now writer other (overtaking_number case) }
{
    is_atomic_write(relation.candidate(), other)
        && stands_before(relation.candidate(), writer, other)
        && stands_before(relation.candidate(), other, EventId::At(event.key()))
        && overtakes(relation, event, writer, other, case)
}

/// Whether a writer of a read can be overtaken by a case of the rule.
fn may_be_overtaken(
    relation: &HappensBefore,
    event: &Event,
    writer: EventId,
    case: OvertakingCase,
) -> bool
    ensures { (v : EventId) → Overtakes (execution relation.now) writer v (key_of event.now) event.now (overtaking_number case)
        → IsTrue result }
{
    match case {
        OvertakingCase::Synchronized => match writer {
            EventId::Init => false,
            EventId::At(key) => synchronizes(relation.candidate(), key, event.key()),
        },
        OvertakingCase::WrittenOver => match relation.candidate().event(writer) {
            None => false,
            Some(written) => {
                written.is_atomic() && relation.before(writer, EventId::At(event.key()))
            }
        },
        OvertakingCase::ReadPast => {
            event.is_atomic() && relation.before(writer, EventId::At(event.key()))
        }
    }
}

/// The range that the other write has in a case of the rule.
pub fn range_by_case(
    candidate: &Candidate,
    event: &Event,
    writer: EventId,
    case: OvertakingCase,
) -> Range
    ensures { IsRangeBy (execution candidate.now) event.now writer case result }
{
    if case != OvertakingCase::WrittenOver {
        return event.range();
    }
    match candidate.event(writer) {
        Some(written) => written.range(),
        None => event.range(),
    }
}

/// The first listed write that is between a read and its writer although a case of the rule forbids it.
fn first_out_of_order(
    relation: &HappensBefore,
    event: &Event,
    writer: EventId,
    case: OvertakingCase,
) -> Option<EventKey>
    requires listed { IsEventOf (execution relation.now) event.now }
    requires writer { IsThere relation.now.log writer }
    ensures first { FindsListed relation.now.witness.order (IsOutOfOrder relation.now event.now writer (overtaking_number case)) result }
    ensures order { ListsEachOnce relation.now.log relation.now.witness.order }
{
    let candidate = relation.candidate();
    let _order = candidate.witness();
    if !may_be_overtaken(relation, event, writer, case) {
        return None;
    }
    earliest_out_of_order(relation, event, writer, case)
}

/// The fault at a byte of a read, by a case of the rule.
fn fault_of_case(
    relation: &HappensBefore,
    event: &Event,
    byte: u8,
    writer: EventId,
    case: OvertakingCase,
) -> Option<RuleFault>
    requires listed { IsEventOf (execution relation.now) event.now }
    requires writer { ReadsFrom (execution relation.now) (key_of event.now) byte writer }
    requires there { IsThere relation.now.log writer }
    ensures { Finds (execution relation.now) (5 ∷ event.now.thread ∷ event.now.number ∷ byte ∷ overtaking_number case ∷ []) result }
{
    let Some(other) = first_out_of_order(relation, event, writer, case) else {
        return None;
    };
    Some(RuleFault {
        rule: Rule::SequentialConsistency,
        case: case.number(),
        event: event.key(),
        byte,
        writer,
        other: Some(EventId::At(other)),
    })
}

/// The first fault at a byte of a read.
fn consistency_fault_at(
    relation: &HappensBefore,
    event: &Event,
    byte: u8,
    writer: EventId,
) -> Option<RuleFault>
    requires listed { IsEventOf (execution relation.now) event.now }
    requires writer { ReadsFrom (execution relation.now) (key_of event.now) byte writer }
    requires there { IsThere relation.now.log writer }
    ensures { Finds (execution relation.now) (5 ∷ event.now.thread ∷ event.now.number ∷ byte ∷ []) result }
{
    for case in OVERTAKING_CASES {
        let fault = fault_of_case(relation, event, byte, writer, case);
        if fault.is_some() {
            return fault;
        }
    }
    None
}

/// Whether a read or its writer is atomic. If neither is, no write overtakes the writer.
fn can_be_overtaken(candidate: &Candidate, event: &Event, writer: EventId) -> bool
    ensures { (v : EventId) (c : ℕ) → Overtakes (execution candidate.now) writer v (key_of event.now) event.now c → IsTrue result }
{
    if event.is_atomic() {
        return true;
    }
    match candidate.event(writer) {
        None => false,
        Some(written) => written.is_atomic(),
    }
}

/// Whether the writer of a read has its range, if it is a listed event.
fn has_range_if_listed(candidate: &Candidate, event: &Event, writer: EventId) -> bool
    ensures { IsTrue result → (f : Event) → event_at (execution candidate.now) writer ≡ Some f → range_of event.now ≡ range_of f }
{
    match candidate.event(writer) {
        None => true,
        Some(written) => written.range() == event.range(),
    }
}

/// Whether a read may break the rule at a byte with this writer. It looks for any atomic write between the two.
fn may_be_inconsistent(relation: &HappensBefore, event: &Event, writer: EventId) -> bool
    requires { IsThere relation.now.log writer }
    ensures { IsTrueIfInconsistent relation.now event.now writer result }
{
    let candidate = relation.candidate();
    let _order = candidate.witness();
    if !can_be_overtaken(candidate, event, writer) {
        return false;
    }
    if !has_range_if_listed(candidate, event, writer) {
        return true;
    }
    let Some(end) = candidate.place(EventId::At(event.key())) else {
        return true;
    };
    let Some(first) = place_after(candidate.place(writer), end) else {
        return true;
    };
    let writes = candidate.atomic_writes(event.range());
    !part_between(writes, first, end).is_empty()
}

/// Whether a quick check shows that a read has no fault.
fn is_surely_consistent(relation: &HappensBefore, event: &Event) -> bool
    requires { IsEventOf (execution relation.now) event.now }
    ensures { IsTrue result → Finds (execution relation.now) (5 ∷ event.now.thread ∷ event.now.number ∷ []) None }
{
    match only_writer(relation.candidate(), event) {
        None => false,
        Some(writer) => !may_be_inconsistent(relation, event, writer),
    }
}

/// The first fault of an event. A writer of several bytes is checked only once.
pub fn consistency_fault(relation: &HappensBefore, event: &Event) -> Option<RuleFault>
    requires { IsEventOf (execution relation.now) event.now }
    ensures { Finds (execution relation.now) (5 ∷ event.now.thread ∷ event.now.number ∷ []) result }
{
    if is_surely_consistent(relation, event) {
        return None;
    }
    let writers = relation.candidate().writers(event.key());
    for (byte, writer) in writers.iter().enumerate() {
        if !has_earlier(relation.candidate(), event, byte as u8, *writer) {
            let fault = consistency_fault_at(relation, event, byte as u8, *writer);
            if fault.is_some() {
                return fault;
            }
        }
    }
    None
}
