//! The events between a read and its writer, if they are few.
ghost use Rattle.std.specs.Prelude.{◌≡◌, ℕ, ◌+◌, ◌<◌, ◌↔◌, IsSome, IsTrue, Some, slice_get};
ghost use Rattle.wm_access.specs.AccessWidth.{bytes_of};
ghost use Rattle.wm_event.specs.declared.event.EventId.TheVariants.{At};
ghost use Rattle.wm_event.specs.Event.{byte_written, key_of};
ghost use Rattle.wm_event.specs.HappensBefore.{HappensBefore as IsBefore};
ghost use Rattle.wm_event.specs.LoggedRun.{execution};
ghost use Rattle.wm_rules.specs.Between.{IfListedAt, IsPlaceAfter, IsPlaceOf};
ghost use Rattle.wm_rules.specs.Near.{IsTrueIfBetweenAt, IsTrueIfNear, IsTrueIfOverlapped};

use wm_event::{Candidate, Event, EventId};
use wm_hb::HappensBefore;

/// Whether a writer happens before the event at a place of the order.
pub fn is_after(
    relation: &HappensBefore,
    writer: EventId,
    start: Option<usize>,
    place: usize,
) -> bool
    requires { IsPlaceOf relation.now.witness.order start writer }
    ensures { IfListedAt relation.now.witness.order place (λ v. IsTrue result ↔ IsBefore (execution relation.now) writer (At v)) }
{
    let _order = relation.candidate().witness();
    match start {
        None => true,
        Some(start) => relation.before_at(start, place),
    }
}

/// The place after a writer's, which is 0 for Init; None if the writer isn't before a read's place.
pub fn place_after(start: Option<usize>, end: usize) -> Option<usize>
    ensures { IsPlaceAfter start end result }
{
    match start {
        None => Some(0),
        Some(start) => { if start < end { Some(start + 1) } else { None } }
    }
}

/// The address after an event's last byte.
fn end_of(event: &Event) -> u64
    ensures { result ≡ event.now.address + bytes_of event.now.width }
{
    u64::from(event.address) + u64::from(event.width.bytes())
}

/// Whether an event writes one of the bytes of another.
fn writes_into(event: &Event, other: &Event) -> bool
    ensures { (k : ℕ) → k < bytes_of event.now.width → IsSome (byte_written other.now (event.now.address + k)) → IsTrue result }
{
    other.writes()
        && u64::from(other.address) < end_of(event)
        && u64::from(event.address) < end_of(other)
}

/// Whether the event at a place of the order writes one of the bytes of another.
fn overlaps(candidate: &Candidate, event: &Event, place: usize) -> bool
    ensures { IsTrueIfOverlapped candidate.now event.now place result }
{
    let order = candidate.witness().order.as_slice();
    let Some(key) = order.get(place) else {
        return false;
    };
    match candidate.event(EventId::At(*key)) {
        None => false,
        Some(other) => writes_into(event, other),
    }
}

/// Whether the event at a place of the order writes one of a read's bytes and happens between it and its writer.
fn is_between_at(
    relation: &HappensBefore,
    event: &Event,
    writer: EventId,
    start: Option<usize>,
    end: usize,
    place: usize,
) -> bool
    requires start { IsPlaceOf relation.now.witness.order start writer }
    requires end { slice_get relation.now.witness.order end ≡ Some (key_of event.now) }
    ensures { IsTrueIfBetweenAt relation.now event.now writer place result }
{
    is_after(relation, writer, start, place)
        && relation.before_at(place, end)
        && overlaps(relation.candidate(), event, place)
}

/// Whether this holds for one of the events from a place up to but not including a read's place.
pub fn is_any_between(
    relation: &HappensBefore,
    event: &Event,
    writer: EventId,
    start: Option<usize>,
    first: usize,
    end: usize,
) -> bool
    requires start { IsPlaceOf relation.now.witness.order start writer }
    requires end { slice_get relation.now.witness.order end ≡ Some (key_of event.now) }
    ensures { IsTrueIfNear relation.now event.now writer first end result }
{
    for place in first..end {
        if is_between_at(relation, event, writer, start, end, place) {
            return true;
        }
    }
    false
}
