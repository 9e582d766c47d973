//! Whether two events race.
ghost use Rattle.std.specs.Prelude.{◌≡◌, ◌↔◌, IsTrue, Some, slice_get, true};
ghost use Rattle.wm_event.specs.Event.{key_of};
ghost use Rattle.wm_event.specs.LoggedRun.{execution};
ghost use Rattle.wm_event.specs.Writes.{writes_byte};
ghost use Rattle.wm_event.specs.declared.event.EventKey.{EventKey};
ghost use Rattle.wm_hb.specs.Scan.{IsEventOf};
ghost use Rattle.wm_races.specs.Races.{Accesses, IsWeak};
ghost use Rattle.wm_races.specs.Listing.{FindsPair, IsKeyAt, IsNamed, TellsUnordered};

use wm_event::{Candidate, Event, EventId, EventKey};
use wm_hb::HappensBefore;

/// Two events that race.
#[derive(Clone, Copy)]
pub struct RacingPair {
    /// An event that only reads, or that also writes and comes later in the order than `write`.
    pub event: EventKey,
    /// An event that writes.
    pub write: EventKey,
}

/// Whether one of two events is plain, or their ranges differ.
fn is_weak(first: &Event, second: &Event) -> bool
    ensures { IsTrue result ↔ IsWeak first.now second.now }
{
    !first.is_atomic() || !second.is_atomic() || first.range() != second.range()
}

/// Whether a race of the event at one place with a write at another is named in this order.
fn is_named(event: &Event, place: usize, other: usize) -> bool
    ensures { IsTrue result ↔ IsNamed event.now place other }
{
    other != place && (!event.writes() || other < place)
}

/// Whether neither of the events at two places of the order happens before the other.
fn is_unordered(before: &HappensBefore, place: usize, other: usize) -> bool
    ensures { TellsUnordered before.now place other result }
{
    !before.before_at(place, other) && !before.before_at(other, place)
}

/// The event at a place of the order; None past its end.
pub(crate) fn key_at(candidate: &Candidate, place: usize) -> Option<EventKey>
    ensures { IsKeyAt candidate.now.witness.order place result }
{
    candidate.witness().order.as_slice().get(place).copied()
}

/// The race of the event at a place of the order with the write of a byte at another, if they race and this is the
/// first byte that both access.
pub(crate) fn pair_at(
    before: &HappensBefore,
    event: &Event,
    place: usize,
    address: u64,
    other: usize,
) -> Option<RacingPair>
    requires listed { IsEventOf (execution before.now) event.now }
    requires place { slice_get before.now.witness.order place ≡ Some (key_of event.now) }
    requires byte { Accesses event.now address }
    requires write { (w : EventKey) → slice_get before.now.witness.order other ≡ Some w → writes_byte before.now.log address w ≡ true }
    ensures { FindsPair before.now place address other result }
{
    let candidate = before.candidate();
    let _order = candidate.witness();
    if !is_named(event, place, other) {
        return None;
    }
    let Some(key) = key_at(candidate, other) else {
        return None;
    };
    let Some(write) = candidate.event(EventId::At(key)) else {
        return None;
    };
    let first = u64::from(event.address.max(write.address));
    if address == first && is_weak(event, write) && is_unordered(before, place, other) {
        Some(RacingPair {
            event: event.key(),
            write: key,
        })
    } else {
        None
    }
}
