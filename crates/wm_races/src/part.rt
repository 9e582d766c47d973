//! The part of a class of writes that races with an event.
ghost use Rattle.std.specs.Prelude.{◌≡◌, ◌↔◌, ◌<◌, ◌≤◌, Some, IsTrue, length, ltb, slice_get};
ghost use Rattle.wm_event.specs.Event.{key_of};
ghost use Rattle.wm_event.specs.LoggedRun.{execution};
ghost use Rattle.wm_hb.specs.Scan.{IsEventOf};
ghost use Rattle.wm_races.specs.Classes.{IsClass, RisePlaces};
ghost use Rattle.wm_races.specs.Parts.{AreInSequenceAt, AreParted, FindsGroup, IsBeforeAt, IsNotBeforeAt, IsPairWith, IsPart, IsWeakWith};
ghost use Rattle.wm_races.specs.Races.{Accesses};

use crate::classes::{Class, Kind};
use crate::group::Group;
use crate::near::turn_near;
use crate::pair::{RacingPair, key_at};
use wm_event::Event;
use wm_hb::{HappensBefore, Turning};

/// Events in sequence, of which the early ones happen before the event at a place.
#[derive(Clone, Copy)]
struct BeforeRow<'r, 'c, 'i> {
    before: &'r HappensBefore<'c, 'i>,
    places: &'r [usize],
    place: usize,
}

impl Turning for BeforeRow<'_, '_, '_> {
    ghost use Rattle.wm_races.specs.Parts.{AtIndex};

    ghost ready = { λ row i. i < length row.places.now };

    ghost early = { λ row. AtIndex (λ o. IsBeforeAt row.before.now o row.place) row.places.now };

    ghost late = { λ row. AtIndex (λ o. IsNotBeforeAt row.before.now o row.place) row.places.now };

    fn is_late(&self, index: usize) -> bool {
        !self.before.before_at(self.places[index], self.place)
    }
}

/// How many of the events at some places, a prefix of them, happen before the event at another place. Only the time depends
/// on `near`.
fn count_before(before: &HappensBefore, places: &[usize], place: usize, near: usize) -> usize
    requires { AreInSequenceAt before.now places.now }
    ensures { AreParted (λ o. IsBeforeAt before.now o place) (λ o. IsNotBeforeAt before.now o place) places.now result }
{
    let row = BeforeRow {
        before,
        places,
        place,
    };
    turn_near(&row, places.len(), near)
}

/// Events in sequence, of which the late ones are those that the event at a place happens before.
#[derive(Clone, Copy)]
struct AfterRow<'r, 'c, 'i> {
    before: &'r HappensBefore<'c, 'i>,
    places: &'r [usize],
    place: usize,
}

impl Turning for AfterRow<'_, '_, '_> {
    ghost use Rattle.wm_races.specs.Parts.{AtIndex};

    ghost ready = { λ row i. i < length row.places.now };

    ghost early = { λ row. AtIndex (λ o. IsNotBeforeAt row.before.now row.place o) row.places.now };

    ghost late = { λ row. AtIndex (λ o. IsBeforeAt row.before.now row.place o) row.places.now };

    fn is_late(&self, index: usize) -> bool {
        self.before.before_at(self.place, self.places[index])
    }
}

/// How many of the events at some places, a prefix of them, the event at another place does not happen before. Only the
/// time depends on `near`.
fn count_not_after(before: &HappensBefore, places: &[usize], place: usize, near: usize) -> usize
    requires { AreInSequenceAt before.now places.now }
    ensures { AreParted (λ o. IsNotBeforeAt before.now place o) (λ o. IsBeforeAt before.now place o) places.now result }
{
    let row = AfterRow {
        before,
        places,
        place,
    };
    turn_near(&row, places.len(), near)
}

/// How many of the places, a prefix of them, are before another place.
fn count_below(places: &[usize], place: usize) -> usize
    requires { RisePlaces places.now }
    ensures { AreParted (λ o. o < place) (λ o. place ≤ o) places.now result }
{
    places.partition_point(
        |other: &usize| -> bool
            ensures { result ≡ ltb other.now place }
        { *other < place },
    )
}

/// The start and the end of the part of a class that races with the event at a place.
fn part_of(
    before: &HappensBefore,
    event: &Event,
    place: usize,
    address: u64,
    class: &Class,
) -> (usize, usize)
    requires listed { IsEventOf (execution before.now) event.now }
    requires place { slice_get before.now.witness.order place ≡ Some (key_of event.now) }
    requires class { IsClass before.now address class.now }
    ensures { IsPart before.now event.now place class.now.places result.0 result.1 }
{
    let candidate = before.candidate();
    let _log = candidate.log();
    let places = class.places.as_slice();
    let here = count_below(places, place);
    let low = count_before(before, places, place, here);
    if event.writes() {
        (low, here)
    } else {
        (low, count_not_after(before, places, place, here))
    }
}

/// Whether an event or the events of a kind are plain, or their ranges differ.
fn is_weak_with(event: &Event, kind: Kind) -> bool
    ensures { IsTrue result ↔ IsWeakWith event.now kind }
{
    !event.is_atomic() || !kind.atomic || event.range() != kind.range
}

/// The races of the event at a place with a class of writes of a byte, if this is the first byte that both access.
pub(crate) fn group_with(
    before: &HappensBefore,
    event: &Event,
    place: usize,
    address: u64,
    class: &Class,
) -> Option<Group>
    requires listed { IsEventOf (execution before.now) event.now }
    requires place { slice_get before.now.witness.order place ≡ Some (key_of event.now) }
    requires byte { Accesses event.now address }
    requires class { IsClass before.now address class.now }
    ensures { FindsGroup before.now (IsPairWith before.now place address class.now.places) result }
{
    let candidate = before.candidate();
    let _log = candidate.log();
    let kind = class.kind;
    if address != u64::from(event.address.max(kind.range.address))
        || kind.thread == event.thread
        || !is_weak_with(event, kind)
    {
        return None;
    }
    let (low, high) = part_of(before, event, place, address, class);
    if high <= low {
        return None;
    }
    let first = class.places.as_slice()[low];
    match key_at(candidate, first) {
        Some(write) => Some(Group {
            pair: RacingPair {
                event: event.key(),
                write,
            },
            place: first,
            count: (high - low) as u64,
        }),
        None => None,
    }
}
