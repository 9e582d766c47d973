//! What surely holds of an event that is added to a state, whichever events wrote the bytes that were read. `writing` are
//! everywhere the places of the events that write a byte of what the next event reads.
ghost use Rattle.std.specs.Prelude.{◌≡◌, ◌↔◌, ◌+◌, ◌<◌, ℕ, List, Some, true, false, IfSome, IsTrue, slice_get};
ghost use Rattle.wm_event.specs.Event.{key_of};
ghost use Rattle.wm_event.specs.Rules.{IsTearFree};
ghost use Rattle.wm_event.specs.declared.event.EventId.{EventId};
ghost use Rattle.wm_event.specs.declared.event.Event.{Event};
ghost use Rattle.wm_event.specs.declared.event.EventId.TheVariants.{At, Init};
ghost use Rattle.wm_explore.specs.Past.{AreApart, AreGainedAt, BreaksMark, CannotBegin, CannotGive, CannotGiveBeside, CannotTake, ComesAfter, FindsCommon, FindsFor, FindsPast, HasNoSource, Hides, IsAfter, IsEarlier, IsLike, IsOvertaken, IsRival, IsTaken, IsThreadPast, IsUpdateLike, KnowsPast, Overwrites, StandsAfter, StandsBetween, TakesNothing, TakesNothingNew, WouldSynchronize, WouldTear, left_by};
ghost use Rattle.wm_explore.specs.Writing.{ListsAt, ListsWriting};

use crate::clock::Clock;
use crate::state::State;
use crate::values::byte_left;
use wm_access::AccessWidth;
use wm_event::{Event, EventId, EventKey, Initial, byte_of};

/// What surely holds of an event.
#[derive(Clone, Copy)]
pub(crate) struct Past {
    /// What happens before it, and it itself.
    pub clock: Clock,
    /// What stands before it in the order, and it itself.
    pub order: Clock,
    /// The source of its lowest byte, if it reads and there is only one that it can be from.
    pub source: Option<EventId>,
}

impl Past {
    ghost use Rattle.std.specs.Prelude.{◌≡◌, None};
    ghost use Rattle.wm_explore.specs.Past.{CountsNothing};

    /// Nothing is known.
    fn unknown() -> Self
        ensures counts { CountsNothing result }
        ensures source { result.source ≡ None }
    {
        Past {
            clock: Clock::zero(),
            order: Clock::zero(),
            source: None,
        }
    }
}

/// What surely holds of the event that arrived at a place, if it is an earlier one of the thread of the next event.
fn earlier(state: &State, place: usize, next: EventKey) -> Option<Past>
    ensures { IfSome result (IsEarlier state.now next) }
{
    let key = state.arrived.get(place)?;
    if key.thread != next.thread {
        return None;
    }
    if key.number >= next.number {
        return None;
    }
    Some(*state.pasts.get(place)?)
}

/// What surely holds of the event before the next one in its thread, if there is one.
fn before_next(state: &State, next: EventKey) -> Past
    ensures { IsThreadPast state.now next result }
{
    let count = state.arrived.len();
    for later in 0..count {
        if let Some(past) = earlier(state, count - 1 - later, next) {
            return past;
        }
    }
    Past::unknown()
}

/// Whether the event that arrived at a place, which is `key`, comes after a source.
fn is_after(state: &State, place: usize, key: EventKey, source: EventId) -> bool
    ensures { result ≡ true → IsAfter state.now place key source }
{
    let EventId::At(writer) = source else {
        return true;
    };
    if writer == key {
        return false;
    }
    match state.pasts.get(place) {
        None => false,
        Some(past) => past.clock.counts(writer),
    }
}

/// Whether the event that arrived at a place surely writes an address after a source and before the next event.
fn hides(state: &State, before: &Clock, place: usize, source: EventId, address: u64) -> bool
    ensures { result ≡ true → Hides state.now before.now place source address }
{
    let Some(key) = state.arrived.get(place) else {
        return false;
    };
    if !before.counts(*key) {
        return false;
    }
    if !is_after(state, place, *key, source) {
        return false;
    }
    byte_left(state, *key, address).is_some()
}

/// Whether some event surely writes an address after a source and before the next event.
fn is_hidden(
    state: &State,
    writing: &[usize],
    before: &Clock,
    source: EventId,
    address: u64,
) -> bool
    ensures { result ≡ true → (place : ℕ) × Hides state.now before.now place source address }
{
    // A later event is more likely to come after the source.
    for later in 0..writing.len() {
        let place = writing[writing.len() - 1 - later];
        if hides(state, before, place, source, address) {
            return true;
        }
    }
    false
}

/// The byte that a source left at an address.
fn left(state: &State, initial: &Initial, source: EventId, address: u64) -> Option<u8>
    ensures { result ≡ left_by initial.now state.now.log source address }
{
    match source {
        EventId::Init => initial.byte(address as usize),
        EventId::At(key) => byte_left(state, key, address),
    }
}

/// Whether the next event can have a byte from a source: the value is the one read, and nothing surely hides it.
fn can_give(
    state: &State,
    writing: &[usize],
    initial: &Initial,
    before: &Clock,
    next: &Event,
    byte: u8,
    source: EventId,
) -> bool
    requires { byte < 8 }
    ensures { result ≡ false → CannotGive initial.now state.now before.now next.now byte source }
{
    let address = u64::from(next.address) + u64::from(byte);
    match left(state, initial, source, address) {
        None => false,
        Some(value) => {
            if value != byte_of(next.read, byte) {
                return false;
            }
            !is_hidden(state, writing, before, source, address)
        }
    }
}

/// Whether an event is atomic, or plain of 1, 2 or 4 bytes at a multiple of its width.
fn is_tear_free(event: &Event) -> bool
    ensures { IsTrue result ↔ IsTearFree event.now }
{
    event.is_atomic()
        || match event.width {
            AccessWidth::One => true,
            AccessWidth::Two => event.address % 2 == 0,
            AccessWidth::Four => event.address % 4 == 0,
            AccessWidth::Eight => false,
        }
}

/// Whether a source is a tear-free event with the range of the next one.
fn is_like(state: &State, next: &Event, source: EventId) -> bool
    ensures { result ≡ true → IsLike state.now.log next.now source }
{
    let EventId::At(key) = source else {
        return false;
    };
    let Some(event) = state.log.event(key) else {
        return false;
    };
    if event.range() != next.range() {
        return false;
    }
    is_tear_free(event)
}

/// Whether the next event synchronizes with a source from which it takes a byte, or the source is the initial memory.
pub(crate) fn would_synchronize(state: &State, next: &Event, source: EventId) -> bool
    ensures { result ≡ true → WouldSynchronize state.now.log next.now source }
{
    let EventId::At(key) = source else {
        return true;
    };
    let Some(event) = state.log.event(key) else {
        return false;
    };
    if !event.is_atomic() {
        return false;
    }
    event.range() == next.range()
}

/// Whether a source is the event that arrived at a place, and comes after another one.
fn comes_after(state: &State, place: usize, source: EventId, other: EventId) -> bool
    ensures { result ≡ true → ComesAfter state.now place source other }
{
    let Some(key) = state.arrived.get(place) else {
        return false;
    };
    if source != EventId::At(*key) {
        return false;
    }
    is_after(state, place, *key, other)
}

/// Whether a source comes after another one, where the next event would synchronize with it: so it writes each byte that the
/// other one writes of those.
fn overwrites(
    state: &State,
    writing: &[usize],
    next: &Event,
    source: EventId,
    other: EventId,
) -> bool
    ensures { result ≡ true → Overwrites state.now next.now source other }
{
    if !next.is_atomic() {
        return false;
    }
    if !would_synchronize(state, next, source) {
        return false;
    }
    for place in writing {
        if comes_after(state, *place, source, other) {
            return true;
        }
    }
    false
}

/// Whether the next event doesn't take bytes from both sources, since it is tear-free.
fn would_tear(state: &State, next: &Event, source: EventId, other: EventId) -> bool
    ensures { result ≡ true → WouldTear state.now.log next.now source other }
{
    if other == source {
        return false;
    }
    if !is_tear_free(next) {
        return false;
    }
    if !is_like(state, next, source) {
        return false;
    }
    is_like(state, next, other)
}

/// Whether the next event doesn't take bytes from both sources.
fn are_apart(
    state: &State,
    writing: &[usize],
    next: &Event,
    source: EventId,
    other: EventId,
) -> bool
    ensures { result ≡ true → AreApart state.now next.now source other }
{
    if would_tear(state, next, source, other) {
        return true;
    }
    if overwrites(state, writing, next, source, other) {
        return true;
    }
    overwrites(state, writing, next, other, source)
}

/// Whether the next event can have a byte from a source where its lowest byte is from `first`.
fn can_give_beside(
    state: &State,
    writing: &[usize],
    initial: &Initial,
    before: &Clock,
    next: &Event,
    first: EventId,
    byte: u8,
    source: EventId,
) -> bool
    requires { byte < 8 }
    ensures { result ≡ false → CannotGiveBeside initial.now state.now before.now next.now first byte source }
{
    if !can_give(state, writing, initial, before, next, byte, source) {
        return false;
    }
    !are_apart(state, writing, next, first, source)
}

/// Whether the next event can have a byte from some source where its lowest byte is from `first`.
fn has_source(
    state: &State,
    writing: &[usize],
    initial: &Initial,
    before: &Clock,
    next: &Event,
    first: EventId,
    byte: u8,
) -> bool
    requires byte { byte < 8 }
    requires writing { ListsAt state.now (next.now.address + byte) writing.now }
    ensures { result ≡ false → HasNoSource initial.now state.now before.now next.now first byte }
{
    if can_give(state, writing, initial, before, next, byte, first) {
        return true;
    }
    let init = EventId::Init;
    if can_give_beside(state, writing, initial, before, next, first, byte, init) {
        return true;
    }
    for place in writing {
        let Some(key) = state.arrived.get(*place) else {
            continue;
        };
        let source = EventId::At(*key);
        if can_give_beside(state, writing, initial, before, next, first, byte, source) {
            return true;
        }
    }
    false
}

/// Whether the event that arrived at a place is an atomic update of the range of the next one.
pub(crate) fn is_update_like(state: &State, next: &Event, key: EventKey) -> bool
    ensures { result ≡ true → IsUpdateLike state.now.log next.now key }
{
    let Some(event) = state.log.event(key) else {
        return false;
    };
    if !event.is_atomic() {
        return false;
    }
    if !event.writes() {
        return false;
    }
    event.range() == next.range()
}

/// Whether the event that arrived at a place is an atomic update of the range of the next one that surely takes its lowest
/// byte from a source.
fn is_rival(state: &State, next: &Event, place: usize, source: EventId) -> bool
    ensures { result ≡ true → IsRival state.now next.now place source }
{
    let Some(past) = state.pasts.get(place) else {
        return false;
    };
    if past.source != Some(source) {
        return false;
    }
    let Some(key) = state.arrived.get(place) else {
        return false;
    };
    is_update_like(state, next, *key)
}

/// Whether an update surely takes its lowest byte from a source, so that the next event, an update of its range, doesn't.
fn is_taken(state: &State, writing: &[usize], next: &Event, source: EventId) -> bool
    ensures { result ≡ true → IsTaken state.now next.now source }
{
    if !next.is_atomic() {
        return false;
    }
    if !next.writes() {
        return false;
    }
    if !would_synchronize(state, next, source) {
        return false;
    }
    for place in writing {
        if is_rival(state, next, *place, source) {
            return true;
        }
    }
    false
}

/// Whether the event that arrived at a place, which is `key`, stands after a source in the order.
pub(crate) fn stands_after(state: &State, place: usize, key: EventKey, source: EventId) -> bool
    ensures { result ≡ true → StandsAfter state.now place key source }
{
    let EventId::At(writer) = source else {
        return true;
    };
    if writer == key {
        return false;
    }
    match state.pasts.get(place) {
        None => false,
        Some(past) => past.order.counts(writer),
    }
}

/// Whether an atomic write of the range of the next event arrived at a place, and stands after a source and before the next
/// event.
fn stands_between(state: &State, order: &Clock, next: &Event, place: usize, source: EventId) -> bool
    ensures { result ≡ true → StandsBetween state.now order.now next.now place source }
{
    let Some(key) = state.arrived.get(place) else {
        return false;
    };
    if !order.counts(*key) {
        return false;
    }
    if !is_update_like(state, next, *key) {
        return false;
    }
    stands_after(state, place, *key, source)
}

/// Whether an atomic write stands between a source and the next event, which so doesn't synchronize with that source.
fn is_overtaken(
    state: &State,
    writing: &[usize],
    order: &Clock,
    next: &Event,
    source: EventId,
) -> bool
    ensures { result ≡ true → IsOvertaken state.now order.now next.now source }
{
    if !next.is_atomic() {
        return false;
    }
    if !would_synchronize(state, next, source) {
        return false;
    }
    for place in writing {
        if stands_between(state, order, next, *place, source) {
            return true;
        }
    }
    false
}

/// Whether a source has the range of the next event, and left all bytes that this reads. Such a source seldom gives only some
/// of them.
fn leaves_all(state: &State, next: &Event, source: EventId) -> bool {
    let EventId::At(key) = source else {
        return false;
    };
    match state.log.event(key) {
        None => false,
        Some(event) => event.written == next.read && event.range() == next.range(),
    }
}

/// Whether the next event can have its lowest byte from a source.
fn can_begin(
    state: &State,
    writing: &[usize],
    initial: &Initial,
    before: &Past,
    next: &Event,
    source: EventId,
) -> bool
    requires { ListsWriting state.now next.now.address next.now.width writing.now }
    ensures { result ≡ false → CannotBegin initial.now state.now before.now next.now source }
{
    if !can_give(state, writing, initial, &before.clock, next, 0, source) {
        return false;
    }
    if is_taken(state, writing, next, source) {
        return false;
    }
    if is_overtaken(state, writing, &before.order, next, source) {
        return false;
    }
    if leaves_all(state, next, source) {
        return true;
    }
    for byte in 1..next.width.bytes() {
        if !has_source(state, writing, initial, &before.clock, next, source, byte) {
            return false;
        }
    }
    true
}

/// What surely holds of the event that arrived at a place, if the next event synchronizes with it by taking its lowest byte from
/// it.
fn gained(state: &State, next: &Event, place: usize, key: EventKey) -> Past
    ensures { AreGainedAt state.now next.now place key result }
{
    if !next.is_atomic() {
        return Past::unknown();
    }
    if !would_synchronize(state, next, EventId::At(key)) {
        return Past::unknown();
    }
    match state.pasts.get(place) {
        None => Past::unknown(),
        Some(past) => *past,
    }
}

/// What surely holds of the next event if its lowest byte is from the initial memory; None if it isn't.
fn gained_initially(
    state: &State,
    writing: &[usize],
    initial: &Initial,
    before: &Past,
    next: &Event,
) -> Option<Past>
    requires { ListsWriting state.now next.now.address next.now.width writing.now }
    ensures { FindsFor initial.now state.now before.now next.now result Init }
{
    if !can_begin(state, writing, initial, before, next, EventId::Init) {
        return None;
    }
    Some(Past {
        source: Some(EventId::Init),
        ..Past::unknown()
    })
}

/// What surely holds of the next event if its lowest byte is from one of the sources before, or from the event that arrived
/// at a place.
fn gained_too(
    state: &State,
    writing: &[usize],
    initial: &Initial,
    before: &Past,
    next: &Event,
    common: Option<Past>,
    place: usize,
    key: EventKey,
) -> Option<Past>
    requires writing { ListsWriting state.now next.now.address next.now.width writing.now }
    requires arrived { slice_get state.now.arrived place ≡ Some key }
    ensures here { FindsFor initial.now state.now before.now next.now result (At key) }
    ensures kept { (w : EventId) → FindsFor initial.now state.now before.now next.now common w →
        FindsFor initial.now state.now before.now next.now result w }
{
    if !can_begin(state, writing, initial, before, next, EventId::At(key)) {
        return common;
    }
    let gained = gained(state, next, place, key);
    match common {
        None => Some(Past {
            source: Some(EventId::At(key)),
            ..gained
        }),
        Some(other) => Some(Past {
            clock: other.clock.met(&gained.clock),
            order: other.order.met(&gained.order),
            source: None,
        }),
    }
}

/// What surely holds of the next event, from whichever source its lowest byte is; None if it is from none.
fn common_past(
    state: &State,
    writing: &[usize],
    initial: &Initial,
    before: &Past,
    next: &Event,
) -> Option<Past>
    requires { ListsWriting state.now next.now.address next.now.width writing.now }
    ensures { FindsCommon initial.now state.now before.now next.now result }
{
    let mut common = gained_initially(state, writing, initial, before, next);
    for place in writing {
        let Some(key) = state.arrived.get(*place) else {
            continue;
        };
        common = gained_too(state, writing, initial, before, next, common, *place, *key);
    }
    common
}

/// Whether the next event can take a byte from a source: each other byte has a source beside that.
fn can_take(
    state: &State,
    writing: &[usize],
    initial: &Initial,
    before: &Clock,
    next: &Event,
    byte: u8,
    source: EventId,
) -> bool
    requires byte { byte < 8 }
    requires writing { ListsWriting state.now next.now.address next.now.width writing.now }
    ensures { result ≡ false → CannotTake initial.now state.now before.now next.now byte source }
{
    if !can_give(state, writing, initial, before, next, byte, source) {
        return false;
    }
    if leaves_all(state, next, source) {
        return true;
    }
    for other in 0..next.width.bytes() {
        if !has_source(state, writing, initial, before, next, source, other) {
            return false;
        }
    }
    true
}

/// Whether the next event can take some byte from a source.
fn can_take_any(
    state: &State,
    writing: &[usize],
    initial: &Initial,
    before: &Clock,
    next: &Event,
    source: EventId,
) -> bool
    requires { ListsWriting state.now next.now.address next.now.width writing.now }
    ensures { result ≡ false → TakesNothing initial.now state.now before.now next.now source }
{
    for byte in 0..next.width.bytes() {
        if can_take(state, writing, initial, before, next, byte, source) {
            return true;
        }
    }
    false
}

/// Whether the next event can take some byte from an event that is not among the first `count` that arrived.
fn can_take_new(
    state: &State,
    writing: &[usize],
    initial: &Initial,
    before: &Clock,
    next: &Event,
    count: usize,
) -> bool
    requires { ListsWriting state.now next.now.address next.now.width writing.now }
    ensures { result ≡ false → TakesNothingNew initial.now state.now before.now next.now count }
{
    for place in writing {
        if *place < count {
            continue;
        }
        let Some(key) = state.arrived.get(*place) else {
            continue;
        };
        if can_take_any(state, writing, initial, before, next, EventId::At(*key)) {
            return true;
        }
    }
    false
}

/// Whether the next event can be what the mark of its thread asks for, if there is one.
fn can_keep_mark(
    state: &State,
    writing: &[usize],
    initial: &Initial,
    before: &Clock,
    next: &Event,
) -> bool
    requires { ListsWriting state.now next.now.address next.now.width writing.now }
    ensures { result ≡ false → BreaksMark initial.now state.now before.now next.now }
{
    match state.mark(next.thread as usize) {
        None => true,
        Some(count) => can_take_new(state, writing, initial, before, next, count),
    }
}

/// What surely holds of an event that is added to a state, by the order of its thread.
pub(crate) fn past_of_write(state: &State, next: EventKey) -> Past
    ensures { (initial : List ℕ) (e : Event) → key_of e ≡ next → KnowsPast initial state.now → FindsPast initial state.now e (Some result) }
{
    let before = before_next(state, next);
    Past {
        clock: before.clock.with(next),
        order: before.order.with(next),
        source: None,
    }
}

/// What surely holds of an event that is added to a state; None if no valid execution that keeps the mark of its thread has
/// it there.
pub(crate) fn past_of(
    state: &State,
    writing: &[usize],
    initial: &Initial,
    next: &Event,
) -> Option<Past>
    requires { ListsWriting state.now next.now.address next.now.width writing.now }
    ensures { KnowsPast initial.now state.now → FindsPast initial.now state.now next.now result }
{
    if !next.reads() {
        return Some(past_of_write(state, next.key()));
    }
    let before = before_next(state, next.key());
    if !can_keep_mark(state, writing, initial, &before.clock, next) {
        return None;
    }
    match common_past(state, writing, initial, &before, next) {
        None => None,
        Some(common) => Some(Past {
            clock: before.clock.joined(&common.clock).with(next.key()),
            order: before.order.joined(&common.order).with(next.key()),
            source: common.source,
        }),
    }
}
