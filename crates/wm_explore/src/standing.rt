//! What surely stands before each event of a state in the order, where one more is added.
ghost use Rattle.std.specs.Prelude.{◌≡◌, Some, true, IfOk, IsTrue, slice_get};
ghost use Rattle.wm_event.specs.Event.{is_atomic, writes};
ghost use Rattle.wm_explore.specs.Past.{FindsPasts, KnowsPast, WouldSynchronize};
ghost use Rattle.wm_explore.specs.Standing.{AreKnownBy, AreLaterWrites, AreOverwriting, AreRaised, CountsAny, CountsSource, IsLaterWrite, IsRaised, IsReadBefore, KeepsBeforeNext};
ghost use Rattle.wm_explore.specs.Writing.{ListsWriting};

use crate::clock::Clock;
use crate::past::{Past, is_update_like, past_of, stands_after, would_synchronize};
use crate::state::State;
use std::alloc::{AllocError, Global};
use wm_event::{Event, EventId, EventKey, Initial};
use wm_list::List;

/// Whether a source is counted; the initial memory is.
fn counts_source(order: &Clock, source: EventId) -> bool
    ensures { result ≡ true → CountsSource order.now source }
{
    match source {
        EventId::Init => true,
        EventId::At(writer) => order.counts(writer),
    }
}

/// Whether an atomic read of the range of the next event arrived at a place, and takes its lowest byte from a source that is
/// counted. An atomic write that is counted itself stands after such a read.
fn is_read_before(state: &State, next: &Event, place: usize, order: &Clock) -> bool
    ensures { result ≡ true → IsReadBefore state.now next.now place order.now }
{
    let Some(key) = state.arrived.get(place) else {
        return false;
    };
    // What stands before it is known then.
    if order.counts(*key) {
        return false;
    }
    let Some(past) = state.pasts.get(place) else {
        return false;
    };
    let Some(source) = past.source else {
        return false;
    };
    let Some(event) = state.log.event(*key) else {
        return false;
    };
    if !event.is_atomic() {
        return false;
    }
    if event.range() != next.range() {
        return false;
    }
    if !would_synchronize(state, event, source) {
        return false;
    }
    counts_source(order, source)
}

/// What stands before the next event, an atomic write, with what stands before the event that arrived at a place, if that is a
/// read that the next event stands after.
fn with_read(state: &State, next: &Event, place: usize, order: Clock) -> Clock
    requires atomic { IsTrue (is_atomic next.now) }
    requires writing { IsTrue (writes next.now) }
    ensures { KeepsBeforeNext state.now next.now order result }
{
    if !is_read_before(state, next, place, &order) {
        return order;
    }
    match state.pasts.get(place) {
        None => order,
        Some(past) => order.joined(&past.order),
    }
}

/// What stands before the next event, with what stands before the reads that take their bytes from what it overwrites.
pub(crate) fn with_reads(state: &State, next: &Event, order: Clock) -> Clock
    ensures { KeepsBeforeNext state.now next.now order result }
{
    let mut all = order;
    if !next.is_atomic() {
        return all;
    }
    if !next.writes() {
        return all;
    }
    for place in 0..state.arrived.len() {
        all = with_read(state, next, place, all);
    }
    all
}

/// Whether the event that arrived at a place is an atomic write of the range of the next one, and stands after a source.
fn is_later_write(state: &State, next: &Event, source: EventId, place: usize, key: EventKey) -> bool
    requires { slice_get state.now.arrived place ≡ Some key }
    ensures { result ≡ true → IsLaterWrite state.now next.now source place key }
{
    if !is_update_like(state, next, key) {
        return false;
    }
    stands_after(state, place, key, source)
}

/// The atomic writes of the range of the next event that stand after its source. If it takes its lowest byte from there, it
/// stands before them.
fn later_writes(
    alloc: Global,
    state: &State,
    next: &Event,
    source: EventId,
) -> Result<List<EventKey>, AllocError>
    requires atomic { IsTrue (is_atomic next.now) }
    requires like { WouldSynchronize state.now.log next.now source }
    ensures { IfOk result (AreLaterWrites state.now next.now source) }
{
    let mut later = List::new(alloc);
    let arrived = state.arrived.as_slice();
    for place in 0..arrived.len() {
        let key = arrived[place];
        if is_later_write(state, next, source, place, key) {
            later.push(key)?;
        }
    }
    Ok(later)
}

/// The events that the next one surely stands before, since they overwrite what it reads.
pub(crate) fn overwriting(
    alloc: Global,
    state: &State,
    next: &Event,
    source: Option<EventId>,
) -> Result<List<EventKey>, AllocError>
    ensures { IfOk result (AreOverwriting state.now next.now source) }
{
    let Some(source) = source else {
        return Ok(List::new(alloc));
    };
    if !next.is_atomic() {
        return Ok(List::new(alloc));
    }
    if !would_synchronize(state, next, source) {
        return Ok(List::new(alloc));
    }
    later_writes(alloc, state, next, source)
}

/// Whether some of these events is counted.
fn counts_any(order: &Clock, keys: &[EventKey]) -> bool
    ensures { result ≡ true → CountsAny order.now keys.now }
{
    for key in keys {
        if order.counts(*key) {
            return true;
        }
    }
    false
}

/// What surely holds of an event; if one of some events stands before it, then what stands before these does too.
fn raised(past: &Past, keys: &[EventKey], order: &Clock) -> Past
    ensures { IsRaised keys.now order.now past.now result }
{
    if !counts_any(&past.order, keys) {
        return *past;
    }
    Past {
        order: past.order.joined(order),
        ..*past
    }
}

/// The same of each event, with room for one more.
fn all_raised(
    alloc: Global,
    pasts: &[Past],
    keys: &[EventKey],
    order: &Clock,
) -> Result<List<Past>, AllocError>
    ensures { IfOk result (AreRaised keys.now order.now pasts.now) }
{
    let mut all = Vec::with_capacity(alloc, pasts.len().saturating_add(1))?;
    if keys.is_empty() {
        all.extend_from_slice(pasts)?;
        return Ok(List::from_vec(all));
    }
    for past in pasts {
        all.push(raised(past, keys, order))?;
    }
    Ok(List::from_vec(all))
}

/// What surely holds of each event is raised so.
pub(crate) fn raise_all(pasts: &mut List<Past>, keys: &[EventKey], order: &Clock)
    ensures { AreRaised keys.now order.now pasts.old pasts.new }
{
    if keys.is_empty() {
        return;
    }
    for place in 0..pasts.len() {
        let past = pasts.as_slice()[place];
        pasts.set(place, raised(&past, keys, order));
    }
}

/// What surely holds of the events of a state and of the next one, of which so much holds.
fn pasts_with(
    alloc: Global,
    state: &State,
    next: &Event,
    past: Past,
) -> Result<List<Past>, AllocError>
    ensures { IfOk result (AreKnownBy state.now next.now past) }
{
    let past = Past {
        order: with_reads(state, next, past.order),
        ..past
    };
    let keys = overwriting(alloc, state, next, past.source)?;
    let mut pasts = all_raised(alloc, state.pasts.as_slice(), keys.as_slice(), &past.order)?;
    pasts.push(past)?;
    Ok(pasts)
}

/// What surely holds of the events of a state and of the next one; None if no valid execution that keeps the mark of its thread
/// has it there.
pub(crate) fn pasts_of(
    alloc: Global,
    state: &State,
    writing: &[usize],
    initial: &Initial,
    next: &Event,
) -> Result<Option<List<Past>>, AllocError>
    requires { ListsWriting state.now next.now.address next.now.width writing.now }
    ensures { IfOk result (λ found. KnowsPast initial.now state.now → FindsPasts initial.now state.now next.now found) }
{
    match past_of(state, writing, initial, next) {
        None => Ok(None),
        Some(past) => Ok(Some(pasts_with(alloc, state, next, past)?)),
    }
}
