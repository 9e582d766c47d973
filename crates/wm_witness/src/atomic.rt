//! Which atomic writes of a thread are next to an event. Nothing rests on it but how soon a search ends.

use crate::relation::Relation;
use wm_event::{Candidate, EventId, EventKey, Range};

/// The last atomic write of a range by a thread that is known to stand before an event.
pub(crate) fn last_before(
    start: &Candidate,
    relation: &Relation,
    range: Range,
    thread: usize,
    event: EventKey,
) -> Option<EventKey> {
    if thread >= start.log().threads().len() {
        return None;
    }
    let count = relation.count(relation.index(event)?, thread) as usize;
    if count == 0 {
        return None;
    }
    let writes = start.thread_atomic_writes(thread, range);
    let place = writes.partition_point(|write| write.place < count);
    if place == 0 {
        return None;
    }
    key_at(thread, writes.get(place - 1)?.place)
}

/// The first atomic write of a range by a thread that is known to stand after an event.
pub(crate) fn first_after(
    start: &Candidate,
    relation: &Relation,
    range: Range,
    thread: usize,
    event: EventKey,
) -> Option<EventKey> {
    if thread >= start.log().threads().len() || !relation.ends_after(thread, event) {
        return None;
    }
    let writes = start.thread_atomic_writes(thread, range);
    let place = if thread == event.thread as usize {
        let number = event.number as usize;
        writes.partition_point(|write| write.place <= number)
    } else {
        writes.partition_point(|write| !relation.counts(thread, write.place, event))
    };
    key_at(thread, writes.get(place)?.place)
}

/// The first atomic write of a range by a thread that is known to happen after a writer.
pub(crate) fn first_past(
    start: &Candidate,
    relation: &Relation,
    range: Range,
    thread: usize,
    writer: EventId,
) -> Option<EventKey> {
    if thread >= start.log().threads().len() {
        return None;
    }
    match writer {
        EventId::At(key) => first_after(start, relation, range, thread, key),
        EventId::Init => {
            let writes = start.thread_atomic_writes(thread, range);
            key_at(thread, writes.first()?.place)
        }
    }
}

/// The name of an event, by its thread and its number there.
fn key_at(thread: usize, number: usize) -> Option<EventKey> {
    Some(EventKey {
        thread: u32::try_from(thread).ok()?,
        number: u32::try_from(number).ok()?,
    })
}
