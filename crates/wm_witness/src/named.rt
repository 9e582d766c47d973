//! Which assumptions are about which read. Nothing rests on it but how soon a search ends.

use crate::assumption::Assumption;
use crate::relation::Relation;
use std::alloc::{AllocError, Global};
use wm_event::EventKey;

/// The assumptions about each read, by their places.
#[derive(Drop)]
pub(crate) struct Named {
    /// For each row an assumption about the writer of a byte of its event.
    bytes: Vec<Option<usize>>,
    /// For each row an assumption that its event takes a byte from another, or none.
    events: Vec<Option<usize>>,
    /// For each assumption another of the same kind about the same event.
    next: Vec<Option<usize>>,
}

/// The read of which an assumption says from where a byte of it is.
fn reader_of_byte(assumption: &Assumption) -> Option<EventKey> {
    match *assumption {
        Assumption::Byte(reader, _, _) => Some(reader),
        Assumption::NotByte(reader, _, _) => Some(reader),
        _ => None,
    }
}

/// The read of which an assumption says from which event it takes a byte, or none.
fn reader_of_event(assumption: &Assumption) -> Option<EventKey> {
    match *assumption {
        Assumption::Takes(reader, _) => Some(reader),
        Assumption::TakesNone(reader, _) => Some(reader),
        _ => None,
    }
}

/// Puts a place before the others about a read. The one that was first.
fn put_first(
    first: &mut [Option<usize>],
    relation: &Relation,
    reader: Option<EventKey>,
    place: usize,
) -> Option<usize> {
    let index = relation.index(reader?)?;
    if index >= first.len() {
        return None;
    }
    let other = first[index];
    first[index] = Some(place);
    other
}

impl Named {
    /// That none is known.
    pub(crate) fn none(alloc: Global) -> Self {
        Named {
            bytes: Vec::new(alloc),
            events: Vec::new(alloc),
            next: Vec::new(alloc),
        }
    }

    /// An assumption about the writer of a byte of the event of a row.
    pub(crate) fn first_of_bytes(&self, index: usize) -> Option<usize> {
        *self.bytes.get(index)?
    }

    /// An assumption that the event of a row takes a byte from another, or none.
    pub(crate) fn first_of_events(&self, index: usize) -> Option<usize> {
        *self.events.get(index)?
    }

    /// The place of another assumption of the same kind about the same event.
    pub(crate) fn after(&self, place: usize) -> Option<usize> {
        *self.next.get(place)?
    }

    /// The assumptions about the events of a relation.
    pub(crate) fn of(
        alloc: Global,
        relation: &Relation,
        assumed: &[Assumption],
    ) -> Result<Self, AllocError> {
        let mut bytes: Vec<Option<usize>> = vec![in alloc; None; relation.rows.len()]?;
        let mut events: Vec<Option<usize>> = vec![in alloc; None; relation.rows.len()]?;
        let mut next = Vec::with_capacity(alloc, assumed.len())?;
        for (place, assumption) in assumed.iter().enumerate() {
            let reader = reader_of_byte(assumption);
            let byte = put_first(bytes.as_mut_slice(), relation, reader, place);
            let reader = reader_of_event(assumption);
            let event = put_first(events.as_mut_slice(), relation, reader, place);
            next.push(if byte.is_some() { byte } else { event })?;
        }
        Ok(Named {
            bytes,
            events,
            next,
        })
    }
}
