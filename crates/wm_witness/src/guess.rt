//! A guess of a witness, which the judge looks at. Nothing rests on it but how soon a search ends.

use crate::cells::Cells;
use crate::halt::Halt;
use crate::likely::{Likely, Source};
use crate::turns::Turns;
use std::alloc::{AllocError, Global};
use wm_event::{Candidate, EventId, Witness};
use wm_list::List;

/// In how many rounds at the most what is likely is extended.
const ROUNDS: u32 = 8;

/// The writer of each byte of an access.
fn writers_of(
    alloc: Global,
    cells: &Cells,
    turns: &Turns,
    index: usize,
) -> Result<List<EventId>, AllocError> {
    let mut writers = List::new(alloc);
    let Some(access) = cells.get(index) else {
        return Ok(writers);
    };
    let writer = match turns.sources.get(index) {
        Some(Source::From(place)) => match cells.get(*place) {
            Some(write) => EventId::At(write.key),
            None => EventId::Init,
        },
        _ => EventId::Init,
    };
    if access.reads {
        for _ in 0..access.bytes {
            writers.push(writer)?;
        }
    }
    Ok(writers)
}

/// The witness of some turns.
fn witness_of(alloc: Global, cells: &Cells, turns: &Turns) -> Result<Witness, AllocError> {
    let mut writers = List::new(alloc);
    for thread in 0..cells.threads() {
        let mut list = List::new(alloc);
        for index in cells.start(thread)..cells.start(thread.saturating_add(1)) {
            list.push(writers_of(alloc, cells, turns, index)?)?;
        }
        writers.push(list)?;
    }
    let mut order = List::new(alloc);
    for index in turns.order.as_slice() {
        if let Some(access) = cells.get(*index) {
            order.push(access.key)?;
        }
    }
    Ok(Witness { writers, order })
}

/// A witness that is likely, as if plain reads too were after the writes that they take from, or without that.
fn guess_by(alloc: Global, cells: &Cells, is_causal: bool) -> Result<Witness, Halt> {
    let mut likely = Likely::new(alloc, cells, is_causal)?;
    likely.extend(alloc, ROUNDS)?;
    let turns = Turns::of(alloc, &mut likely)?;
    Ok(witness_of(alloc, cells, &turns)?)
}

/// A witness of the log that is likely to make it valid; None if none is found.
///
/// # Errors
///
/// Only if an allocation fails.
pub(crate) fn guess(
    alloc: Global,
    start: &Candidate,
    is_causal: bool,
) -> Result<Option<Witness>, AllocError> {
    let Some(cells) = Cells::of(alloc, start)? else {
        return Ok(None);
    };
    match guess_by(alloc, &cells, is_causal) {
        Ok(witness) => Ok(Some(witness)),
        Err(Halt::Contradiction) => Ok(None),
        Err(Halt::OutOfMemory) => Err(AllocError),
    }
}
