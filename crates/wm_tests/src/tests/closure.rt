//! Happens-before beside the plain closure of its edges.
use super::calls::{candidate, read};
use super::documents::{ALLOWED, BROKEN};
use super::{same, same_in};
use std::alloc::{AllocError, Global};
use std::process::Abort;
use std::test::Fail;
use std::thread::Threads;
use wm_event::{Candidate, EventId, EventKey, Initial};
use wm_hb::{HappensBefore, Ordered, synchronizes};

/// Whether there is an edge of happens-before between two ids.
fn has_edge(candidate: &Candidate, from: EventId, to: EventId) -> bool {
    match (from, to) {
        (_, EventId::Init) => false,
        (EventId::Init, EventId::At(_)) => candidate.event(to).is_some(),
        (EventId::At(a), EventId::At(b)) => {
            let there = candidate.event(from).is_some() && candidate.event(to).is_some();
            there && a.thread == b.thread && a.number < b.number || synchronizes(candidate, a, b)
        }
    }
}

/// Whether a row marks a place.
fn marks(row: &[bool], place: usize) -> bool {
    row.get(place).copied().unwrap_or(false)
}

/// The row of the ids to which there is an edge from one.
fn edges_from(
    alloc: Global,
    candidate: &Candidate,
    ids: &[EventId],
    from: EventId,
) -> Result<Vec<bool>, AllocError> {
    let mut row = Vec::new(alloc);
    for to in ids {
        row.push(has_edge(candidate, from, *to))?;
    }
    Ok(row)
}

/// A row with what one step more leads to.
fn joined(alloc: Global, row: &[bool], edges: &[Vec<bool>]) -> Result<Vec<bool>, AllocError> {
    let mut next = Vec::new(alloc);
    for to in 0..row.len() {
        let mut is_reached = marks(row, to);
        for (via, step) in edges.iter().enumerate() {
            is_reached = is_reached || marks(row, via) && marks(step.as_slice(), to);
        }
        next.push(is_reached)?;
    }
    Ok(next)
}

/// The row of the ids to which chains lead from one: steps are joined again and again until nothing is new.
fn reached_from(
    alloc: Global,
    from: &[bool],
    edges: &[Vec<bool>],
) -> Result<Vec<bool>, AllocError> {
    let mut row = from.to_vec(alloc)?;
    for _ in 0..from.len() {
        let next = joined(alloc, row.as_slice(), edges)?;
        if next.as_slice() == row.as_slice() {
            return Ok(row);
        }
        row = next;
    }
    Ok(row)
}

/// Init, the events in the order, and one id that isn't there.
fn ids_of(alloc: Global, order: &[EventKey]) -> Result<Vec<EventId>, AllocError> {
    let mut ids = Vec::new(alloc);
    ids.push(EventId::Init)?;
    for key in order {
        ids.push(EventId::At(*key))?;
    }
    ids.push(EventId::At(EventKey {
        thread: 99,
        number: 0,
    }))?;
    Ok(ids)
}

/// The rows of the edges from each id.
fn edges_of(
    alloc: Global,
    candidate: &Candidate,
    ids: &[EventId],
) -> Result<Vec<Vec<bool>>, AllocError> {
    let mut edges = Vec::new(alloc);
    for from in ids {
        edges.push(edges_from(alloc, candidate, ids, *from)?)?;
    }
    Ok(edges)
}

/// Compares what an id happens before with the row of the ids that it reaches.
fn agrees_from<R: Abort>(
    rt: &R,
    relation: &HappensBefore,
    start: EventId,
    ids: &[EventId],
    row: &[bool],
) {
    for (to, id) in ids.iter().enumerate() {
        let is_before = relation.before(start, *id);
        same_in(rt, &(start, *id), is_before, marks(row, to));
    }
}

/// Compares what happens before what with the plain closure of the edges, for all pairs.
fn agrees<R: Abort + AllocGlobal>(
    rt: &R,
    relation: &HappensBefore,
    ids: &[EventId],
    edges: &[Vec<bool>],
) -> Result<(), AllocError> {
    for (from, step) in edges.iter().enumerate() {
        let row = reached_from(rt.alloc(), step.as_slice(), edges)?;
        let start = ids.get(from).copied().unwrap_or(EventId::Init);
        agrees_from(rt, relation, start, ids, row.as_slice());
    }
    Ok(())
}

/// Compares what happens before what in a candidate with the plain closure.
fn agrees_over<R: Abort + AllocGlobal>(
    rt: &R,
    candidate: &Candidate,
    relation: &HappensBefore,
) -> Result<(), AllocError> {
    let ids = ids_of(rt.alloc(), candidate.witness().order.as_slice())?;
    let edges = edges_of(rt.alloc(), candidate, ids.as_slice())?;
    agrees(rt, relation, ids.as_slice(), edges.as_slice())
}

/// Compares what happens before what in a candidate with the plain closure. Whether the order agrees.
pub(super) fn compares<R: Abort + AllocGlobal + Threads + Sync>(
    rt: &R,
    candidate: &Candidate,
) -> Result<bool, AllocError> {
    let Ok(ordered) = Ordered::of(candidate) else {
        return Ok(false);
    };
    let relation = HappensBefore::of(rt.alloc(), &ordered)?;
    let compared = agrees_over(rt, candidate, &relation);
    drop(relation);
    compared?;
    Ok(true)
}

/// The same of a document.
pub(super) fn compares_document<R: Abort + AllocGlobal + Threads + Sync>(
    rt: &R,
    document: &str,
    initial: &Initial,
) -> Result<bool, AllocError> {
    let Ok((log, witness)) = read(rt.alloc(), document) else {
        panic!(rt; "{document}")
    };
    let Ok(candidate) = candidate(rt.alloc(), log, witness, initial) else {
        panic!(rt; "{document}")
    };
    let is_ordered = compares(rt, &candidate);
    drop(candidate);
    is_ordered
}

/// The order of each of these documents agrees.
fn all_are_ordered<R: Abort + AllocGlobal + Threads + Sync>(
    rt: &R,
    documents: &[&str],
    initial: &Initial,
) -> Result<(), AllocError> {
    for document in documents {
        let is_ordered = compares_document(rt, document, initial)?;
        same_in(rt, document, is_ordered, true);
    }
    Ok(())
}

/// In how many of these documents the order agrees.
fn ordered_count<R: Abort + AllocGlobal + Threads + Sync>(
    rt: &R,
    documents: &[&str],
    initial: &Initial,
) -> Result<u64, AllocError> {
    let mut ordered = 0u64;
    for document in documents {
        if compares_document(rt, document, initial)? {
            ordered = ordered.wrapping_add(1);
        }
    }
    Ok(ordered)
}

#[test]
fn columns_are_the_plain_closure_on_documents(rt: HostRuntime) -> Result<(), Fail> {
    let initial = Initial::zeros(rt.alloc(), 16);
    let allowed = all_are_ordered(&rt, &ALLOWED, &initial);
    let ordered = ordered_count(&rt, &BROKEN, &initial);
    drop(initial);
    allowed?;
    same(&rt, ordered?, 9);
    Ok(())
}
