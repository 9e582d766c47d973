//! A cycle that shows that an execution is not sequentially consistent: in no order of all its events does each read take
//! the last write.
ghost use Rattle.std.specs.Prelude.{IfOk, IfSome, OnSome};
ghost use Rattle.wm_graph.specs.Cycle.{AreWays, IsCycle};
ghost use Rattle.wm_graph.specs.Sequential.{IsSequentialInNoOrder};

use crate::cycle_edge::CycleEdge;
use crate::forced::{Stage, add_edges, way_between};
use crate::shown::MAX_SHOWN;
use crate::ways::Ways;
use std::alloc::{AllocError, Global};
use wm_event::{Candidate, EventKey};
use wm_list::List;

/// The edges in the order in which they are looked for: happens-before, what is read from before a later write, and then
/// what follows from both.
const STAGES: [Stage; 8] = [
    Stage::Sequenced,
    Stage::Synchronizes,
    Stage::FromRead,
    Stage::ReadsFrom,
    Stage::Coherence,
    Stage::FromRead,
    Stage::Coherence,
    Stage::FromRead,
];

/// The edges of the way from an event back to it.
fn cycle_from(
    alloc: Global,
    candidate: &Candidate,
    ways: &Ways,
    start: EventKey,
) -> Result<Option<List<CycleEdge>>, AllocError>
    requires { AreWays candidate.now ways.now }
    ensures { IfOk result (λ found. IfSome found (IsCycle candidate.now)) }
{
    let mut edges = List::new(alloc);
    let mut event = start;
    for _ in 0..ways.size {
        let Some(way) = way_between(candidate, ways, event, start) else {
            return Ok(None);
        };
        edges.push(way.first)?;
        event = way.first.to;
        if event == start {
            return Ok(Some(edges));
        }
    }
    Ok(None)
}

/// The edges of a shortest cycle.
fn shortest_cycle(
    alloc: Global,
    candidate: &Candidate,
    ways: &Ways,
) -> Result<Option<List<CycleEdge>>, AllocError>
    requires { AreWays candidate.now ways.now }
    ensures { IfOk result (λ found. IfSome found (IsCycle candidate.now)) }
{
    let Some(place) = ways.shortest_cycle() else {
        return Ok(None);
    };
    match candidate.witness().order.get(place) {
        Some(start) => cycle_from(alloc, candidate, ways, *start),
        None => Ok(None),
    }
}

/// A cycle of program order, reads-from, coherence and from-read; None if none is found, or if there are more events
/// than a picture shows. Each edge leads forward in each
/// order of all events in which each read takes the last write, so there is no such order.
///
/// # Errors
///
/// Only if an allocation fails.
pub(crate) fn find_cycle(
    alloc: Global,
    candidate: &Candidate,
) -> Result<Option<List<CycleEdge>>, AllocError>
    ensures cycle { IfOk result (λ found. IfSome found (IsCycle candidate.now)) }
    ensures no_order { IfOk result (λ found. OnSome found (IsSequentialInNoOrder candidate.now)) }
{
    let size = candidate.witness().order.len();
    if size > MAX_SHOWN {
        return Ok(None);
    }
    let mut ways = Ways::none(alloc, size)?;
    for stage in STAGES {
        add_edges(candidate, &mut ways, stage);
        let found = shortest_cycle(alloc, candidate, &ways)?;
        if found.is_some() {
            return Ok(found);
        }
    }
    Ok(None)
}
