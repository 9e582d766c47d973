//! The picture of an execution, as data.
ghost use Rattle.std.specs.Prelude.{◌≤◌, ◌↔◌, All, IfOk, IfSome, IsTrue, OnSome, length};
ghost use Rattle.wm_event.specs.declared.event.EventId.TheVariants.{Init};
ghost use Rattle.wm_graph.specs.Chains.{HasChains};
ghost use Rattle.wm_graph.specs.Columns.{AreColumnsOf, IsMarked, IsMarkedBy};
ghost use Rattle.wm_graph.specs.Cycle.{IsCycle};
ghost use Rattle.wm_graph.specs.Edges.{AreComplete, IsRight};
ghost use Rattle.wm_graph.specs.Sequential.{IsSequentialInNoOrder};
ghost use Rattle.wm_graph.specs.Shown.{ShowsAll, max_shown};

use crate::columns::{Column, columns, is_marked};
use crate::cycle::find_cycle;
use crate::cycle_edge::CycleEdge;
use crate::edges::{Edge, edges};
use crate::fault_edges::fault_edges;
use crate::shown::{FaultParts, Shown};
use std::alloc::{AllocError, Global};
use wm_check::Breach;
use wm_event::{Candidate, EventId};
use wm_hb::{FaultChain, fault_chains};
use wm_list::List;

/// The picture of an execution: a column of nodes for each thread, a node for Init, which events are
/// shown, the edges to these, what the fault of a memory rule needs in addition, and a cycle.
#[derive(Drop)]
pub(crate) struct Picture {
    /// Whether what the check found names Init.
    pub is_init_marked: bool,
    pub columns: List<Column>,
    pub shown: Shown,
    /// The edges to the events that are shown, thread by thread.
    pub edges: List<Edge>,
    /// A shortest chain for each happens-before that the fault rests on.
    pub chains: List<FaultChain>,
    /// The other edges that the fault needs.
    pub fault_edges: List<Edge>,
    /// The cycle that shows that the execution is not sequentially consistent, if one is found.
    pub cycle: Option<List<CycleEdge>>,
}

/// The chains that the fault of a rule rests on.
fn chains_of(
    alloc: Global,
    breach: Option<Breach>,
    candidate: &Candidate,
) -> Result<List<FaultChain>, AllocError>
    ensures { IfOk result (HasChains candidate.now breach) }
{
    let _log = candidate.log();
    let Some(Breach::Rule(fault)) = breach else {
        return Ok(List::new(alloc));
    };
    match fault_chains(alloc, candidate, &fault)? {
        Some(chains) => Ok(chains),
        None => Ok(List::new(alloc)),
    }
}

/// The edges that the fault of a rule needs in addition to its chains.
fn fault_edges_of(
    alloc: Global,
    breach: Option<Breach>,
    candidate: &Candidate,
) -> Result<List<Edge>, AllocError>
    ensures { IfOk result (All (IsRight candidate.now)) }
{
    match breach {
        Some(Breach::Rule(fault)) => fault_edges(alloc, candidate, &fault),
        _ => Ok(List::new(alloc)),
    }
}

/// The cycle that shows that an execution is not sequentially consistent; none is looked for if a thread differs from its
/// log.
fn cycle_of(
    alloc: Global,
    breach: Option<Breach>,
    candidate: &Candidate,
) -> Result<Option<List<CycleEdge>>, AllocError>
    ensures cycle { IfOk result (λ found. IfSome found (IsCycle candidate.now)) }
    ensures no_order { IfOk result (λ found. OnSome found (IsSequentialInNoOrder candidate.now)) }
{
    match breach {
        Some(Breach::Replay(_)) => Ok(None),
        _ => find_cycle(alloc, candidate),
    }
}

/// The picture of a candidate with what a check found broken, if anything.
///
/// # Errors
///
/// Only if an allocation fails.
pub(crate) fn picture_of(
    alloc: Global,
    breach: Option<Breach>,
    candidate: &Candidate,
) -> Result<Picture, AllocError>
    ensures init { IfOk result (λ p. IsTrue p.is_init_marked ↔ IsMarked breach Init) }
    ensures columns { IfOk result (λ p. AreColumnsOf candidate.now.log p.columns) }
    ensures marks { IfOk result (λ p. All (λ column. All (IsMarkedBy breach) column.nodes) p.columns) }
    ensures edges { IfOk result (λ p. All (IsRight candidate.now) p.edges) }
    ensures few { IfOk result (λ p. length candidate.now.witness.order ≤ max_shown → ShowsAll p.shown) }
    ensures complete { IfOk result (λ p. AreComplete candidate.now p.shown p.edges) }
    ensures chains { IfOk result (λ p. HasChains candidate.now breach p.chains) }
    ensures fault_edges { IfOk result (λ p. All (IsRight candidate.now) p.fault_edges) }
    ensures cycle { IfOk result (λ p. IfSome p.cycle (IsCycle candidate.now)) }
    ensures no_order { IfOk result (λ p. OnSome p.cycle (IsSequentialInNoOrder candidate.now)) }
{
    let columns = columns(alloc, candidate.log(), breach)?;
    let chains = chains_of(alloc, breach, candidate)?;
    let fault_edges = fault_edges_of(alloc, breach, candidate)?;
    let fault = FaultParts {
        chains: chains.as_slice(),
        edges: fault_edges.as_slice(),
    };
    let shown = Shown::of(alloc, candidate, columns.as_slice(), fault)?;
    let edges = edges(alloc, candidate, &shown)?;
    let cycle = cycle_of(alloc, breach, candidate)?;
    Ok(Picture {
        is_init_marked: is_marked(breach, EventId::Init),
        columns,
        shown,
        edges,
        chains,
        fault_edges,
        cycle,
    })
}
