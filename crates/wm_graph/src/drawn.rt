//! The edges of a picture that are drawn.

use crate::cycle_edge::CycleKind;
use crate::edges::{Edge, EdgeKind};
use crate::picture::Picture;
use crate::shown::Shown;
use std::alloc::{AllocError, Global};
use wm_check::Breach;
use wm_event::{EventId, EventKey};
use wm_hb::LinkKind;

/// What is drawn from one node to another.
#[derive(Clone, Copy)]
pub(crate) enum DrawnKind {
    /// An edge.
    Edge(EdgeKind),
    /// A link of a chain that the fault rests on.
    Link(LinkKind),
    /// An edge of the cycle.
    Cycle(CycleKind),
}

/// An edge or a link of a picture.
#[derive(Clone, Copy)]
pub(crate) struct DrawnEdge {
    pub from: EventId,
    pub to: EventKey,
    pub kind: DrawnKind,
}

/// Whether an edge is drawn. Of the reads from Init, only the one of a fault is; the labels of the others state it. An
/// edge of the order from Init isn't drawn either.
fn is_drawn(edge: &Edge, breach: Option<Breach>) -> bool {
    match (edge.from, edge.kind) {
        (EventId::Init, EdgeKind::ReadsFrom(_)) => match breach {
            Some(Breach::Rule(fault)) => {
                fault.event == edge.to
                    && (fault.writer == EventId::Init || fault.other == Some(EventId::Init))
            }
            _ => false,
        },
        (EventId::Init, EdgeKind::Order) => false,
        (_, _) => true,
    }
}

/// Adds an edge or a link, if both of its events are shown.
fn add_shown(drawn: &mut Vec<DrawnEdge>, shown: &Shown, edge: DrawnEdge) -> Result<(), AllocError> {
    if shown.has(edge.from) && shown.has(EventId::At(edge.to)) {
        drawn.push(edge)?;
    }
    Ok(())
}

/// Adds the edges, among these, that are drawn.
fn add_edges(
    drawn: &mut Vec<DrawnEdge>,
    shown: &Shown,
    edges: &[Edge],
    breach: Option<Breach>,
) -> Result<(), AllocError> {
    for edge in edges {
        if is_drawn(edge, breach) {
            let Edge { from, to, kind } = *edge;
            let kind = DrawnKind::Edge(kind);
            add_shown(drawn, shown, DrawnEdge { from, to, kind })?;
        }
    }
    Ok(())
}

/// Adds the links of the chains.
fn add_links(
    drawn: &mut Vec<DrawnEdge>,
    shown: &Shown,
    picture: &Picture,
) -> Result<(), AllocError> {
    for chain in picture.chains.as_slice() {
        let mut from = chain.from;
        for link in chain.links.as_slice() {
            let to = link.event;
            let kind = DrawnKind::Link(link.kind);
            add_shown(drawn, shown, DrawnEdge { from, to, kind })?;
            from = EventId::At(to);
        }
    }
    Ok(())
}

/// Adds the edges of the cycle.
fn add_cycle(
    drawn: &mut Vec<DrawnEdge>,
    shown: &Shown,
    picture: &Picture,
) -> Result<(), AllocError> {
    let Some(cycle) = &picture.cycle else {
        return Ok(());
    };
    for edge in cycle.as_slice() {
        let (from, to) = (EventId::At(edge.from), edge.to);
        let kind = DrawnKind::Cycle(edge.kind);
        add_shown(drawn, shown, DrawnEdge { from, to, kind })?;
    }
    Ok(())
}

/// What is drawn between the events that are shown: the edges to events, then the chains, then the other edges that the
/// fault needs, and then the cycle.
///
/// # Errors
///
/// Only if an allocation fails.
pub(crate) fn drawn_edges(
    alloc: Global,
    picture: &Picture,
    breach: Option<Breach>,
) -> Result<Vec<DrawnEdge>, AllocError> {
    let mut drawn = Vec::new(alloc);
    let shown = &picture.shown;
    add_edges(&mut drawn, shown, picture.edges.as_slice(), breach)?;
    add_links(&mut drawn, shown, picture)?;
    add_edges(&mut drawn, shown, picture.fault_edges.as_slice(), breach)?;
    add_cycle(&mut drawn, shown, picture)?;
    Ok(drawn)
}
