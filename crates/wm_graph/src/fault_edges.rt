//! The edges that a fault needs in addition to its chains: the other write in the order, and what it overwrites.
ghost use Rattle.std.specs.Prelude.{All, IfOk, IsTrue};
ghost use Rattle.wm_event.specs.Execution.{ReadsFrom};
ghost use Rattle.wm_event.specs.LoggedRun.{execution};
ghost use Rattle.wm_graph.specs.Edges.{IsRight, Overwrites, Precedes};

use crate::edges::{Edge, EdgeKind};
use std::alloc::{AllocError, Global};
use wm_event::{Candidate, EventId, EventKey, Rule, RuleFault};
use wm_list::List;

/// Whether the order is found to list an event before another one. Init is before all others.
fn precedes(candidate: &Candidate, first: EventId, second: EventKey) -> bool
    ensures { IsTrue result → Precedes candidate.now first second }
{
    let Some(later) = candidate.place(EventId::At(second)) else {
        return false;
    };
    match first {
        EventId::Init => true,
        EventId::At(key) => match candidate.place(EventId::At(key)) {
            Some(earlier) => earlier < later,
            None => false,
        },
    }
}

/// Whether an event is found to overwrite the byte at an address that another event wrote.
fn overwrites(candidate: &Candidate, first: EventId, second: EventKey, address: u64) -> bool
    ensures { IsTrue result → Overwrites candidate.now first second }
{
    candidate.byte_by(first, address).is_some()
        && candidate.byte_by(EventId::At(second), address).is_some()
        && precedes(candidate, first, second)
}

/// The address of a byte of an event; None if there is no such event.
fn address_of(candidate: &Candidate, key: EventKey, byte: u8) -> Option<u64> {
    let event = candidate.event(EventId::At(key))?;
    Some(u64::from(event.address).saturating_add(u64::from(byte)))
}

/// Adds an edge of the order, if the order lists the events this way.
fn add_order(
    edges: &mut List<Edge>,
    candidate: &Candidate,
    from: EventId,
    to: EventKey,
) -> Result<(), AllocError>
    requires { All (IsRight candidate.now) edges.old }
    ensures right { All (IsRight candidate.now) edges.new }
{
    if precedes(candidate, from, to) {
        edges.push(Edge {
            from,
            to,
            kind: EdgeKind::Order,
        })?;
    }
    Ok(())
}

/// Adds the place of the other write in the order: after the writer, or before it, and before the read.
fn add_order_of_writes(
    edges: &mut List<Edge>,
    candidate: &Candidate,
    fault: &RuleFault,
    other: EventKey,
) -> Result<(), AllocError>
    requires { All (IsRight candidate.now) edges.old }
    ensures right { All (IsRight candidate.now) edges.new }
{
    match fault.writer {
        EventId::At(writer) if precedes(candidate, EventId::At(other), writer) => {
            add_order(edges, candidate, EventId::At(other), writer)?;
            add_order(edges, candidate, EventId::At(writer), fault.event)
        }
        writer => {
            add_order(edges, candidate, writer, other)?;
            add_order(edges, candidate, EventId::At(other), fault.event)
        }
    }
}

/// Whether a byte of a read has this writer.
pub(crate) fn is_writer(candidate: &Candidate, reader: EventKey, byte: u8, writer: EventId) -> bool
    ensures { IsTrue result → ReadsFrom (execution candidate.now) reader byte writer }
{
    match candidate.writers(reader).get(usize::from(byte)) {
        Some(found) => *found == writer,
        None => false,
    }
}

/// Adds that a fault's read takes its byte from a write before another write, which overwrites it.
fn add_from_read(
    edges: &mut List<Edge>,
    candidate: &Candidate,
    fault: &RuleFault,
    other: EventKey,
) -> Result<(), AllocError>
    requires edges { All (IsRight candidate.now) edges.old }
    requires later { Overwrites candidate.now fault.now.writer other }
    ensures right { All (IsRight candidate.now) edges.new }
{
    if is_writer(candidate, fault.event, fault.byte, fault.writer) {
        edges.push(Edge {
            from: EventId::At(fault.event),
            to: other,
            kind: EdgeKind::FromRead,
        })?;
    }
    Ok(())
}

/// Adds that the other write overwrites the byte at fault, and that the read takes the byte from before.
fn add_overwritten(
    edges: &mut List<Edge>,
    candidate: &Candidate,
    fault: &RuleFault,
    other: EventKey,
) -> Result<(), AllocError>
    requires { All (IsRight candidate.now) edges.old }
    ensures right { All (IsRight candidate.now) edges.new }
{
    let Some(address) = address_of(candidate, fault.event, fault.byte) else {
        return Ok(());
    };
    if !overwrites(candidate, fault.writer, other, address) {
        return Ok(());
    }
    edges.push(Edge {
        from: fault.writer,
        to: other,
        kind: EdgeKind::Coherence,
    })?;
    add_from_read(edges, candidate, fault, other)
}

/// The edges that a fault with another write needs in addition to its chains: the edges of the order for V4 and V5, and
/// what is overwritten for V3 and V5.
///
/// # Errors
///
/// Only if an allocation fails.
pub(crate) fn fault_edges(
    alloc: Global,
    candidate: &Candidate,
    fault: &RuleFault,
) -> Result<List<Edge>, AllocError>
    ensures right { IfOk result (All (IsRight candidate.now)) }
{
    let mut edges = List::new(alloc);
    let Some(EventId::At(other)) = fault.other else {
        return Ok(edges);
    };
    match fault.rule {
        Rule::WrittenValues | Rule::Order => {}
        Rule::Coherence => add_overwritten(&mut edges, candidate, fault, other)?,
        Rule::NoTearing => add_order_of_writes(&mut edges, candidate, fault, other)?,
        Rule::SequentialConsistency => {
            add_order_of_writes(&mut edges, candidate, fault, other)?;
            add_overwritten(&mut edges, candidate, fault, other)?;
        }
    }
    Ok(edges)
}
