//! The edges of a picture.
ghost use Rattle.std.specs.Prelude.{◌≡◌, ◌↔◌, ◌≤◌, ℕ, All, Contains, IfOk, IfSome, IsTrue, OnOk, Some, slice_get};
ghost use Rattle.wm_event.specs.Event.{key_of};
ghost use Rattle.wm_event.specs.declared.event.EventId.TheVariants.{At};
ghost use Rattle.wm_event.specs.declared.event.EventKey.{EventKey};
ghost use Rattle.wm_event.specs.LoggedRun.{LoggedRun};
ghost use Rattle.wm_event.specs.Witness.{writers_in};
ghost use Rattle.wm_graph.specs.Edges.{AreComplete, HasEdgesOf, HasEdgesTo, HasReads, HasSequenced, HasShownEdgesTo, IsNext, IsRight, Keeps, Precedes, ReadsByte, ShowsContrary, SyncsWith, ordered, sequenced};
ghost use Rattle.wm_hb.specs.ReadsFrom.{AreFromWriters, NamesByte};

use crate::shown::Shown;
use std::alloc::{AllocError, Global};
use wm_event::{Candidate, Event, EventId, EventKey, ThreadLog};
use wm_hb::{WriterRun, synchronizes, writer_runs};
use wm_list::List;

/// Which bytes of a read its writer wrote, and how.
#[derive(Clone, Copy)]
pub(crate) struct ReadsFrom {
    /// The bytes, by their numbers in the read's range.
    pub first: usize,
    pub last: usize,
    /// Whether these are all bytes of the read.
    pub is_whole: bool,
    /// Whether the writer synchronizes with the read.
    pub synchronizes: bool,
}

/// What an edge states.
#[derive(Clone, Copy)]
pub(crate) enum EdgeKind {
    /// The second event is the next one of the thread.
    Sequenced,
    /// The second event reads bytes that the first one wrote.
    ReadsFrom(ReadsFrom),
    /// The order lists the first event before the second: contrary to another edge, or because a fault needs it.
    Order,
    /// The second event overwrites a byte of the first one, later in the order.
    Coherence,
    /// The first event reads a byte from a write that the second one overwrites.
    FromRead,
}

/// An edge of a picture.
#[derive(Clone, Copy)]
pub(crate) struct Edge {
    pub from: EventId,
    pub to: EventKey,
    pub kind: EdgeKind,
}

/// The edge of the order between the events of an edge, if the order lists the second event before the first.
fn order_edge(candidate: &Candidate, edge: Edge) -> Option<Edge>
    ensures right { IfSome result (IsRight candidate.now) }
    ensures contrary { (a : EventKey) → edge.from ≡ At a → Precedes candidate.now (At edge.to) a → result ≡ Some (ordered edge.to a) }
{
    // Its contract is needed: the order lists each event once.
    let _witness = candidate.witness();
    let EventId::At(from) = edge.from else {
        return None;
    };
    let first = candidate.place(edge.from)?;
    let second = candidate.place(EventId::At(edge.to))?;
    if second < first {
        Some(Edge {
            from: EventId::At(edge.to),
            to: from,
            kind: EdgeKind::Order,
        })
    } else {
        None
    }
}

/// Adds an edge, and an edge of the order if the order lists the edge's second event before its first.
fn add_edge(edges: &mut List<Edge>, candidate: &Candidate, edge: Edge) -> Result<(), AllocError>
    requires edges { All (IsRight candidate.now) edges.old }
    requires edge { IsRight candidate.now edge }
    ensures right { All (IsRight candidate.now) edges.new }
    ensures kept { OnOk result (Keeps edges.old edges.new) }
    ensures added { OnOk result (Contains edges.new edge) }
    ensures contrary { OnOk result (ShowsContrary candidate.now edges.new edge.from edge.to) }
{
    edges.push(edge)?;
    if let Some(order) = order_edge(candidate, edge) {
        edges.push(order)?;
    }
    Ok(())
}

/// Whether the writer of a byte synchronizes with the read.
fn is_synchronized(candidate: &Candidate, writer: EventId, reader: EventKey) -> bool
    ensures { IsTrue result ↔ SyncsWith candidate.now writer reader }
{
    match writer {
        EventId::Init => false,
        EventId::At(key) => synchronizes(candidate, key, reader),
    }
}

/// The edge to a read from the writer of a run of its bytes.
fn read_edge(candidate: &Candidate, run: &WriterRun, reader: EventKey) -> Edge
    requires writer { (k : ℕ) → NamesByte run.now k → slice_get (writers_in candidate.now.witness reader) k ≡ Some run.now.writer }
    requires some { run.now.first ≤ run.now.last }
    ensures right { IsRight candidate.now result }
    ensures from { result.from ≡ run.now.writer }
    ensures to { result.to ≡ reader }
    ensures bytes { (k : ℕ) → NamesByte run.now k → ReadsByte k result.kind }
{
    let bytes = candidate.writers(reader).len();
    Edge {
        from: run.writer,
        to: reader,
        kind: EdgeKind::ReadsFrom(ReadsFrom {
            first: run.first,
            last: run.last,
            is_whole: run.first == 0 && run.last.saturating_add(1) == bytes,
            synchronizes: is_synchronized(candidate, run.writer, reader),
        }),
    }
}

/// The edge to an event from the one before it in its thread; None for the first one.
fn sequenced_edge(event: &Event) -> Option<Edge>
    ensures right { (x : LoggedRun) → IfSome result (IsRight x) }
    ensures next { (a : EventKey) → IsNext (At a) (key_of event.now) → result ≡ Some (sequenced a (key_of event.now)) }
{
    let number = event.number.checked_sub(1)?;
    Some(Edge {
        from: EventId::At(EventKey {
            thread: event.thread,
            number,
        }),
        to: event.key(),
        kind: EdgeKind::Sequenced,
    })
}

/// Adds the edges to a read from these writers of its bytes.
fn add_runs(
    edges: &mut List<Edge>,
    candidate: &Candidate,
    reader: EventKey,
    runs: &[WriterRun],
) -> Result<(), AllocError>
    requires edges { All (IsRight candidate.now) edges.old }
    requires runs { AreFromWriters (writers_in candidate.now.witness reader) runs.now }
    ensures right { All (IsRight candidate.now) edges.new }
    ensures kept { OnOk result (Keeps edges.old edges.new) }
    ensures reads { OnOk result (HasReads candidate.now edges.new reader) }
{
    for run in runs {
        add_edge(edges, candidate, read_edge(candidate, run, reader))?;
    }
    Ok(())
}

/// Adds the edges to an event from the writers of the bytes that it reads.
fn add_reads(
    alloc: Global,
    edges: &mut List<Edge>,
    candidate: &Candidate,
    reader: EventKey,
) -> Result<(), AllocError>
    requires { All (IsRight candidate.now) edges.old }
    ensures right { All (IsRight candidate.now) edges.new }
    ensures kept { OnOk result (Keeps edges.old edges.new) }
    ensures reads { OnOk result (HasReads candidate.now edges.new reader) }
{
    let runs = writer_runs(alloc, candidate, reader)?;
    add_runs(edges, candidate, reader, runs.as_slice())
}

/// Adds the edge to an event from the one before it in its thread, if there is one.
fn add_sequenced(
    edges: &mut List<Edge>,
    candidate: &Candidate,
    event: &Event,
) -> Result<(), AllocError>
    requires { All (IsRight candidate.now) edges.old }
    ensures right { All (IsRight candidate.now) edges.new }
    ensures kept { OnOk result (Keeps edges.old edges.new) }
    ensures sequenced { OnOk result (HasSequenced candidate.now edges.new (key_of event.now)) }
{
    match sequenced_edge(event) {
        Some(edge) => add_edge(edges, candidate, edge),
        None => Ok(()),
    }
}

/// Adds the edges to an event.
fn add_event(
    alloc: Global,
    edges: &mut List<Edge>,
    candidate: &Candidate,
    event: &Event,
) -> Result<(), AllocError>
    requires { All (IsRight candidate.now) edges.old }
    ensures right { All (IsRight candidate.now) edges.new }
    ensures kept { OnOk result (Keeps edges.old edges.new) }
    ensures complete { OnOk result (HasEdgesTo candidate.now edges.new event.now) }
{
    add_sequenced(edges, candidate, event)?;
    add_reads(alloc, edges, candidate, event.key())?;
    Ok(())
}

/// Adds the edges to an event, if it is shown.
fn add_shown_event(
    alloc: Global,
    edges: &mut List<Edge>,
    candidate: &Candidate,
    shown: &Shown,
    event: &Event,
) -> Result<(), AllocError>
    requires { All (IsRight candidate.now) edges.old }
    ensures right { All (IsRight candidate.now) edges.new }
    ensures kept { OnOk result (Keeps edges.old edges.new) }
    ensures complete { OnOk result (HasShownEdgesTo candidate.now shown.now edges.new event.now) }
{
    if !shown.has_listed(event.key()) {
        return Ok(());
    }
    add_event(alloc, edges, candidate, event)
}

/// Adds the edges to the events of a thread that are shown.
fn add_thread(
    alloc: Global,
    edges: &mut List<Edge>,
    candidate: &Candidate,
    shown: &Shown,
    thread: &ThreadLog,
) -> Result<(), AllocError>
    requires { All (IsRight candidate.now) edges.old }
    ensures right { All (IsRight candidate.now) edges.new }
    ensures kept { OnOk result (Keeps edges.old edges.new) }
    ensures complete { OnOk result (HasEdgesOf candidate.now shown.now edges.new thread.now) }
{
    for event in thread.events.as_slice() {
        add_shown_event(alloc, edges, candidate, shown, event)?;
    }
    Ok(())
}

/// The edges to the events of a candidate's log that are shown, thread by thread.
///
/// # Errors
///
/// Only if an allocation fails.
pub(crate) fn edges(
    alloc: Global,
    candidate: &Candidate,
    shown: &Shown,
) -> Result<List<Edge>, AllocError>
    ensures right { IfOk result (All (IsRight candidate.now)) }
    ensures complete { IfOk result (AreComplete candidate.now shown.now) }
{
    let mut edges = List::new(alloc);
    for thread in candidate.log().threads() {
        add_thread(alloc, &mut edges, candidate, shown, thread)?;
    }
    Ok(edges)
}
