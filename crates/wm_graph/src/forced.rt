//! Edges that lead forward in each order of all events in which each read takes the last write.
ghost use Rattle.std.specs.Prelude.{◌≡◌, ◌+◌, IfSome, IsTrue};
ghost use Rattle.wm_event.specs.declared.event.EventId.TheVariants.{At};
ghost use Rattle.wm_event.specs.LoggedRun.{LoggedRun};
ghost use Rattle.wm_graph.specs.Cycle.{AreWays, ComesBefore, IsCycleEdge, IsWay, ReadsOneOf, kind_of as spec_kind_of};
ghost use Rattle.wm_graph.specs.Sequential.{IsForced};
ghost use Rattle.wm_graph.specs.declared.cycle_edge.CycleKind.TheVariants.{Coherence, FromRead, ReadsFrom as ReadsByte, Sequenced};

use crate::cycle_edge::{CycleEdge, CycleKind};
use crate::fault_edges::is_writer;
use crate::ways::{Way, Ways};
use wm_event::{Candidate, Event, EventId, EventKey};
use wm_hb::synchronizes;

/// The most bytes of an access.
const MAX_BYTES: u8 = 8;

/// The way from an event to another, if one is known.
pub(crate) fn way_between(
    candidate: &Candidate,
    ways: &Ways,
    from: EventKey,
    to: EventKey,
) -> Option<Way>
    requires { AreWays candidate.now ways.now }
    ensures way { IfSome result (IsWay candidate.now) }
    ensures from { IfSome result (λ way. way.first.from ≡ from) }
    ensures to { IfSome result (λ way. way.to ≡ to) }
{
    let first = candidate.place(EventId::At(from))?;
    let last = candidate.place(EventId::At(to))?;
    let way = ways.get(first, last)?;
    if way.first.from == from && way.to == to {
        Some(way)
    } else {
        None
    }
}

/// Whether a way is known from an event to another.
fn is_before(candidate: &Candidate, ways: &Ways, from: EventKey, to: EventKey) -> bool
    requires { AreWays candidate.now ways.now }
    ensures { IsTrue result → IsForced candidate.now from to }
{
    way_between(candidate, ways, from, to).is_some()
}

/// Whether an event is the one before another in its thread.
fn is_next(candidate: &Candidate, from: EventKey, to: EventKey) -> bool
    ensures { IsTrue result → IsCycleEdge candidate.now record { from = from; to = to; kind = Sequenced } }
{
    from.thread == to.thread
        && from.number.checked_add(1) == Some(to.number)
        && candidate.event(EventId::At(from)).is_some()
        && candidate.event(EventId::At(to)).is_some()
}

/// Whether an event reads a byte that another one wrote.
fn reads_from(candidate: &Candidate, from: EventKey, to: EventKey) -> bool
    ensures { IsTrue result → IsCycleEdge candidate.now record { from = from; to = to; kind = ReadsByte } }
{
    if candidate.event(EventId::At(to)).is_none() {
        return false;
    }
    for byte in 0..MAX_BYTES {
        if is_writer(candidate, to, byte, EventId::At(from)) {
            return true;
        }
    }
    false
}

/// The address of a byte of an event.
fn byte_address(event: &Event, byte: u8) -> u64
    ensures { result ≡ event.now.address + byte }
{
    u64::from(event.address) + u64::from(byte)
}

/// The event from which a read takes a byte that another event writes, too.
fn writer_beside(
    candidate: &Candidate,
    reader: EventKey,
    byte: u8,
    other: EventKey,
) -> Option<EventId>
    ensures { IfSome result (λ writer. ReadsOneOf candidate.now reader writer other) }
{
    let event = candidate.event(EventId::At(reader))?;
    let address = byte_address(event, byte);
    let writer = *candidate.writers(reader).get(usize::from(byte))?;
    candidate.byte_by(writer, address)?;
    candidate.byte_by(EventId::At(other), address)?;
    Some(writer)
}

/// Whether a read takes a byte from a write that another event writes, too.
fn reads_one_of(candidate: &Candidate, reader: EventKey, writer: EventKey, other: EventKey) -> bool
    ensures { IsTrue result → ReadsOneOf candidate.now reader (At writer) other }
{
    let writer = EventId::At(writer);
    for byte in 0..MAX_BYTES {
        if is_writer(candidate, reader, byte, writer)
            && writer_beside(candidate, reader, byte, other) == Some(writer)
        {
            return true;
        }
    }
    false
}

/// Whether an event writes.
fn is_write(candidate: &Candidate, key: EventKey) -> bool {
    match candidate.event(EventId::At(key)) {
        Some(event) => event.writes(),
        None => false,
    }
}

/// Whether a write comes before another one, from which an event after the first one reads a byte of it.
fn is_overwritten(candidate: &Candidate, ways: &Ways, from: EventKey, to: EventKey) -> bool
    requires { AreWays candidate.now ways.now }
    ensures { IsTrue result → IsCycleEdge candidate.now record { from = from; to = to; kind = Coherence } }
{
    if from == to {
        return false;
    }
    if !is_write(candidate, from) || !is_write(candidate, to) {
        return false;
    }
    for reader in candidate.witness().order.as_slice() {
        if is_before(candidate, ways, from, *reader) && reads_one_of(candidate, *reader, to, from) {
            return true;
        }
    }
    false
}

/// Whether a writer comes before an event.
fn is_writer_before(candidate: &Candidate, ways: &Ways, writer: EventId, event: EventKey) -> bool
    requires { AreWays candidate.now ways.now }
    ensures { IsTrue result → ComesBefore candidate.now writer event }
{
    match writer {
        EventId::Init => true,
        EventId::At(writer) => is_before(candidate, ways, writer, event),
    }
}

/// Whether an event reads a byte from a write that another event overwrites.
fn is_read_before(candidate: &Candidate, ways: &Ways, from: EventKey, to: EventKey) -> bool
    requires { AreWays candidate.now ways.now }
    ensures { IsTrue result → IsCycleEdge candidate.now record { from = from; to = to; kind = FromRead } }
{
    if from == to {
        return false;
    }
    for byte in 0..MAX_BYTES {
        if let Some(writer) = writer_beside(candidate, from, byte, to) {
            if is_writer_before(candidate, ways, writer, to) {
                return true;
            }
        }
    }
    false
}

/// The edges that are looked for at a time.
#[derive(Clone, Copy)]
pub(crate) enum Stage {
    Sequenced,
    /// Of reads-from those of which the write synchronizes with the read.
    Synchronizes,
    ReadsFrom,
    Coherence,
    FromRead,
}

/// The kind of the edges of a stage.
fn kind_of(stage: Stage) -> CycleKind
    ensures { result ≡ spec_kind_of stage }
{
    match stage {
        Stage::Sequenced => CycleKind::Sequenced,
        Stage::Synchronizes | Stage::ReadsFrom => CycleKind::ReadsFrom,
        Stage::Coherence => CycleKind::Coherence,
        Stage::FromRead => CycleKind::FromRead,
    }
}

/// Whether an edge of a stage leads from one event to another.
fn is_edge(candidate: &Candidate, ways: &Ways, stage: Stage, from: EventKey, to: EventKey) -> bool
    requires { AreWays candidate.now ways.now }
    ensures { IsTrue result → IsCycleEdge candidate.now record { from = from; to = to; kind = spec_kind_of stage } }
{
    match stage {
        Stage::Sequenced => is_next(candidate, from, to),
        Stage::Synchronizes => {
            synchronizes(candidate, from, to) && reads_from(candidate, from, to)
        }
        Stage::ReadsFrom => reads_from(candidate, from, to),
        Stage::Coherence => is_overwritten(candidate, ways, from, to),
        Stage::FromRead => is_read_before(candidate, ways, from, to),
    }
}

/// The way along an edge of a stage.
fn edge_way(stage: Stage, from: EventKey, to: EventKey) -> Way
    ensures { (x : LoggedRun) → IsCycleEdge x record { from = from; to = to; kind = spec_kind_of stage } → IsWay x result }
{
    let kind = kind_of(stage);
    Way {
        first: CycleEdge { from, to, kind },
        to,
        steps: 1,
    }
}

/// Adds the edges of a stage from an event.
fn add_edges_from(
    candidate: &Candidate,
    ways: &mut Ways,
    stage: Stage,
    place: usize,
    from: EventKey,
)
    requires { AreWays candidate.now ways.old }
    ensures { AreWays candidate.now ways.new }
{
    for (other, to) in candidate.witness().order.as_slice().iter().enumerate() {
        if is_edge(candidate, ways, stage, from, *to) {
            ways.add(place, other, edge_way(stage, from, *to));
        }
    }
}

/// Adds the edges of a stage, and all ways along them.
pub(crate) fn add_edges(candidate: &Candidate, ways: &mut Ways, stage: Stage)
    requires { AreWays candidate.now ways.old }
    ensures { AreWays candidate.now ways.new }
{
    for (place, from) in candidate.witness().order.as_slice().iter().enumerate() {
        add_edges_from(candidate, ways, stage, place, *from);
    }
    ways.close();
}
