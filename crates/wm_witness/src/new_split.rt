//! Splits that tell something new.
ghost use Rattle.std.specs.Prelude.{◌≡◌, ◌↔◌, IfNone, IfSome, IsSome, IsTrue, false};
ghost use Rattle.std.specs.List.{Contains};
ghost use Rattle.wm_event.specs.Log.{event_in};
ghost use Rattle.wm_event.specs.Shape.{IsThere};
ghost use Rattle.wm_witness.specs.Search.{AreOpposite, IsAbout, IsByteOf, NothingIsNew};
ghost use Rattle.wm_witness.specs.Steps.{AreBytesSpent, HasNoOpposite, IsEventSpent, IsPairSpent, IsSpent, IsSplit};

use crate::assumption::Assumption;
use wm_event::{Candidate, EventId, EventKey};

/// An assumption that is new, and the one against it.
#[derive(Clone, Copy)]
pub(crate) struct Split {
    pub last: Assumption,
    pub other: Assumption,
}

/// Whether there is such an event.
fn is_event(start: &Candidate, key: EventKey) -> bool
    ensures { IsTrue result ↔ IsSome (event_in start.now.log key) }
{
    start.event(EventId::At(key)).is_some()
}

/// Whether it is Init or an event.
fn is_there(start: &Candidate, id: EventId) -> bool
    ensures { IsTrue result ↔ IsThere start.now.log id }
{
    match id {
        EventId::Init => true,
        EventId::At(key) => is_event(start, key),
    }
}

/// Whether an event reads that byte.
fn reads_byte(start: &Candidate, key: EventKey, byte: u8) -> bool
    ensures { IsTrue result ↔ IsByteOf start.now.log key byte }
{
    match start.event(EventId::At(key)) {
        Some(event) => event.reads() && byte < event.width.bytes(),
        None => false,
    }
}

/// The assumption against another; None if there is none, or if its events aren't two of the log.
fn opposite_of(start: &Candidate, assumption: Assumption) -> Option<Assumption>
    ensures some { IfSome result (AreOpposite start.now.log assumption) }
    ensures none { IfNone result (HasNoOpposite start.now.log assumption) }
{
    match assumption {
        Assumption::Takes(reader, writer) => Some(Assumption::TakesNone(reader, writer)),
        Assumption::TakesNone(_, _) => None,
        Assumption::Byte(reader, byte, writer) => {
            Some(Assumption::NotByte(reader, byte, writer))
        }
        Assumption::NotByte(_, _, _) => None,
        Assumption::Before(first, second) => {
            if first == second {
                return None;
            }
            if !is_event(start, first) {
                return None;
            }
            if !is_event(start, second) {
                return None;
            }
            Some(Assumption::Before(second, first))
        }
    }
}

/// Whether an assumption is about events of the log and bytes that they read.
fn is_about(start: &Candidate, assumption: Assumption) -> bool
    ensures { IsTrue result ↔ IsAbout start.now.log assumption }
{
    match assumption {
        Assumption::Takes(first, second)
        | Assumption::TakesNone(first, second)
        | Assumption::Before(first, second) => is_event(start, first) && is_event(start, second),
        Assumption::Byte(reader, byte, writer) | Assumption::NotByte(reader, byte, writer) => {
            reads_byte(start, reader, byte) && is_there(start, writer)
        }
    }
}

/// Whether an alternative assumes something.
fn is_told(assumed: &[Assumption], assumption: Assumption) -> bool
    ensures told { IsTrue result → Contains assumed.now assumption }
    ensures new { result ≡ false → Contains assumed.now assumption → ⊥ }
{
    assumed.contains(&assumption)
}

/// A split on an assumption, if it is new.
pub(crate) fn new_split(
    start: &Candidate,
    assumed: &[Assumption],
    last: Assumption,
) -> Option<Split>
    ensures split { IfSome result (IsSplit start.now.log assumed.now) }
    ensures none { IfNone result (IsSpent start.now.log assumed.now last) }
{
    let Some(other) = opposite_of(start, last) else {
        return None;
    };
    if !is_about(start, last) {
        return None;
    }
    if is_told(assumed, last) {
        return None;
    }
    if is_told(assumed, other) {
        return None;
    }
    Some(Split { last, other })
}

/// A new split on a byte of a read from a writer.
fn new_split_on_bytes(
    start: &Candidate,
    assumed: &[Assumption],
    reader: EventKey,
    writer: EventId,
) -> Option<Split>
    ensures split { IfSome result (IsSplit start.now.log assumed.now) }
    ensures none { IfNone result (AreBytesSpent start.now.log assumed.now reader writer) }
{
    for byte in 0..8 {
        let found = new_split(start, assumed, Assumption::Byte(reader, byte, writer));
        if found.is_some() {
            return found;
        }
    }
    None
}

/// A new split on what an event takes from another, or on their order.
fn new_split_on_pair(
    start: &Candidate,
    assumed: &[Assumption],
    first: EventKey,
    second: EventKey,
) -> Option<Split>
    ensures split { IfSome result (IsSplit start.now.log assumed.now) }
    ensures none { IfNone result (IsPairSpent start.now.log assumed.now first second) }
{
    let takes = new_split(start, assumed, Assumption::Takes(first, second));
    if takes.is_some() {
        return takes;
    }
    let order = new_split(start, assumed, Assumption::Before(first, second));
    if order.is_some() {
        return order;
    }
    new_split_on_bytes(start, assumed, first, EventId::At(second))
}

/// A new split on an event and Init or an event of a list.
fn new_split_on_event(
    start: &Candidate,
    assumed: &[Assumption],
    events: &[EventKey],
    first: EventKey,
) -> Option<Split>
    ensures split { IfSome result (IsSplit start.now.log assumed.now) }
    ensures none { IfNone result (IsEventSpent start.now.log assumed.now events.now first) }
{
    let init = new_split_on_bytes(start, assumed, first, EventId::Init);
    if init.is_some() {
        return init;
    }
    for second in events {
        let found = new_split_on_pair(start, assumed, first, *second);
        if found.is_some() {
            return found;
        }
    }
    None
}

/// Any new split; None if nothing is new.
pub(crate) fn any_new_split(start: &Candidate, assumed: &[Assumption]) -> Option<Split>
    ensures split { IfSome result (IsSplit start.now.log assumed.now) }
    ensures none { IfNone result (NothingIsNew start.now.log assumed.now) }
{
    let events = start.witness().order.as_slice();
    for first in events {
        let found = new_split_on_event(start, assumed, events, *first);
        if found.is_some() {
            return found;
        }
    }
    None
}
