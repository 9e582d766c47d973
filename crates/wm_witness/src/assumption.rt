//! Assumptions about the witness of a log.
ghost use Rattle.std.specs.Prelude.{◌↔◌, IsTrue};
ghost use Rattle.wm_event.specs.Execution.{ReadsFrom};
ghost use Rattle.wm_event.specs.LoggedRun.{execution};
ghost use Rattle.wm_witness.specs.Assumptions.{Holds, Keeps, TakesFrom};
ghost use Rattle.wm_witness.specs.declared.assumption.Assumption.TheVariants.{Before};

use wm_event::{Candidate, EventId, EventKey};

/// What a search assumes of the witness that it looks for. A read comes first, then the byte of it, then a writer.
#[derive(Clone, Copy, PartialEq, Eq)]
pub enum Assumption {
    /// The read takes a byte from the event.
    Takes(EventKey, EventKey),
    /// It takes none from the event.
    TakesNone(EventKey, EventKey),
    /// That byte of the read, counted from 0 at its lowest address, is from the writer.
    Byte(EventKey, u8, EventId),
    /// It is not.
    NotByte(EventKey, u8, EventId),
    /// In the order the first event comes before the second.
    Before(EventKey, EventKey),
}

/// Whether a read takes a byte from an event.
fn takes(candidate: &Candidate, reader: EventKey, writer: EventKey) -> bool
    ensures { IsTrue result ↔ TakesFrom (execution candidate.now) reader writer }
{
    candidate.writers(reader).contains(&EventId::At(writer))
}

/// Whether that byte of a read is from the writer.
fn is_byte_from(candidate: &Candidate, reader: EventKey, byte: u8, writer: EventId) -> bool
    ensures { IsTrue result ↔ ReadsFrom (execution candidate.now) reader byte writer }
{
    match candidate.writers(reader).get(byte as usize) {
        None => false,
        Some(id) => *id == writer,
    }
}

/// Whether in the order the one event comes before the other, if both are there.
fn is_before(candidate: &Candidate, first: EventKey, second: EventKey) -> bool
    ensures { IsTrue result → Holds candidate.now (Before first second) }
{
    let Some(place) = candidate.place(EventId::At(first)) else {
        return false;
    };
    let Some(other) = candidate.place(EventId::At(second)) else {
        return false;
    };
    place < other
}

/// Whether an assumption holds of a candidate's witness.
fn holds(candidate: &Candidate, assumption: Assumption) -> bool
    ensures { IsTrue result → Holds candidate.now assumption }
{
    match assumption {
        Assumption::Takes(reader, writer) => takes(candidate, reader, writer),
        Assumption::TakesNone(reader, writer) => !takes(candidate, reader, writer),
        Assumption::Byte(reader, byte, writer) => is_byte_from(candidate, reader, byte, writer),
        Assumption::NotByte(reader, byte, writer) => !is_byte_from(candidate, reader, byte, writer),
        Assumption::Before(first, second) => is_before(candidate, first, second),
    }
}

/// Whether a candidate's witness keeps the assumptions.
pub(crate) fn keeps(candidate: &Candidate, assumed: &[Assumption]) -> bool
    ensures { IsTrue result → Keeps candidate.now assumed.now }
{
    for assumption in assumed {
        if !holds(candidate, *assumption) {
            return false;
        }
    }
    true
}
