//! The bytes that a read takes from a writer, with the events that fit them.
ghost use Rattle.std.specs.Prelude.{◌≡◌, ◌<◌, ◌↔◌, All, IfOk, IsTrue, map};
ghost use Rattle.wm_writers.specs.Answer.{IsByteFit, IsSource};
ghost use Rattle.wm_writers.specs.Forced.{IsNamed};
ghost use Rattle.wm_writers.specs.Found.{AreOnly, HasForcedByte};

use crate::fit::fitting_ids;
use crate::need::Need;
use std::alloc::{AllocError, Global};
use wm_event::{Candidate, Event, EventId};
use wm_list::List;

/// A byte of a read, and the events that fit it.
#[derive(Drop)]
pub struct ByteFit {
    /// The byte of the read, counted from 0 at the lowest address.
    pub byte: u8,
    pub address: u64,
    /// The events that leave there the value that was read, without the read itself and the later events of its thread:
    /// Init first, then the events of each thread, one thread after the other.
    pub fit: List<EventId>,
}

/// What a fault needs of the witness, and the bytes by which the witness satisfies it.
#[derive(Drop)]
pub struct Source {
    pub need: Need,
    /// The bytes that the read takes from the writer, or only the one that is needed; the lowest first.
    pub bytes: List<ByteFit>,
}

/// Whether a byte satisfies a need, by its writer.
fn meets(need: &Need, byte: u8, writer: EventId) -> bool
    ensures { IsTrue result ↔ ((writer ≡ need.now.writer) × IsNamed need.now.byte byte) }
{
    writer == need.writer
        && match need.byte {
            None => true,
            Some(named) => byte == named,
        }
}

/// A byte of a read with the events that fit it.
fn byte_fit(
    alloc: Global,
    candidate: &Candidate,
    event: &Event,
    byte: u8,
) -> Result<ByteFit, AllocError>
    requires { byte < 8 }
    ensures byte { IfOk result (λ b. b.byte ≡ byte) }
    ensures fit { IfOk result (IsByteFit candidate.now event.now) }
{
    let fit = fitting_ids(alloc, candidate, event, byte)?;
    let address = u64::from(event.address) + u64::from(byte);
    Ok(ByteFit { byte, address, fit })
}

/// The bytes by which the witness satisfies a need.
fn source_of(alloc: Global, candidate: &Candidate, need: Need) -> Result<Source, AllocError>
    ensures need { IfOk result (λ s. s.need ≡ need) }
    ensures source { IfOk result (IsSource candidate.now) }
{
    let mut bytes = List::new(alloc);
    let Some(event) = candidate.event(EventId::At(need.reader)) else {
        return Ok(Source { need, bytes });
    };
    for (byte, writer) in candidate.writers(need.reader).iter().enumerate() {
        if meets(&need, byte as u8, *writer) {
            bytes.push(byte_fit(alloc, candidate, event, byte as u8)?)?;
        }
    }
    Ok(Source { need, bytes })
}

/// The bytes by which the witness satisfies each of the needs.
pub(crate) fn sources_of(
    alloc: Global,
    candidate: &Candidate,
    needs: &[Need],
) -> Result<List<Source>, AllocError>
    ensures needs { IfOk result (λ list. map (λ s. s.need) list ≡ needs.now) }
    ensures sources { IfOk result (All (IsSource candidate.now)) }
{
    let mut sources = List::new(alloc);
    for need in needs {
        sources.push(source_of(alloc, candidate, *need)?)?;
    }
    Ok(sources)
}

/// Whether all ids are this writer.
fn are_only(fit: &[EventId], writer: EventId) -> bool
    ensures { IsTrue result ↔ AreOnly writer fit.now }
{
    for id in fit {
        if *id != writer {
            return false;
        }
    }
    true
}

/// Whether the source has a byte that only its writer fits.
fn has_forced_byte(source: &Source) -> bool
    ensures { IsTrue result ↔ HasForcedByte source.now }
{
    for byte in source.bytes.as_slice() {
        if are_only(byte.fit.as_slice(), source.need.writer) {
            return true;
        }
    }
    false
}

/// Whether each source has a byte that only its writer fits.
pub(crate) fn are_forced(sources: &[Source]) -> bool
    ensures { IsTrue result ↔ All HasForcedByte sources.now }
{
    for source in sources {
        if !has_forced_byte(source) {
            return false;
        }
    }
    true
}
