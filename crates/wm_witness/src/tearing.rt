//! The fourth rule: among the writers of a tear-free read at most one event is tear-free with its range.
ghost use Rattle.std.specs.Prelude.{◌≡◌, ◌<◌, All, IfOk, IsTrue};
ghost use Rattle.wm_event.specs.Event.{key_of};
ghost use Rattle.wm_event.specs.LoggedRun.{execution};
ghost use Rattle.wm_event.specs.Rules.{IsTearFree, IsTearFreeLike};
ghost use Rattle.wm_event.specs.Shape.{read_width};
ghost use Rattle.wm_witness.specs.Always.{IsClosed};
ghost use Rattle.wm_witness.specs.Choice.{IsEventOf, IsTaken};
ghost use Rattle.wm_witness.specs.Relations.{AreRows};
ghost use Rattle.wm_witness.specs.Tearing.{IsNoWriter, IsTearFreeByte, TakesOther};
ghost use Rattle.wm_witness.specs.declared.relation.Kind.TheVariants.{Happens};

use crate::assumption::Assumption;
use crate::choice::{Taken, fitting_ids, is_excluded, isnt_from};
use crate::relation::Relation;
use std::alloc::{AllocError, Global};
use wm_event::{Candidate, Event, EventId};

/// Whether an event is tear-free: atomic, or plain of 1, 2 or 4 bytes at a multiple of its width.
pub(crate) fn is_tear_free(event: &Event) -> bool
    ensures { IsTrue result → IsTearFree event.now }
{
    let width = u32::from(event.width.bytes());
    if event.is_atomic() {
        return true;
    }
    width <= 4 && event.address % width == 0
}

/// Whether an event is tear-free with the range of another.
pub(crate) fn is_like(start: &Candidate, event: &Event, id: EventId) -> bool
    ensures { IsTrue result → IsTearFreeLike (execution start.now) event.now id }
{
    match start.event(id) {
        Some(other) => is_tear_free(other) && other.range() == event.range(),
        None => false,
    }
}

/// The fourth rule: whether two bytes of a tear-free read are from two events that are tear-free with its range.
pub(crate) fn is_torn(
    start: &Candidate,
    assumed: &[Assumption],
    first: &Taken,
    second: &Taken,
) -> bool
    requires first { IsTaken start.now assumed.now first.now }
    requires second { IsTaken start.now assumed.now second.now }
    ensures { IsTrue result → IsClosed start.now assumed.now }
{
    let (EventId::At(one), EventId::At(other)) = (first.writer, second.writer) else {
        return false;
    };
    if one == other || first.reader != second.reader {
        return false;
    }
    let Some(event) = start.event(EventId::At(first.reader)) else {
        return false;
    };
    if !is_tear_free(event) {
        return false;
    }
    if !is_like(start, event, EventId::At(one)) {
        return false;
    }
    if !is_like(start, event, EventId::At(other)) {
        return false;
    }
    true
}

/// Whether each writer that a byte of a read can have is tear-free with the range of the read.
fn is_tear_free_byte(
    alloc: Global,
    start: &Candidate,
    assumed: &[Assumption],
    happens: &Relation,
    event: &Event,
    byte: u8,
) -> Result<bool, AllocError>
    requires rows { AreRows start.now assumed.now happens.now.kind happens.now.rows.items }
    requires kind { happens.now.kind ≡ Happens }
    requires event { IsEventOf start.now event.now }
    requires byte { byte < read_width event.now }
    ensures { IfOk result (λ is_so. IsTrue is_so → IsTearFreeByte start.now assumed.now event.now byte) }
{
    let _log = start.log();
    if !isnt_from(start, assumed, happens, event, byte, EventId::Init) {
        return Ok(false);
    }
    let fit = fitting_ids(alloc, start, event, byte)?;
    for writer in fit.as_slice() {
        if is_like(start, event, *writer) {
            continue;
        }
        if !is_excluded(start, assumed, happens, event, byte, *writer) {
            return Ok(false);
        }
    }
    Ok(true)
}

/// The bytes of a tear-free read all of whose possible writers are tear-free with its range, as far as it is known.
pub(crate) fn tear_free_bytes(
    alloc: Global,
    start: &Candidate,
    assumed: &[Assumption],
    happens: &Relation,
    event: &Event,
) -> Result<Vec<u8>, AllocError>
    requires rows { AreRows start.now assumed.now happens.now.kind happens.now.rows.items }
    requires kind { happens.now.kind ≡ Happens }
    requires event { IsEventOf start.now event.now }
    ensures { IfOk result (λ bytes. All (IsTearFreeByte start.now assumed.now event.now) bytes.items) }
{
    let mut bytes = Vec::new(alloc);
    if !event.reads() || !is_tear_free(event) {
        return Ok(bytes);
    }
    for byte in 0..event.width.bytes() {
        if is_tear_free_byte(alloc, start, assumed, happens, event, byte)? {
            bytes.push(byte)?;
        }
    }
    Ok(bytes)
}

/// Whether an assumption says that the read takes a byte from an event other than the writer that is tear-free with its
/// range.
fn takes_other(start: &Candidate, event: &Event, writer: EventId, assumption: &Assumption) -> bool
    ensures { IsTrue result → TakesOther start.now event.now writer assumption.now }
{
    let Assumption::Takes(reader, other) = *assumption else {
        return false;
    };
    if reader != event.key() || EventId::At(other) == writer {
        return false;
    }
    is_like(start, event, EventId::At(other))
}

/// Whether one of the assumptions says so.
fn takes_another(
    start: &Candidate,
    assumed: &[Assumption],
    happens: &Relation,
    event: &Event,
    writer: EventId,
) -> bool
    requires event { IsEventOf start.now event.now }
    requires free { IsTearFree event.now }
    requires like { IsTearFreeLike (execution start.now) event.now writer }
    ensures { IsTrue result → IsNoWriter start.now assumed.now (key_of event.now) writer }
{
    let mut next = happens.first_of_events(event.key());
    for _ in 0..assumed.len() {
        let Some(place) = next else {
            return false;
        };
        if place >= assumed.len() {
            return false;
        }
        if takes_other(start, event, writer, &assumed[place]) {
            return true;
        }
        next = happens.named.after(place);
    }
    false
}

/// Whether the fourth rule excludes a writer from a read: another event that is tear-free with the range of the read gives
/// it a byte, by an assumption or since one of the bytes isn't from the writer.
pub(crate) fn would_tear(
    start: &Candidate,
    assumed: &[Assumption],
    happens: &Relation,
    event: &Event,
    bytes: &[u8],
    writer: EventId,
) -> bool
    requires rows { AreRows start.now assumed.now happens.now.kind happens.now.rows.items }
    requires kind { happens.now.kind ≡ Happens }
    requires event { IsEventOf start.now event.now }
    requires bytes { All (IsTearFreeByte start.now assumed.now event.now) bytes.now }
    ensures { IsTrue result → IsNoWriter start.now assumed.now (key_of event.now) writer }
{
    if !is_tear_free(event) {
        return false;
    }
    if !is_like(start, event, writer) {
        return false;
    }
    if takes_another(start, assumed, happens, event, writer) {
        return true;
    }
    for byte in bytes {
        if isnt_from(start, assumed, happens, event, *byte, writer) {
            return true;
        }
    }
    false
}
