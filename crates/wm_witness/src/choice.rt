//! The writers that a byte of a read can have.
ghost use Rattle.std.specs.Prelude.{◌≡◌, ◌<◌, ◌++◌, All, IfOk, IfSome, IsTrue, OnOk};
ghost use Rattle.std.specs.List.{filter};
ghost use Rattle.wm_event.specs.Event.{key_of};
ghost use Rattle.wm_event.specs.Shape.{read_width};
ghost use Rattle.wm_writers.specs.Fits.{fits as spec_fits, fitting, is_from as spec_is_from};
ghost use Rattle.wm_witness.specs.Always.{IsClosed};
ghost use Rattle.wm_witness.specs.Choice.{Denies, IsChoice, IsEventOf, IsExcluded, IsTaken};
ghost use Rattle.wm_witness.specs.Relations.{AreRows};
ghost use Rattle.wm_witness.specs.Tearing.{IsTearFreeByte};
ghost use Rattle.wm_witness.specs.declared.relation.Kind.TheVariants.{Happens};

use crate::assumption::Assumption;
use crate::relation::{Pair, Relation};
use crate::tearing::would_tear;
use std::alloc::{AllocError, Global};
use wm_event::{Candidate, Event, EventId, EventKey, byte_of};
use wm_list::List;

/// That a byte of a read is from a writer.
#[derive(Clone, Copy)]
pub(crate) struct Taken {
    pub reader: EventKey,
    pub byte: u8,
    pub writer: EventId,
}

/// Two writers that a byte of a read can have.
#[derive(Clone, Copy)]
pub(crate) struct Two {
    pub first: EventId,
    pub second: EventId,
}

/// Which writers a byte of a read can have.
#[derive(Clone, Copy)]
pub(crate) enum Choice {
    Nothing,
    Only(EventId),
    Several,
}

/// Whether an id is this event or a later one of its thread.
fn is_from(reader: EventKey, id: EventId) -> bool
    ensures { result ≡ spec_is_from reader id }
{
    match id {
        EventId::Init => false,
        EventId::At(key) => key.thread == reader.thread && reader.number <= key.number,
    }
}

/// Whether an id fits a byte of a read: it leaves there the value that was read, and is neither the read nor a later event
/// of its thread.
fn fits(start: &Candidate, event: &Event, byte: u8, id: EventId) -> bool
    requires { byte < 8 }
    ensures { result ≡ spec_fits start.now.log start.now.initial event.now byte id }
{
    let address = u64::from(event.address) + u64::from(byte);
    match start.byte_by(id, address) {
        None => false,
        Some(left) => left == byte_of(event.read, byte) && !is_from(event.key(), id),
    }
}

/// Appends the ids that fit a byte of a read.
fn add_fitting(
    fit: &mut List<EventId>,
    start: &Candidate,
    event: &Event,
    byte: u8,
    ids: &[EventId],
) -> Result<(), AllocError>
    requires { byte < 8 }
    ensures { OnOk result (fit.new ≡ fit.old ++ filter (spec_fits start.now.log start.now.initial event.now byte) ids.now) }
{
    for id in ids {
        if fits(start, event, byte, *id) {
            fit.push(*id)?;
        }
    }
    Ok(())
}

/// All ids that fit a byte of a read: Init first, then the events of each thread, one thread after the other.
pub(crate) fn fitting_ids(
    alloc: Global,
    start: &Candidate,
    event: &Event,
    byte: u8,
) -> Result<List<EventId>, AllocError>
    requires { byte < 8 }
    ensures { IfOk result (λ fit. fit ≡ fitting start.now.log start.now.initial event.now byte) }
{
    let mut fit = List::new(alloc);
    add_fitting(&mut fit, start, event, byte, &[EventId::Init])?;
    let address = u64::from(event.address) + u64::from(byte);
    for thread in 0..start.log().threads().len() {
        let writes = start.thread_writes_to(thread, address);
        add_fitting(&mut fit, start, event, byte, writes)?;
    }
    Ok(fit)
}

/// Whether an assumption says that the byte of the read isn't from the writer.
fn denies(assumption: &Assumption, reader: EventKey, byte: u8, id: EventId) -> bool
    ensures { IsTrue result → Denies assumption.now reader byte id }
{
    match *assumption {
        Assumption::Byte(other, place, writer) => {
            other == reader && place == byte && writer != id
        }
        Assumption::NotByte(other, place, writer) => {
            other == reader && place == byte && writer == id
        }
        Assumption::TakesNone(other, writer) => match id {
            EventId::Init => false,
            EventId::At(key) => other == reader && writer == key,
        },
        _ => false,
    }
}

/// Whether one of the assumptions in the list from a place on says that the byte of the read isn't from the writer.
fn is_denied_from(
    start: &Candidate,
    assumed: &[Assumption],
    happens: &Relation,
    first: Option<usize>,
    reader: EventKey,
    byte: u8,
    id: EventId,
) -> bool
    ensures { IsTrue result → IsExcluded start.now assumed.now reader byte id }
{
    let mut next = first;
    for _ in 0..assumed.len() {
        let Some(place) = next else {
            return false;
        };
        if place >= assumed.len() {
            return false;
        }
        if denies(&assumed[place], reader, byte, id) {
            return true;
        }
        next = happens.named.after(place);
    }
    false
}

/// Whether an assumption about the writer of a byte of a read says that the byte isn't from the writer.
fn is_denied_byte(
    start: &Candidate,
    assumed: &[Assumption],
    happens: &Relation,
    reader: EventKey,
    byte: u8,
    id: EventId,
) -> bool
    ensures { IsTrue result → IsExcluded start.now assumed.now reader byte id }
{
    let first = happens.first_of_bytes(reader);
    is_denied_from(start, assumed, happens, first, reader, byte, id)
}

/// Whether an assumption says that a read, and so a byte of it, takes nothing from the writer.
fn is_denied_event(
    start: &Candidate,
    assumed: &[Assumption],
    happens: &Relation,
    reader: EventKey,
    byte: u8,
    id: EventId,
) -> bool
    ensures { IsTrue result → IsExcluded start.now assumed.now reader byte id }
{
    if let EventId::Init = id {
        return false;
    }
    let first = happens.first_of_events(reader);
    is_denied_from(start, assumed, happens, first, reader, byte, id)
}

/// Whether a write is known to come between a writer and a read of the byte in happens-before.
pub(crate) fn comes_between(
    start: &Candidate,
    assumed: &[Assumption],
    happens: &Relation,
    event: &Event,
    byte: u8,
    writer: EventId,
    other: EventKey,
) -> bool
    requires rows { AreRows start.now assumed.now happens.now.kind happens.now.rows.items }
    requires kind { happens.now.kind ≡ Happens }
    requires event { IsEventOf start.now event.now }
    ensures { IsTrue result → IsExcluded start.now assumed.now (key_of event.now) byte writer }
{
    let address = u64::from(event.address) + u64::from(byte);
    if start.byte_by(EventId::At(other), address).is_none() {
        return false;
    }
    let reads = Pair {
        first: other,
        second: event.key(),
    };
    if !happens.has(start, assumed, reads) {
        return false;
    }
    match writer {
        EventId::Init => true,
        EventId::At(first) => happens.has(
            start,
            assumed,
            Pair {
                first,
                second: other,
            },
        ),
    }
}

/// The last of some events of a thread, in its order, that is among the first `count` of the thread.
fn last_of(ids: &[EventId], count: u32) -> Option<EventKey> {
    let place = ids.partition_point(|id| match id {
        EventId::Init => true,
        EventId::At(key) => key.number < count,
    });
    if place == 0 {
        return None;
    }
    match ids.get(place - 1)? {
        EventId::Init => None,
        EventId::At(key) => Some(*key),
    }
}

/// Whether a writer is known to happen before an event, named by its thread and its number there. Nothing rests on it.
fn is_counted(happens: &Relation, writer: EventId, thread: usize, number: usize) -> bool {
    match writer {
        EventId::Init => true,
        EventId::At(key) => happens.counts(thread, number, key),
    }
}

/// A write of the first byte of a read that is known to happen before it. Nothing rests on it.
pub(crate) fn write_before(
    start: &Candidate,
    happens: &Relation,
    event: &Event,
) -> Option<EventKey> {
    let address = u64::from(event.address);
    let index = happens.index(event.key())?;
    for thread in 0..start.log().threads().len() {
        let count = happens.count(index, thread);
        if count > 0
            && let Some(other) = last_of(start.thread_writes_to(thread, address), count)
        {
            return Some(other);
        }
    }
    None
}

/// Whether a write of a thread is known to come between a writer and a read of the byte in happens-before: the last one before
/// the read is looked at. None does if the last event of the thread before the read isn't known to happen after the writer.
fn is_overwritten_by(
    start: &Candidate,
    assumed: &[Assumption],
    happens: &Relation,
    event: &Event,
    byte: u8,
    writer: EventId,
    thread: usize,
) -> bool
    requires rows { AreRows start.now assumed.now happens.now.kind happens.now.rows.items }
    requires kind { happens.now.kind ≡ Happens }
    requires event { IsEventOf start.now event.now }
    ensures { IsTrue result → IsExcluded start.now assumed.now (key_of event.now) byte writer }
{
    if thread >= start.log().threads().len() {
        return false;
    }
    let count = happens.count_before(event.key(), thread);
    if count == 0 || !is_counted(happens, writer, thread, count as usize - 1) {
        return false;
    }
    let address = u64::from(event.address) + u64::from(byte);
    let Some(other) = last_of(start.thread_writes_to(thread, address), count) else {
        return false;
    };
    if !is_counted(happens, writer, thread, other.number as usize) {
        return false;
    }
    comes_between(start, assumed, happens, event, byte, writer, other)
}

/// Whether some write is known to come between a writer and a read of the byte in happens-before. The thread of the writer comes
/// first.
fn is_overwritten(
    start: &Candidate,
    assumed: &[Assumption],
    happens: &Relation,
    event: &Event,
    byte: u8,
    writer: EventId,
) -> bool
    requires rows { AreRows start.now assumed.now happens.now.kind happens.now.rows.items }
    requires kind { happens.now.kind ≡ Happens }
    requires event { IsEventOf start.now event.now }
    ensures { IsTrue result → IsExcluded start.now assumed.now (key_of event.now) byte writer }
{
    let own = match writer {
        EventId::Init => event.thread as usize,
        EventId::At(key) => key.thread as usize,
    };
    if is_overwritten_by(start, assumed, happens, event, byte, writer, own) {
        return true;
    }
    for thread in 0..start.log().threads().len() {
        if thread != own
            && is_overwritten_by(start, assumed, happens, event, byte, writer, thread)
        {
            return true;
        }
    }
    false
}

/// Whether a writer isn't that of a byte of a read by what is known to happen before what. An event that isn't known to happen
/// before the read isn't known to be overwritten, and one that is doesn't happen after it.
fn is_out_of_time(
    start: &Candidate,
    assumed: &[Assumption],
    happens: &Relation,
    event: &Event,
    byte: u8,
    writer: EventId,
) -> bool
    requires rows { AreRows start.now assumed.now happens.now.kind happens.now.rows.items }
    requires kind { happens.now.kind ≡ Happens }
    requires event { IsEventOf start.now event.now }
    ensures { IsTrue result → IsExcluded start.now assumed.now (key_of event.now) byte writer }
{
    if let EventId::At(key) = writer
        && !is_counted(
            happens,
            writer,
            event.thread as usize,
            event.number as usize,
        )
    {
        let after = Pair {
            first: event.key(),
            second: key,
        };
        return happens.has(start, assumed, after);
    }
    is_overwritten(start, assumed, happens, event, byte, writer)
}

/// Whether a writer is known not to be that of a byte of a read.
pub(crate) fn is_excluded(
    start: &Candidate,
    assumed: &[Assumption],
    happens: &Relation,
    event: &Event,
    byte: u8,
    writer: EventId,
) -> bool
    requires rows { AreRows start.now assumed.now happens.now.kind happens.now.rows.items }
    requires kind { happens.now.kind ≡ Happens }
    requires event { IsEventOf start.now event.now }
    ensures { IsTrue result → IsExcluded start.now assumed.now (key_of event.now) byte writer }
{
    is_denied_byte(start, assumed, happens, event.key(), byte, writer)
        || is_denied_event(start, assumed, happens, event.key(), byte, writer)
        || is_out_of_time(start, assumed, happens, event, byte, writer)
}

/// Whether a byte of a read isn't from a writer by what is known of that byte alone: it doesn't fit the byte, or an assumption
/// about the writer of the byte says so.
pub(crate) fn is_unfit(
    start: &Candidate,
    assumed: &[Assumption],
    happens: &Relation,
    event: &Event,
    byte: u8,
    writer: EventId,
) -> bool
    requires event { IsEventOf start.now event.now }
    requires byte { byte < 8 }
    ensures { IsTrue result → IsExcluded start.now assumed.now (key_of event.now) byte writer }
{
    let _log = start.log();
    !fits(start, event, byte, writer)
        || is_denied_byte(start, assumed, happens, event.key(), byte, writer)
}

/// Whether a byte of a read isn't from a writer: it doesn't fit the byte, or is known not to be its writer.
pub(crate) fn isnt_from(
    start: &Candidate,
    assumed: &[Assumption],
    happens: &Relation,
    event: &Event,
    byte: u8,
    writer: EventId,
) -> bool
    requires rows { AreRows start.now assumed.now happens.now.kind happens.now.rows.items }
    requires kind { happens.now.kind ≡ Happens }
    requires event { IsEventOf start.now event.now }
    requires byte { byte < 8 }
    ensures { IsTrue result → IsExcluded start.now assumed.now (key_of event.now) byte writer }
{
    is_unfit(start, assumed, happens, event, byte, writer)
        || is_denied_event(start, assumed, happens, event.key(), byte, writer)
        || is_out_of_time(start, assumed, happens, event, byte, writer)
}

/// Whether a writer fits a byte of a read, and isn't known not to be that of it.
fn is_possible(
    start: &Candidate,
    assumed: &[Assumption],
    happens: &Relation,
    event: &Event,
    bytes: &[u8],
    byte: u8,
    writer: EventId,
) -> bool
    requires rows { AreRows start.now assumed.now happens.now.kind happens.now.rows.items }
    requires kind { happens.now.kind ≡ Happens }
    requires event { IsEventOf start.now event.now }
    requires bytes { All (IsTearFreeByte start.now assumed.now event.now) bytes.now }
    requires byte { byte < 8 }
{
    if isnt_from(start, assumed, happens, event, byte, writer) {
        return false;
    }
    !would_tear(start, assumed, happens, event, bytes, writer)
}

/// How many of some ids are of events before the last one that is known to happen before a read.
fn count_past(happens: &Relation, event: &Event, thread: usize, ids: &[EventId]) -> usize {
    let Some(index) = happens.index(event.key()) else {
        return 0;
    };
    let count = happens.count(index, thread);
    let place = ids.partition_point(|id| match id {
        EventId::Init => true,
        EventId::At(key) => key.number < count,
    });
    place.saturating_sub(1)
}

/// Whether a byte of a read can have both of two writers.
fn can_have(
    start: &Candidate,
    assumed: &[Assumption],
    happens: &Relation,
    event: &Event,
    bytes: &[u8],
    byte: u8,
    two: Two,
) -> bool
    requires rows { AreRows start.now assumed.now happens.now.kind happens.now.rows.items }
    requires kind { happens.now.kind ≡ Happens }
    requires event { IsEventOf start.now event.now }
    requires bytes { All (IsTearFreeByte start.now assumed.now event.now) bytes.now }
    requires byte { byte < 8 }
{
    is_possible(start, assumed, happens, event, bytes, byte, two.first)
        && is_possible(start, assumed, happens, event, bytes, byte, two.second)
}

/// Two writers that a byte of a read can have, found at a first look: those that are liked if it can have them, as those of
/// another byte of the read. Nothing rests on it.
pub(crate) fn find_two(
    start: &Candidate,
    assumed: &[Assumption],
    happens: &Relation,
    event: &Event,
    bytes: &[u8],
    byte: u8,
    liked: Option<Two>,
) -> Option<Two>
    requires rows { AreRows start.now assumed.now happens.now.kind happens.now.rows.items }
    requires kind { happens.now.kind ≡ Happens }
    requires event { IsEventOf start.now event.now }
    requires bytes { All (IsTearFreeByte start.now assumed.now event.now) bytes.now }
    requires byte { byte < 8 }
{
    if let Some(two) = liked
        && can_have(start, assumed, happens, event, bytes, byte, two)
    {
        return liked;
    }
    let address = u64::from(event.address) + u64::from(byte);
    let mut found = None;
    if is_possible(start, assumed, happens, event, bytes, byte, EventId::Init) {
        found = Some(EventId::Init);
    }
    for thread in 0..start.log().threads().len() {
        let ids = start.thread_writes_to(thread, address);
        for place in count_past(happens, event, thread, ids)..ids.len() {
            if is_possible(start, assumed, happens, event, bytes, byte, ids[place]) {
                let second = ids[place];
                if let Some(first) = found {
                    return Some(Two { first, second });
                }
                found = Some(second);
            }
        }
    }
    None
}

/// Which writers a byte of a read can have, beside its tear-free bytes.
pub(crate) fn choice_of(
    alloc: Global,
    start: &Candidate,
    assumed: &[Assumption],
    happens: &Relation,
    event: &Event,
    bytes: &[u8],
    byte: u8,
) -> Result<Choice, AllocError>
    requires rows { AreRows start.now assumed.now happens.now.kind happens.now.rows.items }
    requires kind { happens.now.kind ≡ Happens }
    requires event { IsEventOf start.now event.now }
    requires bytes { All (IsTearFreeByte start.now assumed.now event.now) bytes.now }
    requires byte { byte < read_width event.now }
    ensures { IfOk result (IsChoice start.now assumed.now event.now byte) }
{
    let _log = start.log();
    let fit = fitting_ids(alloc, start, event, byte)?;
    let mut found = None;
    for writer in fit.as_slice() {
        if is_excluded(start, assumed, happens, event, byte, *writer) {
            continue;
        }
        if would_tear(start, assumed, happens, event, bytes, *writer) {
            continue;
        }
        if found.is_some() {
            return Ok(Choice::Several);
        }
        found = Some(*writer);
    }
    match found {
        None => Ok(Choice::Nothing),
        Some(writer) => Ok(Choice::Only(writer)),
    }
}

/// The event of that name; None if there is no such event.
pub(crate) fn event_of<'a>(start: &'a Candidate, key: EventKey) -> Option<&'a Event>
    ensures { IfSome result (λ event. IsEventOf start.now event.now) }
{
    let _log = start.log();
    start.event(EventId::At(key))
}

/// Whether a writer that is known to be that of a byte is also known not to be.
pub(crate) fn is_refuted(
    start: &Candidate,
    assumed: &[Assumption],
    happens: &Relation,
    taken: &Taken,
) -> bool
    requires rows { AreRows start.now assumed.now happens.now.kind happens.now.rows.items }
    requires kind { happens.now.kind ≡ Happens }
    requires taken { IsTaken start.now assumed.now taken.now }
    ensures { IsTrue result → IsClosed start.now assumed.now }
{
    let Some(event) = event_of(start, taken.reader) else {
        return false;
    };
    if event.key() != taken.reader {
        return false;
    }
    is_excluded(start, assumed, happens, event, taken.byte, taken.writer)
}
