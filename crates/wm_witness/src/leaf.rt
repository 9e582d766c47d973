//! A witness that is likely to make the log valid, given what is known. Nothing rests on it but how soon the search ends.
ghost use Rattle.std.specs.Prelude.{◌<◌};
ghost use Rattle.wm_witness.specs.Choice.{IsEventOf};
ghost use Rattle.wm_witness.specs.Rules.{IsNode};

use crate::assumption::Assumption;
use crate::choice::{event_of, fitting_ids, isnt_from};
use crate::node::Node;
use crate::relation::Pair;
use crate::rules::can_synchronize;
use crate::tearing::{is_like, is_tear_free};
use std::alloc::{AllocError, Global};
use wm_event::{Candidate, Event, EventId, EventKey};

/// The writers of the bytes of an event.
pub(crate) type Bytes = [Option<EventId>; 8];

/// Whether a writer would have to come after the read.
fn is_late(
    start: &Candidate,
    assumed: &[Assumption],
    node: &Node,
    reader: EventKey,
    writer: EventId,
) -> bool
    requires { IsNode start.now assumed.now node.now }
{
    let EventId::At(key) = writer else {
        return false;
    };
    let pair = Pair {
        first: key,
        second: reader,
    };
    let back = Pair {
        first: reader,
        second: key,
    };
    can_synchronize(start, pair) && !node.stands_open(start, assumed, back)
}

/// Whether an assumption is that a read takes a byte from an event.
fn is_assumed(assumed: &[Assumption], node: &Node, reader: EventKey, writer: EventKey) -> bool {
    let mut next = node.happens.first_of_events(reader);
    for _ in 0..assumed.len() {
        let Some(place) = next else {
            return false;
        };
        if assumed.get(place) == Some(&Assumption::Takes(reader, writer)) {
            return true;
        }
        next = node.happens.named.after(place);
    }
    false
}

/// How good a writer is for a read: worst one that would have to come after it, better one that is known to come before
/// it, best one that an assumption names.
fn merit(
    start: &Candidate,
    assumed: &[Assumption],
    node: &Node,
    event: &Event,
    writer: EventId,
) -> u32
    requires { IsNode start.now assumed.now node.now }
{
    let EventId::At(key) = writer else {
        return 2;
    };
    if is_assumed(assumed, node, event.key(), key) {
        return 8;
    }
    if is_late(start, assumed, node, event.key(), writer) {
        return 0;
    }
    let before = Pair {
        first: key,
        second: event.key(),
    };
    if !can_synchronize(start, before) {
        return 3;
    }
    if node.stands_open(start, assumed, before) {
        1
    } else {
        4
    }
}

/// Whether a read takes from one event at most, of those like this writer, by the fourth rule.
fn is_one_of(start: &Candidate, event: &Event, writer: EventId) -> bool {
    is_tear_free(event) && is_like(start, event, writer)
}

/// The best of the writers of a byte so far.
#[derive(Clone, Copy)]
struct Best {
    writer: Option<EventId>,
    merit: u32,
}

/// The best writer of a byte of a read so far, and of some ids: of those that aren't known to be another's and that any number
/// of which can be writers of the read.
fn best_of(
    start: &Candidate,
    assumed: &[Assumption],
    node: &Node,
    event: &Event,
    byte: u8,
    liked: Option<EventId>,
    ids: &[EventId],
    last: Best,
) -> Best
    requires node { IsNode start.now assumed.now node.now }
    requires event { IsEventOf start.now event.now }
    requires byte { byte < 8 }
{
    let mut best = last;
    for id in ids {
        if is_one_of(start, event, *id)
            || isnt_from(start, assumed, &node.happens, event, byte, *id)
        {
            continue;
        }
        let merit = if liked == Some(*id) {
            16
        } else {
            merit(start, assumed, node, event, *id)
        };
        if merit >= best.merit {
            best = Best {
                writer: Some(*id),
                merit,
            };
        }
    }
    best
}

/// The best writer of a byte of a read, of those that aren't known to be another's and that any number of which can be
/// writers of the read; None if there is none.
fn best_other(
    start: &Candidate,
    assumed: &[Assumption],
    node: &Node,
    event: &Event,
    byte: u8,
    liked: Option<EventId>,
) -> Option<EventId>
    requires node { IsNode start.now assumed.now node.now }
    requires event { IsEventOf start.now event.now }
    requires byte { byte < 8 }
{
    let address = u64::from(event.address) + u64::from(byte);
    let none = Best {
        writer: None,
        merit: 0,
    };
    let init = [EventId::Init];
    let mut best = best_of(start, assumed, node, event, byte, liked, &init, none);
    for thread in 0..start.log().threads().len() {
        let ids = start.thread_writes_to(thread, address);
        best = best_of(start, assumed, node, event, byte, liked, ids, best);
    }
    best.writer
}

/// For each byte of a read the writer that is known, otherwise the best of those any number of which can be writers of the
/// read.
fn other_writers(
    start: &Candidate,
    assumed: &[Assumption],
    node: &Node,
    index: usize,
    event: &Event,
) -> Bytes
    requires node { IsNode start.now assumed.now node.now }
    requires event { IsEventOf start.now event.now }
{
    let mut bytes = [None; 8];
    let mut liked = None;
    for byte in 0..event.width.bytes() {
        if let Some(writer) = node.writer(index, byte) {
            liked = Some(writer);
        }
    }
    for byte in 0..event.width.bytes() {
        let writer = match node.writer(index, byte) {
            Some(writer) => Some(writer),
            None => best_other(start, assumed, node, event, byte, liked),
        };
        if (byte as usize) < 8 {
            bytes[byte as usize] = writer;
        }
        if liked.is_none() {
            liked = writer;
        }
    }
    bytes
}

/// Whether a byte of a read can be from a writer, as far as it is known.
fn can_be_from(
    start: &Candidate,
    assumed: &[Assumption],
    node: &Node,
    index: usize,
    event: &Event,
    byte: u8,
    writer: EventId,
) -> bool
    requires node { IsNode start.now assumed.now node.now }
    requires event { IsEventOf start.now event.now }
    requires byte { byte < 8 }
{
    match node.writer(index, byte) {
        Some(known) => known == writer,
        None => !isnt_from(start, assumed, &node.happens, event, byte, writer),
    }
}

/// Whether there is a writer of a byte of a read other than the one of which it has one at most.
fn has_other(start: &Candidate, event: &Event, others: &Bytes, byte: u8) -> bool {
    match others.get(byte as usize) {
        Some(Some(other)) => !is_one_of(start, event, *other),
        _ => false,
    }
}

/// Whether one writer, of those of which a read has one at most, can give each byte for which there is no other.
fn is_enough(
    start: &Candidate,
    assumed: &[Assumption],
    node: &Node,
    index: usize,
    event: &Event,
    others: &Bytes,
    writer: EventId,
) -> bool
    requires node { IsNode start.now assumed.now node.now }
    requires event { IsEventOf start.now event.now }
{
    for byte in 0..event.width.bytes() {
        if !has_other(start, event, others, byte)
            && !can_be_from(start, assumed, node, index, event, byte, writer)
        {
            return false;
        }
    }
    true
}

/// The byte whose writers are looked at for the one of which a read has one at most: one that isn't from another, if there
/// is such a byte.
fn byte_of_one(event: &Event, others: &Bytes) -> u8
    ensures { result < 8 }
{
    for byte in 0..event.width.bytes() {
        if let Some(None) = others.get(byte as usize) {
            return byte;
        }
    }
    0
}

/// The best writer of those of which a read has one at most; None if there is none, or another is better.
fn best_one(
    alloc: Global,
    start: &Candidate,
    assumed: &[Assumption],
    node: &Node,
    index: usize,
    event: &Event,
    others: &Bytes,
) -> Result<Option<EventId>, AllocError>
    requires node { IsNode start.now assumed.now node.now }
    requires event { IsEventOf start.now event.now }
{
    let byte = byte_of_one(event, others);
    let mut best_merit = match others.get(byte as usize) {
        Some(Some(other)) => merit(start, assumed, node, event, *other),
        _ => 0,
    };
    let fit = fitting_ids(alloc, start, event, byte)?;
    let mut best = None;
    for id in fit.as_slice() {
        let merit = merit(start, assumed, node, event, *id);
        if merit >= best_merit
            && is_one_of(start, event, *id)
            && is_enough(start, assumed, node, index, event, others, *id)
            && (!has_other(start, event, others, byte)
                || can_be_from(start, assumed, node, index, event, byte, *id))
        {
            best = Some(*id);
            best_merit = merit;
        }
    }
    Ok(best)
}

/// The writers of the bytes of an event: those that are known, and others that are likely.
pub(crate) fn likely_writers(
    alloc: Global,
    start: &Candidate,
    assumed: &[Assumption],
    node: &Node,
    index: usize,
    key: EventKey,
) -> Result<Bytes, AllocError>
    requires { IsNode start.now assumed.now node.now }
{
    let Some(event) = event_of(start, key) else {
        return Ok([None; 8]);
    };
    if !event.reads() {
        return Ok([None; 8]);
    }
    let mut bytes = other_writers(start, assumed, node, index, event);
    if !is_tear_free(event) || node.is_known(event, index) {
        return Ok(bytes);
    }
    let Some(one) = best_one(alloc, start, assumed, node, index, event, &bytes)? else {
        return Ok(bytes);
    };
    for byte in 0..event.width.bytes() {
        if (byte as usize) < 8
            && (!has_other(start, event, &bytes, byte)
                || can_be_from(start, assumed, node, index, event, byte, one))
        {
            bytes[byte as usize] = Some(one);
        }
    }
    Ok(bytes)
}
