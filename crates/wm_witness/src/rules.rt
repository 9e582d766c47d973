//! What always stands before what in the order, by the fifth rule.
ghost use Rattle.std.specs.Prelude.{◌≡◌, IfSome, IsTrue};
ghost use Rattle.wm_witness.specs.Choice.{IsTaken};
ghost use Rattle.wm_witness.specs.Relations.{AreRows, IsPair, IsSynchronized};
ghost use Rattle.wm_witness.specs.Rules.{CanSynchronize, IsAtomicWriteOf};
ghost use Rattle.wm_witness.specs.declared.relation.Kind.TheVariants.{Happens, Stands};

use crate::assumption::Assumption;
use crate::choice::Taken;
use crate::relation::{Pair, Relation};
use wm_event::{Candidate, EventId, EventKey, Range};

/// Whether both events are atomic with equal ranges.
pub(crate) fn can_synchronize(start: &Candidate, pair: Pair) -> bool
    ensures { IsTrue result → CanSynchronize start.now.log pair.first pair.second }
{
    let writer = start.event(EventId::At(pair.first));
    let reader = start.event(EventId::At(pair.second));
    match (writer, reader) {
        (Some(writer), Some(reader)) => {
            writer.is_atomic() && reader.is_atomic() && writer.range() == reader.range()
        }
        _ => false,
    }
}

/// The pair that synchronizes, if a read takes a byte from a write and both are atomic with equal ranges.
pub(crate) fn pair_of_taken(
    start: &Candidate,
    assumed: &[Assumption],
    taken: &Taken,
) -> Option<Pair>
    requires { IsTaken start.now assumed.now taken.now }
    ensures { IfSome result (IsSynchronized start.now assumed.now) }
{
    let EventId::At(first) = taken.writer else {
        return None;
    };
    let pair = Pair {
        first,
        second: taken.reader,
    };
    if can_synchronize(start, pair) {
        Some(pair)
    } else {
        None
    }
}

/// The pair that synchronizes by an assumption.
pub(crate) fn pair_assumed(start: &Candidate, assumed: &[Assumption], index: usize) -> Option<Pair>
    ensures { IfSome result (IsSynchronized start.now assumed.now) }
{
    match assumed.get(index)? {
        Assumption::Takes(reader, writer) => {
            let pair = Pair {
                first: *writer,
                second: *reader,
            };
            if can_synchronize(start, pair) {
                Some(pair)
            } else {
                None
            }
        }
        _ => None,
    }
}

/// The pair that an assumption orders.
pub(crate) fn order_assumed(start: &Candidate, assumed: &[Assumption], index: usize) -> Option<Pair>
    ensures { IfSome result (IsPair start.now assumed.now Stands) }
{
    match assumed.get(index)? {
        Assumption::Before(first, second) => Some(Pair {
            first: *first,
            second: *second,
        }),
        _ => None,
    }
}

/// What a byte that is assumed to be from a writer says.
pub(crate) fn byte_assumed(start: &Candidate, assumed: &[Assumption], index: usize) -> Option<Taken>
    ensures { IfSome result (IsTaken start.now assumed.now) }
{
    match assumed.get(index)? {
        Assumption::Byte(reader, byte, writer) => Some(Taken {
            reader: *reader,
            byte: *byte,
            writer: *writer,
        }),
        _ => None,
    }
}

/// Whether an event is an atomic write of a range.
fn is_atomic_write_of(start: &Candidate, key: EventKey, range: Range) -> bool
    ensures { IsTrue result → IsAtomicWriteOf start.now.log key range }
{
    match start.event(EventId::At(key)) {
        Some(event) => event.is_atomic() && event.writes() && event.range() == range,
        None => false,
    }
}

/// Case 1: another atomic write of the range isn't between a write and the read with which it synchronizes. So if it is
/// before the read, it is before the write; and if it is after the write, it is after the read.
pub(crate) fn not_between(
    start: &Candidate,
    assumed: &[Assumption],
    stands: &Relation,
    pair: Pair,
    other: EventKey,
) -> Option<Pair>
    requires rows { AreRows start.now assumed.now stands.now.kind stands.now.rows.items }
    requires kind { stands.now.kind ≡ Stands }
    requires pair { IsSynchronized start.now assumed.now pair }
    ensures { IfSome result (IsPair start.now assumed.now Stands) }
{
    let reader = start.event(EventId::At(pair.second))?;
    if other == pair.first || other == pair.second {
        return None;
    }
    if !is_atomic_write_of(start, other, reader.range()) {
        return None;
    }
    let before = Pair {
        first: other,
        second: pair.second,
    };
    let after = Pair {
        first: pair.first,
        second: other,
    };
    if stands.has(start, assumed, before) {
        Some(Pair {
            first: other,
            second: pair.first,
        })
    } else if stands.has(start, assumed, after) {
        Some(Pair {
            first: pair.second,
            second: other,
        })
    } else {
        None
    }
}

/// Case 2: if a read takes a byte from an atomic write, and another atomic write of the range of the write also happens
/// before the read, that one is before the write.
pub(crate) fn not_overwritten(
    start: &Candidate,
    assumed: &[Assumption],
    happens: &Relation,
    taken: &Taken,
    other: EventKey,
) -> Option<Pair>
    requires rows { AreRows start.now assumed.now happens.now.kind happens.now.rows.items }
    requires kind { happens.now.kind ≡ Happens }
    requires taken { IsTaken start.now assumed.now taken.now }
    ensures { IfSome result (IsPair start.now assumed.now Stands) }
{
    let EventId::At(writer) = taken.writer else {
        return None;
    };
    let event = start.event(EventId::At(writer))?;
    if other == writer || !event.is_atomic() {
        return None;
    }
    if !is_atomic_write_of(start, other, event.range()) {
        return None;
    }
    let first = Pair {
        first: writer,
        second: taken.reader,
    };
    let second = Pair {
        first: other,
        second: taken.reader,
    };
    if happens.has(start, assumed, first) && happens.has(start, assumed, second) {
        Some(Pair {
            first: other,
            second: writer,
        })
    } else {
        None
    }
}

/// Case 3: if an atomic read takes a byte from a write that happens before it and before another atomic write of the range
/// of the read, that one is after the read.
pub(crate) fn not_past(
    start: &Candidate,
    assumed: &[Assumption],
    happens: &Relation,
    taken: &Taken,
    other: EventKey,
) -> Option<Pair>
    requires rows { AreRows start.now assumed.now happens.now.kind happens.now.rows.items }
    requires kind { happens.now.kind ≡ Happens }
    requires taken { IsTaken start.now assumed.now taken.now }
    ensures { IfSome result (IsPair start.now assumed.now Stands) }
{
    let event = start.event(EventId::At(taken.reader))?;
    if other == taken.reader || !event.is_atomic() {
        return None;
    }
    if !is_atomic_write_of(start, other, event.range()) {
        return None;
    }
    let pair = Pair {
        first: taken.reader,
        second: other,
    };
    match taken.writer {
        EventId::Init => Some(pair),
        EventId::At(writer) => {
            let before = Pair {
                first: writer,
                second: taken.reader,
            };
            let after = Pair {
                first: writer,
                second: other,
            };
            if happens.has(start, assumed, before) && happens.has(start, assumed, after) {
                Some(pair)
            } else {
                None
            }
        }
    }
}
