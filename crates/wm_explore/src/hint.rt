//! Likely executions: guesses that are not proved. Nothing rests on them but how often a search for a witness is made.

use crate::clock::Clock;
use std::alloc::{AllocError, Global};
use wm_event::{Event, EventId, EventKey, EventKind, Initial, Log, Witness};

/// An event that has happened.
#[derive(Clone, Copy)]
struct Happened {
    event: Event,
    /// What happens before it, and it itself.
    clock: Clock,
}

/// An execution of the events of a state that the memory rules are likely to permit: the events in the order of a witness.
#[derive(Drop)]
pub(crate) struct Hint {
    order: Vec<Happened>,
}

/// Where a read takes its bytes from.
#[derive(Clone, Copy)]
enum Source<'a> {
    Init,
    /// The event at that place of the order.
    From(usize, &'a Happened),
    /// An event that comes later in the order, and doesn't synchronize with the reader.
    Later(&'a Happened),
}

/// A place in the order for a new event.
#[derive(Clone, Copy)]
struct Spot {
    place: usize,
    happened: Happened,
}

/// Whether a new event has a place in the order.
#[derive(Clone, Copy)]
enum Fit {
    /// It has one.
    At(Spot),
    /// It would have one before the event at that place, if that came later.
    Blocked(usize),
    /// It has none.
    Nowhere,
}

/// Which part of an order.
#[derive(Clone, Copy, PartialEq, Eq)]
enum Part {
    /// The events that an event doesn't happen before.
    Earlier,
    /// That event, and those that it happens before.
    Later,
}

impl Fit {
    /// This one, or the other if that is better.
    fn or(self, other: Fit) -> Fit {
        match (self, other) {
            (Fit::Nowhere, _) | (Fit::Blocked(_), Fit::At(_)) => other,
            _ => self,
        }
    }
}

/// Whether an event that takes a byte from another one synchronizes with it.
fn synchronizes(writer: &Event, reader: &Event) -> bool {
    writer.is_atomic() && reader.is_atomic() && writer.range() == reader.range()
}

/// Whether an event writes a byte that another one accesses.
pub(crate) fn writes_in(writer: &Event, reader: &Event) -> bool {
    let (first, second) = (u64::from(writer.address), u64::from(reader.address));
    writer.writes()
        && first < second + u64::from(reader.width.bytes())
        && second < first + u64::from(writer.width.bytes())
}

/// The write that leaves the bytes that an event reads.
pub(crate) fn write_of(reader: &Event) -> Event {
    Event {
        kind: EventKind::Write,
        written: reader.read,
        ..*reader
    }
}

/// Whether an event leaves all bytes that another one reads.
fn leaves(writer: &Event, reader: &Event) -> bool {
    if !writes_in(writer, reader) {
        return false;
    }
    if writer.range() == reader.range() {
        return writer.written == reader.read;
    }
    let write = write_of(reader);
    for byte in 0..reader.width.bytes() {
        let address = u64::from(reader.address) + u64::from(byte);
        if writer.byte_written(address) != write.byte_written(address) {
            return false;
        }
    }
    true
}

/// Whether the initial memory has the bytes that an event reads.
fn begins_with(initial: &Initial, reader: &Event) -> bool {
    let write = write_of(reader);
    for byte in 0..reader.width.bytes() {
        let address = u64::from(reader.address) + u64::from(byte);
        if initial.byte(address as usize) != write.byte_written(address) {
            return false;
        }
    }
    true
}

/// A reader that takes its bytes from a source.
#[derive(Clone, Copy)]
struct Taking<'a> {
    reader: Event,
    source: Source<'a>,
    /// What happens before the reader, and it itself.
    clock: Clock,
}

/// The room that another event leaves a reader in the order.
#[derive(Clone, Copy)]
enum Room {
    /// Anywhere.
    Free,
    /// Before that event.
    Before,
    /// Nowhere.
    Nowhere,
}

impl<'a> Taking<'a> {
    /// A reader that takes its bytes from a source, where so much happens before it otherwise.
    fn of(reader: Event, source: Source<'a>, before: &Clock) -> Self {
        let clock = match source {
            // What happens before a writer is counted with it.
            Source::From(_, writer)
                if !before.counts(writer.event.key()) && synchronizes(&writer.event, &reader) => {
                before.joined(&writer.clock)
            }
            _ => *before,
        };
        Taking {
            reader,
            source,
            clock,
        }
    }

    /// Whether the source happens before another event.
    fn source_is_before(&self, other: &Happened) -> bool {
        match self.source {
            Source::Init => true,
            Source::From(_, writer) | Source::Later(writer) => {
                other.clock.counts(writer.event.key())
            }
        }
    }

    /// Whether the source happens before the reader.
    fn source_is_past(&self) -> bool {
        match self.source {
            Source::Init => true,
            Source::From(_, writer) | Source::Later(writer) => {
                self.clock.counts(writer.event.key())
            }
        }
    }

    /// The room that an atomic write leaves the reader that stands after the source.
    fn room_by_atomic(&self, other: &Happened) -> Room {
        let write = &other.event;
        if let Source::From(_, writer) = self.source
            && writer.event.is_atomic()
            && writer.event.range() == write.range()
            && self.source_is_past()
            && self.clock.counts(write.key())
        {
            return Room::Nowhere;
        }
        if !self.reader.is_atomic() || self.reader.range() != write.range() {
            return Room::Free;
        }
        match self.source {
            Source::From(_, writer) if synchronizes(&writer.event, &self.reader) => Room::Before,
            _ if self.source_is_past() && self.source_is_before(other) => Room::Before,
            _ => Room::Free,
        }
    }

    /// The room that an event which comes after the source leaves the reader.
    fn room_by(&self, other: &Happened) -> Room {
        if !other.event.writes() {
            return Room::Free;
        }
        if self.clock.counts(other.event.key())
            && writes_in(&other.event, &self.reader)
            && self.source_is_before(other)
        {
            return Room::Nowhere;
        }
        if other.event.is_atomic() {
            self.room_by_atomic(other)
        } else {
            Room::Free
        }
    }

    /// The first place of the order that could come after the source.
    fn after_source(&self, order: &[Happened]) -> usize {
        match self.source {
            Source::Init => 0,
            Source::From(place, _) => place.saturating_add(1),
            Source::Later(_) => order.len(),
        }
    }

    /// The first place of the order that comes after all that happens before the reader.
    fn earliest(&self, order: &[Happened]) -> usize {
        // A write in the middle could come between others.
        if self.reader.writes() {
            return order.len();
        }
        let last = order
            .iter()
            .rposition(|other| self.clock.counts(other.event.key()));
        match last {
            None => 0,
            Some(place) => place.saturating_add(1),
        }
    }

    /// The place in the order that the reader can have: the first one, so that the next events of its thread can have the
    /// most.
    fn fit(&self, order: &[Happened]) -> Fit {
        let mut latest = order.len();
        for place in self.after_source(order)..order.len() {
            match self.room_by(&order[place]) {
                Room::Free => {}
                Room::Before => latest = latest.min(place),
                Room::Nowhere => return Fit::Nowhere,
            }
        }
        let earliest = self.earliest(order);
        if latest < earliest {
            return Fit::Blocked(latest);
        }
        Fit::At(Spot {
            place: earliest,
            happened: Happened {
                event: self.reader,
                clock: self.clock,
            },
        })
    }
}

/// What happens before the next event of a thread, if it takes nothing from other threads, and it itself.
fn next_clock(order: &[Happened], next: EventKey) -> Clock {
    for happened in order.iter().rev() {
        if happened.event.thread == next.thread {
            return happened.clock.with(next);
        }
    }
    Clock::zero().with(next)
}

/// Whether an event that isn't in the order yet leaves all bytes that another one reads, without synchronizing with it.
fn is_later_source(order: &[Happened], writer: &Happened, reader: &Event) -> bool {
    let key = writer.event.key();
    leaves(&writer.event, reader)
        && !synchronizes(&writer.event, reader)
        && !order.iter().any(|other| other.event.key() == key)
}

/// A place for an update, which comes last in the order: after the last event that leaves all bytes that it reads.
fn updating_fit(order: &[Happened], before: &Clock, event: Event) -> Fit {
    for (place, writer) in order.iter().enumerate().rev() {
        if leaves(&writer.event, &event) {
            return Taking::of(event, Source::From(place, writer), before).fit(order);
        }
    }
    Fit::Nowhere
}

/// A place for a new event that reads, which takes all bytes from the first source from which it can: so the least happens
/// before it. An update takes them from the last one, if it can. Some events are to come later.
fn reading_fit(order: &[Happened], later: &[Happened], initial: &Initial, event: Event) -> Fit {
    let before = next_clock(order, event.key());
    if event.writes()
        && let Fit::At(spot) = updating_fit(order, &before, event)
    {
        return Fit::At(spot);
    }
    let mut fit = Fit::Nowhere;
    if begins_with(initial, &event) {
        fit = Taking::of(event, Source::Init, &before).fit(order);
    }
    for (place, writer) in order.iter().enumerate() {
        if let Fit::At(_) = fit {
            return fit;
        }
        if leaves(&writer.event, &event) {
            fit = fit.or(Taking::of(event, Source::From(place, writer), &before).fit(order));
        }
    }
    for writer in later {
        if let Fit::At(_) = fit {
            return fit;
        }
        if is_later_source(order, writer, &event) {
            fit = fit.or(Taking::of(event, Source::Later(writer), &before).fit(order));
        }
    }
    fit
}

impl Hint {
    /// Nothing has happened.
    pub(crate) fn new(alloc: Global) -> Self {
        Hint {
            order: Vec::new(alloc),
        }
    }

    /// Adds an event that comes last and takes its bytes from what was written last.
    pub(crate) fn append(&mut self, event: Event) -> Result<(), AllocError> {
        let mut clock = next_clock(self.order.as_slice(), event.key());
        for happened in self.order.as_slice().iter().rev() {
            if writes_in(&happened.event, &event) {
                if event.reads() && synchronizes(&happened.event, &event) {
                    clock = clock.joined(&happened.clock);
                }
                break;
            }
        }
        self.order.push(Happened { event, clock })?;
        Ok(())
    }

    /// A place for one more event, where some events are to come later.
    fn fit(&self, initial: &Initial, event: Event, later: &[Happened]) -> Fit {
        let order = self.order.as_slice();
        if event.reads() {
            return reading_fit(order, later, initial, event);
        }
        let clock = next_clock(order, event.key());
        let place = order.len();
        let happened = Happened { event, clock };
        Fit::At(Spot { place, happened })
    }

    /// The same with one more event; None if no place for it is found.
    pub(crate) fn with(
        &self,
        alloc: Global,
        initial: &Initial,
        event: Event,
    ) -> Result<Option<Self>, AllocError> {
        match self.fit(initial, event, &[]) {
            Fit::At(spot) => Ok(Some(self.inserted(alloc, &spot)?)),
            Fit::Blocked(place) => self.delaying(alloc, initial, place, event),
            Fit::Nowhere => Ok(None),
        }
    }

    /// The same with one more event, in the place of this one; None if no place for it is found.
    pub(crate) fn into_with(
        self,
        alloc: Global,
        initial: &Initial,
        event: Event,
    ) -> Result<Option<Self>, AllocError> {
        let mut hint = self;
        match hint.fit(initial, event, &[]) {
            Fit::At(spot) => {
                let place = spot.place.min(hint.order.len());
                hint.order.insert(place, spot.happened)?;
                Ok(Some(hint))
            }
            Fit::Blocked(place) => hint.delaying(alloc, initial, place, event),
            Fit::Nowhere => Ok(None),
        }
    }

    /// Adds some events of an order, those that an event happens before or the others. Whether each has a place.
    fn add_part(
        &mut self,
        alloc: Global,
        initial: &Initial,
        order: &[Happened],
        first: EventKey,
        part: Part,
    ) -> Result<bool, AllocError> {
        for happened in order {
            let is_later = happened.clock.counts(first);
            if is_later != (part == Part::Later) {
                continue;
            }
            if !self.add(alloc, initial, happened.event, order)? {
                return Ok(false);
            }
        }
        Ok(true)
    }

    /// Adds an event, where some events are to come later. Whether it has a place.
    fn add(
        &mut self,
        alloc: Global,
        initial: &Initial,
        event: Event,
        later: &[Happened],
    ) -> Result<bool, AllocError> {
        let Fit::At(spot) = self.fit(initial, event, later) else {
            return Ok(false);
        };
        if spot.place >= self.order.len() {
            self.order.push(spot.happened)?;
        } else {
            *self = self.inserted(alloc, &spot)?;
        }
        Ok(true)
    }

    /// The same with one more event, where the event at a place and those that it happens before come later; None if some
    /// event has no place then.
    fn delaying(
        &self,
        alloc: Global,
        initial: &Initial,
        place: usize,
        event: Event,
    ) -> Result<Option<Self>, AllocError> {
        let order = self.order.as_slice();
        if place >= order.len() {
            return Ok(None);
        }
        let first = order[place].event.key();
        let mut hint = Hint {
            order: order[..place].to_vec(alloc)?,
        };
        let rest = &order[place..];
        if !hint.add_part(alloc, initial, rest, first, Part::Earlier)? {
            return Ok(None);
        }
        if !hint.add(alloc, initial, event, rest)? {
            return Ok(None);
        }
        if !hint.add_part(alloc, initial, rest, first, Part::Later)? {
            return Ok(None);
        }
        Ok(Some(hint))
    }

    /// The same with an event at a place.
    fn inserted(&self, alloc: Global, spot: &Spot) -> Result<Self, AllocError> {
        let place = spot.place.min(self.order.len());
        let (earlier, later) = self.order.as_slice().split_at(place);
        let mut order = Vec::with_capacity(alloc, self.order.len().saturating_add(1))?;
        order.extend_from_slice(earlier)?;
        order.push(spot.happened)?;
        order.extend_from_slice(later)?;
        Ok(Hint { order })
    }

    /// The event of that name.
    fn find(&self, key: EventKey) -> Option<&Happened> {
        self.order
            .as_slice()
            .iter()
            .find(|happened| happened.event.key() == key)
    }

    /// What happens before an event with these writers, and it itself.
    fn clock_after(&self, event: &Event, writers: &[EventId]) -> Clock {
        let mut clock = next_clock(self.order.as_slice(), event.key());
        for writer in writers {
            if let EventId::At(key) = writer
                && let Some(happened) = self.find(*key)
                && synchronizes(&happened.event, event)
            {
                clock = clock.joined(&happened.clock);
            }
        }
        clock
    }

    /// The execution of a log with a witness.
    pub(crate) fn of(alloc: Global, log: &Log, witness: &Witness) -> Result<Self, AllocError> {
        let mut hint = Hint::new(alloc);
        for key in witness.order.as_slice() {
            if let Some(event) = log.event(*key) {
                let clock = hint.clock_after(event, witness.writers(*key));
                hint.order.push(Happened {
                    event: *event,
                    clock,
                })?;
            }
        }
        Ok(hint)
    }
}
