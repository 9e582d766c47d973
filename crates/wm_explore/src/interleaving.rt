//! Executions in which each read takes what was written last. They are looked for where no other guess is left, before a
//! search for a witness is made; nothing rests on them.

use crate::hint::{Hint, write_of, writes_in};
use std::alloc::{AllocError, Global};
use wm_event::{Event, EventKey, Initial, Log, MAX_THREADS};

/// The most times that an event is put in its place or taken back.
const MOST_MOVES: u32 = 512;

/// An event, and its place among those that have arrived.
#[derive(Clone, Copy)]
struct Arrived {
    event: Event,
    place: usize,
}

/// The events of a state, of which some are put in an order.
#[derive(Drop)]
struct Interleaving<'a> {
    initial: &'a Initial,
    /// All events, as they arrived.
    events: Vec<Event>,
    /// The events in the order.
    order: Vec<Arrived>,
    /// How many of them each thread has.
    counts: [u32; MAX_THREADS],
}

impl<'a> Interleaving<'a> {
    /// No event is in the order.
    fn new(
        alloc: Global,
        initial: &'a Initial,
        log: &Log,
        arrived: &[EventKey],
    ) -> Result<Self, AllocError> {
        let mut events = Vec::with_capacity(alloc, arrived.len())?;
        for key in arrived {
            if let Some(event) = log.event(*key) {
                events.push(*event)?;
            }
        }
        Ok(Interleaving {
            initial,
            events,
            order: Vec::with_capacity(alloc, arrived.len())?,
            counts: [0; MAX_THREADS],
        })
    }

    /// Whether all earlier events of its thread are in the order, and it isn't.
    fn is_next(&self, event: &Event) -> bool {
        match self.counts.get(event.thread as usize) {
            None => false,
            Some(count) => *count == event.number,
        }
    }

    /// Whether an event that reads takes a byte from what was written last, by an event that had arrived before.
    fn takes_last_byte(&self, reader: Arrived, index: u8) -> bool {
        let address = u64::from(reader.event.address) + u64::from(index);
        let read = write_of(&reader.event).byte_written(address);
        for writer in self.order.as_slice().iter().rev() {
            let written = writer.event.byte_written(address);
            if written.is_some() {
                return written == read && writer.place < reader.place;
            }
        }
        self.initial.byte(address as usize) == read
    }

    /// Whether an event that reads takes all its bytes from what was written last.
    fn takes_last(&self, reader: Arrived) -> bool {
        let last = self
            .order
            .as_slice()
            .iter()
            .rev()
            .find(|writer| writes_in(&writer.event, &reader.event));
        if let Some(writer) = last
            && writer.event.range() == reader.event.range()
        {
            return writer.event.written == reader.event.read && writer.place < reader.place;
        }
        (0..reader.event.width.bytes()).all(|index| self.takes_last_byte(reader, index))
    }

    /// The event that arrived at a place, if it can come next in the order.
    fn fitting(&self, place: usize) -> Option<Arrived> {
        let event = *self.events.get(place)?;
        let arrived = Arrived { event, place };
        if !self.is_next(&event) {
            return None;
        }
        if event.reads() && !self.takes_last(arrived) {
            return None;
        }
        Some(arrived)
    }

    /// The first event that only reads and can come next.
    fn fitting_read(&self) -> Option<Arrived> {
        for place in 0..self.events.len() {
            if let Some(arrived) = self.fitting(place)
                && !arrived.event.writes()
            {
                return Some(arrived);
            }
        }
        None
    }

    /// The first event from a place on that writes and can come next.
    fn fitting_write(&self, from: usize) -> Option<Arrived> {
        for place in from..self.events.len() {
            if let Some(arrived) = self.fitting(place)
                && arrived.event.writes()
            {
                return Some(arrived);
            }
        }
        None
    }

    /// An event that can come next. If all was tried but the writes from a place on, it is one of these; a read that can come
    /// next needs no other try.
    fn next(&self, from: usize) -> Option<Arrived> {
        if from == 0
            && let Some(read) = self.fitting_read()
        {
            return Some(read);
        }
        self.fitting_write(from)
    }

    /// Puts an event into the order.
    fn put(&mut self, arrived: Arrived) -> Result<(), AllocError> {
        self.order.push(arrived)?;
        if let Some(count) = self.counts.get_mut(arrived.event.thread as usize) {
            *count = count.saturating_add(1);
        }
        Ok(())
    }

    /// Takes the last event back, and returns from which place on others are left to be tried in its stead. None if there is
    /// no event in the order.
    fn take_back(&mut self) -> Option<usize> {
        let last = self.order.pop()?;
        if let Some(count) = self.counts.get_mut(last.event.thread as usize) {
            *count = count.saturating_sub(1);
        }
        if last.event.writes() {
            Some(last.place.saturating_add(1))
        } else {
            Some(self.events.len())
        }
    }

    /// The order as a likely execution.
    fn hint(&self, alloc: Global) -> Result<Hint, AllocError> {
        let mut hint = Hint::new(alloc);
        for arrived in &self.order {
            hint.append(arrived.event)?;
        }
        Ok(hint)
    }
}

/// An execution of the events of a log in which each read takes what was written last, by an event that had arrived before;
/// None if none is found soon.
pub(crate) fn interleaved(
    alloc: Global,
    initial: &Initial,
    log: &Log,
    arrived: &[EventKey],
) -> Result<Option<Hint>, AllocError> {
    let mut interleaving = Interleaving::new(alloc, initial, log, arrived)?;
    let mut from = 0usize;
    for _ in 0..MOST_MOVES {
        if interleaving.order.len() == interleaving.events.len() {
            return Ok(Some(interleaving.hint(alloc)?));
        }
        if let Some(next) = interleaving.next(from) {
            interleaving.put(next)?;
            from = 0;
            continue;
        }
        match interleaving.take_back() {
            None => return Ok(None),
            Some(place) => from = place,
        }
    }
    Ok(None)
}
