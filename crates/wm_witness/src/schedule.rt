//! An order of the events that is likely to make the log valid. Nothing rests on it but how soon the search ends.

use crate::leaf::Bytes;
use crate::node::Node;
use crate::relation::Pair;
use crate::rules::can_synchronize;
use std::alloc::{AllocError, Global};
use wm_event::{Candidate, EventId, EventKey};

/// An order in the making.
#[derive(Drop)]
pub(crate) struct Schedule {
    /// The events so far.
    pub order: Vec<EventKey>,
    /// How many events of each thread are in it.
    next: Vec<usize>,
    /// For each row, how many reads that synchronize with its event are still to come.
    pending: Vec<usize>,
    /// For each row, whether its event is the last atomic write of its range.
    last: Vec<bool>,
}

/// The write with which a read would synchronize by a writer of one of its bytes.
fn source(start: &Candidate, reader: EventKey, writer: Option<EventId>) -> Option<EventKey> {
    let EventId::At(first) = writer? else {
        return None;
    };
    let pair = Pair {
        first,
        second: reader,
    };
    if can_synchronize(start, pair) {
        Some(first)
    } else {
        None
    }
}

/// The write with which a read would synchronize by its writers.
pub(crate) fn source_of(start: &Candidate, reader: EventKey, bytes: &Bytes) -> Option<EventKey> {
    for writer in bytes.iter() {
        let found = source(start, reader, *writer);
        if found.is_some() {
            return found;
        }
    }
    None
}

impl Schedule {
    /// The empty order.
    pub(crate) fn new(
        alloc: Global,
        start: &Candidate,
        node: &Node,
        writers: &[Bytes],
    ) -> Result<Self, AllocError> {
        let size = node.happens.rows.len();
        let mut pending = vec![in alloc; 0usize; size]?;
        for (index, bytes) in writers.iter().enumerate() {
            if let Some(row) = node.happens.rows.get(index)
                && let Some(source) = source_of(start, row.key, bytes)
                && let Some(place) = node.happens.index(source)
                && place < pending.len()
            {
                pending[place] = pending[place].saturating_add(1);
            }
        }
        Ok(Schedule {
            order: Vec::with_capacity(alloc, size)?,
            next: vec![in alloc; 0usize; node.happens.starts.len()]?,
            pending,
            last: vec![in alloc; false; size]?,
        })
    }

    /// How many events of a thread are in the order.
    fn count(&self, thread: usize) -> usize {
        match self.next.get(thread) {
            Some(count) => *count,
            None => 0,
        }
    }

    /// The row of the next event of a thread.
    fn next_row(&self, node: &Node, thread: usize) -> Option<usize> {
        let start = *node.happens.starts.get(thread)?;
        let index = start.saturating_add(self.count(thread));
        let end = match node.happens.starts.get(thread.saturating_add(1)) {
            Some(end) => *end,
            None => node.happens.rows.len(),
        };
        if index < end { Some(index) } else { None }
    }

    /// Whether all events that are known to stand before that of a row are in the order.
    fn is_free(&self, node: &Node, index: usize) -> bool {
        for thread in 0..self.next.len() {
            if node.stands.count(index, thread) as usize > self.count(thread) {
                return false;
            }
        }
        true
    }

    /// Whether an event is in the order.
    fn has(&self, key: EventKey) -> bool {
        (key.number as usize) < self.count(key.thread as usize)
    }

    /// How well the event of a row comes next: None if something has to come before.
    fn merit(
        &self,
        start: &Candidate,
        node: &Node,
        writers: &[Bytes],
        index: usize,
    ) -> Option<u32> {
        let key = node.happens.rows.get(index)?.key;
        if !self.is_free(node, index) {
            return None;
        }
        let source = source_of(start, key, writers.get(index)?);
        if let Some(source) = source
            && !self.has(source)
        {
            return None;
        }
        let event = start.event(EventId::At(key))?;
        if !event.writes() {
            return Some(3);
        }
        if !event.is_atomic() {
            return Some(2);
        }
        if self.is_waited_for(start, node, key, source) {
            Some(0)
        } else {
            Some(1)
        }
    }

    /// Whether a read is still to come, other than the event itself, that synchronizes with the last atomic write of the
    /// range of an event.
    fn is_waited_for(
        &self,
        start: &Candidate,
        node: &Node,
        key: EventKey,
        source: Option<EventKey>,
    ) -> bool {
        let Some(event) = start.event(EventId::At(key)) else {
            return false;
        };
        for thread in 0..start.log().threads().len() {
            let count = self.count(thread);
            let writes = start.thread_atomic_writes(thread, event.range());
            let place = writes.partition_point(|write| write.place < count);
            if place == 0 {
                continue;
            }
            if let Some(write) = writes.get(place - 1)
                && let Some(from) = node.happens.starts.get(thread)
                && self.is_pending(node, from.saturating_add(write.place), source)
            {
                return true;
            }
        }
        false
    }

    /// Whether the event of a row is the last atomic write of its range, and a read other than one from `source` waits
    /// for it.
    fn is_pending(&self, node: &Node, index: usize, source: Option<EventKey>) -> bool {
        let own = match (source, node.happens.rows.get(index)) {
            (Some(source), Some(row)) if row.key == source => 1,
            _ => 0,
        };
        match (self.pending.get(index), self.last.get(index)) {
            (Some(pending), Some(true)) => *pending > own,
            _ => false,
        }
    }

    /// The thread whose next event comes next best.
    fn best_thread(&self, start: &Candidate, node: &Node, writers: &[Bytes]) -> Option<usize> {
        let mut best = None;
        let mut best_merit = 0;
        for thread in 0..self.next.len() {
            if let Some(index) = self.next_row(node, thread)
                && let Some(merit) = self.merit(start, node, writers, index)
                && (best.is_none() || merit > best_merit)
            {
                best = Some(thread);
                best_merit = merit;
            }
        }
        best
    }

    /// Notes that the event is the last atomic write of its range.
    fn note_write(&mut self, start: &Candidate, node: &Node, key: EventKey, index: usize) {
        let Some(event) = start.event(EventId::At(key)) else {
            return;
        };
        if !event.is_atomic() || !event.writes() {
            return;
        }
        for thread in 0..start.log().threads().len() {
            let count = self.count(thread);
            let writes = start.thread_atomic_writes(thread, event.range());
            let place = writes.partition_point(|write| write.place < count);
            if place > 0
                && let Some(write) = writes.get(place - 1)
                && let Some(from) = node.happens.starts.get(thread)
            {
                let old = from.saturating_add(write.place);
                if old < self.last.len() {
                    self.last[old] = false;
                }
            }
        }
        if index < self.last.len() {
            self.last[index] = true;
        }
    }

    /// Puts the next event of a thread into the order.
    fn take(
        &mut self,
        start: &Candidate,
        node: &Node,
        writers: &[Bytes],
        thread: usize,
    ) -> Result<(), AllocError> {
        let Some(index) = self.next_row(node, thread) else {
            return Ok(());
        };
        let Some(row) = node.happens.rows.get(index) else {
            return Ok(());
        };
        let key = row.key;
        if let Some(bytes) = writers.get(index)
            && let Some(source) = source_of(start, key, bytes)
            && let Some(place) = node.happens.index(source)
            && place < self.pending.len()
        {
            self.pending[place] = self.pending[place].saturating_sub(1);
        }
        self.note_write(start, node, key, index);
        self.order.push(key)?;
        if thread < self.next.len() {
            self.next[thread] = self.next[thread].saturating_add(1);
        }
        Ok(())
    }

    /// Puts events into the order, as long as one can come next. Whether all are in it.
    pub(crate) fn run(
        &mut self,
        start: &Candidate,
        node: &Node,
        writers: &[Bytes],
    ) -> Result<bool, AllocError> {
        for _ in 0..node.happens.rows.len() {
            match self.best_thread(start, node, writers) {
                Some(thread) => self.take(start, node, writers, thread)?,
                None => return Ok(false),
            }
        }
        Ok(true)
    }

    /// A read that can't come next because of the write with which it would synchronize, and that write.
    pub(crate) fn stuck(
        &self,
        start: &Candidate,
        node: &Node,
        writers: &[Bytes],
    ) -> Option<(EventKey, EventKey)> {
        for thread in 0..self.next.len() {
            if let Some(index) = self.next_row(node, thread)
                && let Some(row) = node.happens.rows.get(index)
                && let Some(bytes) = writers.get(index)
                && let Some(source) = source_of(start, row.key, bytes)
                && !self.has(source)
                && !node
                    .stands
                    .counts(row.key.thread as usize, row.key.number as usize, source)
            {
                return Some((row.key, source));
            }
        }
        None
    }
}
