//! A log as accesses of cells. Nothing rests on it but how soon a search ends.

use crate::buckets::{Buckets, Filed};
use std::alloc::{AllocError, Global};
use wm_event::{Candidate, Event, EventKey, Log};

/// An access of a cell.
#[derive(Clone, Copy)]
pub(crate) struct Access {
    pub key: EventKey,
    pub cell: usize,
    pub bytes: u8,
    pub reads: bool,
    pub writes: bool,
    pub is_atomic: bool,
    /// The value that is read, and the one that is written.
    pub read: u64,
    pub written: u64,
}

/// A range of bytes.
#[derive(Clone, Copy, PartialEq, Eq, PartialOrd, Ord)]
struct Span {
    address: u64,
    bytes: u8,
}

/// The value that an access leaves in a cell.
#[derive(Clone, Copy)]
struct Left {
    cell: usize,
    value: u64,
    index: usize,
}

/// A log as accesses of cells: ranges of which no two have a byte in common. Accesses are named by their places, thread
/// after thread.
#[derive(Drop)]
pub(crate) struct Cells {
    pub accesses: Vec<Access>,
    /// Where the accesses of each thread begin, and where those of the last one end.
    pub starts: Vec<usize>,
    /// What each cell holds before all accesses.
    pub initial: Vec<u64>,
    /// The writes of each cell by each thread, and the atomic ones.
    writes: Buckets,
    atomic_writes: Buckets,
    /// What the writes leave, by cell and value.
    left: Vec<Left>,
}

/// The range of an event.
fn span_of(event: &Event) -> Span {
    Span {
        address: u64::from(event.address),
        bytes: event.width.bytes(),
    }
}

/// The different ranges of a log, by their addresses; None if two have a byte in common.
fn spans_of(alloc: Global, log: &Log) -> Result<Option<Vec<Span>>, AllocError> {
    let mut all = Vec::new(alloc);
    for thread in log.threads() {
        for event in thread.events.as_slice() {
            all.push(span_of(event))?;
        }
    }
    all.sort()?;
    let mut spans: Vec<Span> = Vec::new(alloc);
    for span in all.as_slice() {
        if let Some(last) = spans.last() {
            if last == span {
                continue;
            }
            if span.address < last.address.saturating_add(u64::from(last.bytes)) {
                return Ok(None);
            }
        }
        spans.push(*span)?;
    }
    Ok(Some(spans))
}

/// The value of a range in the initial memory.
fn initial_value(start: &Candidate, span: &Span) -> u64 {
    let mut bytes = [0u8; 8];
    for byte in 0..8usize {
        if byte < span.bytes as usize
            && let Some(value) = start
                .initial()
                .byte((span.address as usize).saturating_add(byte))
        {
            bytes[byte] = value;
        }
    }
    u64::from_le_bytes(bytes)
}

/// An event as an access of a cell.
fn access_of(spans: &[Span], event: &Event) -> Access {
    let address = u64::from(event.address);
    Access {
        key: event.key(),
        cell: spans.partition_point(|span| span.address < address),
        bytes: event.width.bytes(),
        reads: event.reads(),
        writes: event.writes(),
        is_atomic: event.is_atomic(),
        read: event.read,
        written: event.written,
    }
}

/// The writes of each cell by each of so many threads, or only the atomic ones.
fn writes_of(
    alloc: Global,
    accesses: &[Access],
    cells: usize,
    threads: usize,
    is_atomic: bool,
) -> Result<Buckets, AllocError> {
    let mut filed = Vec::new(alloc);
    for (item, access) in accesses.iter().enumerate() {
        if access.writes && (access.is_atomic || !is_atomic) {
            let bucket = bucket_of(access.cell, threads, access.key.thread as usize);
            filed.push(Filed { bucket, item })?;
        }
    }
    Buckets::of(alloc, cells.saturating_mul(threads), filed.as_slice())
}

/// Where the writes of a cell by a thread are.
fn bucket_of(cell: usize, threads: usize, thread: usize) -> usize {
    cell.saturating_mul(threads).saturating_add(thread)
}

/// What the writes leave, by cell and value.
fn left_by(alloc: Global, accesses: &[Access]) -> Result<Vec<Left>, AllocError> {
    let mut left = Vec::new(alloc);
    for (index, access) in accesses.iter().enumerate() {
        if access.writes {
            let (cell, value) = (access.cell, access.written);
            left.push(Left { cell, value, index })?;
        }
    }
    left.sort_by_key(|each: &Left| (each.cell, each.value))?;
    Ok(left)
}

impl Cells {
    /// The cells of a log; None if two ranges of it have a byte in common and differ.
    pub(crate) fn of(alloc: Global, start: &Candidate) -> Result<Option<Self>, AllocError> {
        let log = start.log();
        let Some(spans) = spans_of(alloc, log)? else {
            return Ok(None);
        };
        let mut accesses = Vec::new(alloc);
        let mut starts = Vec::new(alloc);
        for thread in log.threads() {
            starts.push(accesses.len())?;
            for event in thread.events.as_slice() {
                accesses.push(access_of(spans.as_slice(), event))?;
            }
        }
        let threads = starts.len();
        starts.push(accesses.len())?;
        let mut initial = Vec::new(alloc);
        for span in spans.as_slice() {
            initial.push(initial_value(start, span))?;
        }
        let cells = spans.len();
        Ok(Some(Cells {
            writes: writes_of(alloc, accesses.as_slice(), cells, threads, false)?,
            atomic_writes: writes_of(alloc, accesses.as_slice(), cells, threads, true)?,
            left: left_by(alloc, accesses.as_slice())?,
            accesses,
            starts,
            initial,
        }))
    }

    /// How many threads there are.
    pub(crate) fn threads(&self) -> usize {
        self.starts.len().saturating_sub(1)
    }

    /// An access.
    pub(crate) fn get(&self, index: usize) -> Option<Access> {
        self.accesses.get(index).copied()
    }

    /// Where the accesses of a thread begin, and where they end.
    pub(crate) fn start(&self, thread: usize) -> usize {
        match self.starts.get(thread) {
            Some(start) => *start,
            None => self.accesses.len(),
        }
    }

    /// The next access of the same thread.
    pub(crate) fn next(&self, index: usize) -> Option<usize> {
        let next = index.saturating_add(1);
        let thread = self.get(index)?.key.thread as usize;
        if next < self.start(thread.saturating_add(1)) {
            Some(next)
        } else {
            None
        }
    }

    /// The writes of a cell by a thread.
    pub(crate) fn writes(&self, cell: usize, thread: usize) -> &[usize] {
        self.writes.at(bucket_of(cell, self.threads(), thread))
    }

    /// The atomic writes of a cell by a thread.
    pub(crate) fn atomic_writes(&self, cell: usize, thread: usize) -> &[usize] {
        self.atomic_writes
            .at(bucket_of(cell, self.threads(), thread))
    }

    /// The last of some accesses of a thread that is among the first so many of the thread.
    pub(crate) fn last_of(&self, list: &[usize], thread: usize, count: u32) -> Option<usize> {
        let bound = self.start(thread).saturating_add(count as usize);
        let place = list.partition_point(|index| *index < bound);
        if place == 0 {
            None
        } else {
            list.get(place - 1).copied()
        }
    }

    /// Where in the list of values those begin that a cell gets by accesses from a place on.
    pub(crate) fn place_of(&self, cell: usize, value: u64, from: usize) -> usize {
        self.left.partition_point(|each| {
            each.cell < cell
                || (each.cell == cell
                    && (each.value < value || (each.value == value && each.index < from)))
        })
    }

    /// The access at a place in the list of values, if it leaves the value in the cell.
    pub(crate) fn leaves(&self, place: usize, cell: usize, value: u64) -> Option<usize> {
        let each = self.left.get(place)?;
        if each.cell == cell && each.value == value {
            Some(each.index)
        } else {
            None
        }
    }
}
