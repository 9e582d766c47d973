//! The turns of the threads on one memory. Nothing rests on them but how soon a search ends.

use crate::cells::Access;
use crate::decision::Ordered;
use crate::halt::Halt;
use crate::likely::{Likely, Source};
use std::alloc::{AllocError, Global};

/// The most decisions, and of those the most of which the first way contradicts what is known.
const MAX_DECISIONS: u32 = 1_000;

const MAX_RESTARTS: u32 = 100;

/// How many of the accesses that follow in a thread are looked at.
const SIGHT: usize = 6;

/// What an access costs at which a later one of its thread reads another value, by how far that one is off.
const PENALTIES: [i64; SIGHT + 1] = [0, 100, 50, 33, 25, 20, 16];

/// How well an access comes next that reads what the memory has, one that can't come yet, and one that reads another value.
const READ: i64 = 2_000;

const BLOCKED: i64 = -500;

const MISSED: i64 = -1_000;

/// The accesses so far, and what they leave.
#[derive(Drop)]
pub(crate) struct Turns {
    /// For each thread how many accesses it made.
    made: Vec<usize>,
    /// For each cell the last write, and the last atomic write.
    written: Vec<Option<usize>>,
    synchronized: Vec<Option<usize>>,
    /// For each write how many reads that synchronize with it are still to come.
    pending: Vec<usize>,
    pub order: Vec<usize>,
    pub sources: Vec<Source>,
}

/// An access, and how well it comes next.
#[derive(Clone, Copy)]
struct Turn {
    index: usize,
    merit: i64,
}

/// An item of a list, or None.
fn item(list: &[Option<usize>], place: usize) -> Option<usize> {
    *list.get(place)?
}

impl Turns {
    /// No turn.
    pub(crate) fn new(alloc: Global, likely: &Likely) -> Result<Self, AllocError> {
        let cells = likely.cells;
        let mut pending = vec![in alloc; 0usize; cells.accesses.len()]?;
        for (reader, source) in likely.sources.iter().enumerate() {
            if let Source::From(writer) = source
                && likely.are_atomic(*writer, reader)
                && *writer < pending.len()
            {
                pending[*writer] = pending[*writer].saturating_add(1);
            }
        }
        Ok(Turns {
            made: vec![in alloc; 0usize; cells.threads()]?,
            written: vec![in alloc; None; cells.initial.len()]?,
            synchronized: vec![in alloc; None; cells.initial.len()]?,
            pending,
            order: Vec::with_capacity(alloc, cells.accesses.len())?,
            sources: likely.sources.as_slice().to_vec(alloc)?,
        })
    }

    /// How many accesses a thread made.
    fn made(&self, thread: usize) -> usize {
        match self.made.get(thread) {
            Some(count) => *count,
            None => 0,
        }
    }

    /// The next access of a thread.
    fn next(&self, likely: &Likely, thread: usize) -> Option<usize> {
        let index = likely.cells.start(thread).saturating_add(self.made(thread));
        if index < likely.cells.start(thread.saturating_add(1)) {
            Some(index)
        } else {
            None
        }
    }

    /// Whether all accesses that stand before one are made.
    fn is_ready(&self, likely: &Likely, index: usize) -> bool {
        for (thread, made) in self.made.iter().enumerate() {
            if likely.count(index, thread) as usize > *made {
                return false;
            }
        }
        true
    }

    /// What a cell holds.
    fn value(&self, likely: &Likely, cell: usize) -> u64 {
        let written = match item(self.written.as_slice(), cell) {
            Some(writer) => likely.cells.get(writer).map(|access| access.written),
            None => likely.cells.initial.get(cell).copied(),
        };
        match written {
            Some(value) => value,
            None => 0,
        }
    }

    /// Whether an access that is next reads what it has to.
    fn is_hit(&self, likely: &Likely, index: usize, access: &Access) -> bool {
        let last = item(self.synchronized.as_slice(), access.cell);
        match likely.source(index) {
            _ if !access.reads => true,
            Source::Open => self.value(likely, access.cell) == access.read,
            Source::Init => !access.is_atomic || last.is_none(),
            Source::From(writer) if likely.are_atomic(writer, index) => last == Some(writer),
            Source::From(_) => true,
        }
    }

    /// The last atomic write of the cell, if another read that synchronizes with it is still to come.
    fn waited_for(&self, likely: &Likely, index: usize, access: &Access) -> Option<usize> {
        if !access.is_atomic || !access.writes {
            return None;
        }
        let last = item(self.synchronized.as_slice(), access.cell)?;
        let own = if likely.source(index) == Source::From(last) {
            1
        } else {
            0
        };
        if *self.pending.get(last)? > own {
            Some(last)
        } else {
            None
        }
    }

    /// What a cell holds after the accesses of a thread from a place on, before another place.
    fn value_after(&self, likely: &Likely, from: usize, end: usize, cell: usize) -> u64 {
        let mut value = self.value(likely, cell);
        for index in from..end {
            if let Some(access) = likely.cells.get(index)
                && access.writes
                && access.cell == cell
            {
                value = access.written;
            }
        }
        value
    }

    /// How well an access comes next as far as those go that follow in its thread.
    fn merit_ahead(&self, likely: &Likely, index: usize, access: &Access) -> i64 {
        let end = likely
            .cells
            .start((access.key.thread as usize).saturating_add(1));
        let mut merit: i64 = 0;
        for (distance, penalty) in PENALTIES.iter().enumerate() {
            let place = index.saturating_add(distance);
            if distance == 0 {
                continue;
            }
            if place >= end {
                return merit.saturating_add(10);
            }
            let Some(later) = likely.cells.get(place) else {
                return merit;
            };
            if later.reads {
                if self.value_after(likely, index, place, later.cell) != later.read {
                    return merit.saturating_sub(*penalty);
                }
                merit = merit.saturating_add(3);
            }
        }
        merit
    }

    /// How well a write comes next as far as the next accesses of the other threads go.
    fn merit_beside(&self, likely: &Likely, access: &Access) -> i64 {
        let now = self.value(likely, access.cell);
        let mut merit: i64 = 0;
        for thread in 0..likely.cells.threads() {
            if thread == access.key.thread as usize {
                continue;
            }
            if let Some(index) = self.next(likely, thread)
                && let Some(other) = likely.cells.get(index)
                && other.reads
                && other.cell == access.cell
            {
                if access.written == other.read && now != other.read {
                    merit = merit.saturating_add(40);
                }
                if access.written != other.read && now == other.read {
                    merit = merit.saturating_sub(60);
                }
            }
        }
        merit
    }

    /// How well an access comes next.
    fn merit(&self, likely: &Likely, index: usize, access: &Access) -> i64 {
        if !self.is_hit(likely, index, access) {
            return MISSED;
        }
        if !access.writes {
            return READ;
        }
        let merit = self
            .merit_ahead(likely, index, access)
            .saturating_add(self.merit_beside(likely, access));
        if self.waited_for(likely, index, access).is_some() {
            merit.saturating_add(BLOCKED)
        } else {
            merit
        }
    }

    /// The access that comes next best.
    fn best(&self, likely: &Likely) -> Option<Turn> {
        let mut best: Option<Turn> = None;
        for thread in 0..likely.cells.threads() {
            let Some(index) = self.next(likely, thread) else {
                continue;
            };
            if !self.is_ready(likely, index) {
                continue;
            }
            let Some(access) = likely.cells.get(index) else {
                continue;
            };
            let merit = self.merit(likely, index, &access);
            if merit == READ {
                return Some(Turn { index, merit });
            }
            if let Some(turn) = best
                && turn.merit >= merit
            {
                continue;
            }
            best = Some(Turn { index, merit });
        }
        best
    }

    /// From where a read takes that is made now.
    fn source_now(&self, likely: &Likely, index: usize, access: &Access) -> Source {
        if self.value(likely, access.cell) == access.read {
            return match item(self.written.as_slice(), access.cell) {
                Some(writer) => Source::From(writer),
                None => Source::Init,
            };
        }
        match likely.options(index, access).first {
            Some(source) => source,
            None => Source::Init,
        }
    }

    /// Makes an access.
    fn take(&mut self, likely: &Likely, index: usize, access: &Access) -> Result<(), AllocError> {
        if access.reads {
            match likely.source(index) {
                Source::Open if index < self.sources.len() => {
                    self.sources[index] = self.source_now(likely, index, access);
                }
                Source::From(writer)
                    if likely.are_atomic(writer, index) && writer < self.pending.len() => {
                    self.pending[writer] = self.pending[writer].saturating_sub(1);
                }
                _ => (),
            }
        }
        if access.writes && access.cell < self.written.len() {
            self.written[access.cell] = Some(index);
            if access.is_atomic && access.cell < self.synchronized.len() {
                self.synchronized[access.cell] = Some(index);
            }
        }
        let thread = access.key.thread as usize;
        if thread < self.made.len() {
            self.made[thread] = self.made[thread].saturating_add(1);
        }
        self.order.push(index)?;
        Ok(())
    }

    /// A read that is still to come and synchronizes with a write, other than an access.
    fn pending_read(&self, likely: &Likely, write: usize, other: usize) -> Option<usize> {
        let mut place = likely.joins.first(write);
        for _ in 0..likely.joins.len() {
            let arc = likely.joins.get(place)?;
            if arc.to != other
                && likely.are_atomic(write, arc.to)
                && let Some(access) = likely.cells.get(arc.to)
                && access.key.number as usize >= self.made(access.key.thread as usize)
            {
                return Some(arc.to);
            }
            place = arc.next;
        }
        None
    }

    /// Decides where an atomic write comes that can't come now: after the read for which the last one waits, or before
    /// the last one. Whether it is after the read.
    fn decide(
        &self,
        alloc: Global,
        likely: &mut Likely,
        index: usize,
        access: &Access,
    ) -> Result<bool, Halt> {
        let Some(write) = self.waited_for(likely, index, access) else {
            return Err(Halt::Contradiction);
        };
        let Some(read) = self.pending_read(likely, write, index) else {
            return Err(Halt::Contradiction);
        };
        let after = Ordered {
            first: read,
            second: index,
        };
        let before = Ordered {
            first: index,
            second: write,
        };
        likely.add_either(alloc, after, before)
    }

    /// Makes accesses until all are made, or until where one comes is decided. Whether it is to be tried anew: None if all
    /// are made.
    fn go_on(&mut self, alloc: Global, likely: &mut Likely) -> Result<Option<bool>, Halt> {
        let cells = likely.cells;
        for _ in self.order.len()..cells.accesses.len() {
            let Some(turn) = self.best(likely) else {
                return Err(Halt::Contradiction);
            };
            let Some(access) = cells.get(turn.index) else {
                return Err(Halt::Contradiction);
            };
            let is_plain_read = !access.is_atomic && !access.writes;
            if turn.merit <= BLOCKED + 100 && !is_plain_read {
                let is_after = self.decide(alloc, likely, turn.index, &access)?;
                return Ok(Some(!is_after));
            }
            self.take(likely, turn.index, &access)?;
        }
        Ok(None)
    }

    /// Turns in which all accesses are made.
    pub(crate) fn of(alloc: Global, likely: &mut Likely) -> Result<Self, Halt> {
        let mut turns = Turns::new(alloc, likely)?;
        let mut restarts = 0;
        for _ in 0..MAX_DECISIONS {
            match turns.go_on(alloc, likely)? {
                None => return Ok(turns),
                Some(false) => (),
                Some(true) => {
                    if restarts >= MAX_RESTARTS {
                        return Err(Halt::Contradiction);
                    }
                    restarts += 1;
                    turns = Turns::new(alloc, likely)?;
                }
            }
        }
        Err(Halt::Contradiction)
    }
}
