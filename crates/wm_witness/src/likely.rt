//! What is likely to be known of a valid run: as if each read synchronized with the write that it takes from. Nothing
//! rests on it but how soon a search ends.

use crate::arcs::Arcs;
use crate::cells::{Access, Cells};
use crate::halt::Halt;
use crate::row::Row;
use std::alloc::{AllocError, Global};
use wm_event::MAX_THREADS;

/// From where a read takes its value.
#[derive(Clone, Copy, PartialEq, Eq)]
pub(crate) enum Source {
    Open,
    Init,
    From(usize),
}

/// What is likely to be known. Accesses are named by their places.
#[derive(Drop)]
pub(crate) struct Likely<'a> {
    pub cells: &'a Cells,
    /// Whether a plain read too is after the write that it takes from.
    is_causal: bool,
    /// For each access what happens before it, and what stands before it in the order.
    happens: Vec<Row>,
    pub stands: Vec<Row>,
    /// For each access from where it reads.
    pub sources: Vec<Source>,
    /// Whether an atomic update takes from the access.
    is_updated: Vec<bool>,
    /// Arcs of what happens before, and further ones of the order.
    pub joins: Arcs,
    pub orders: Arcs,
    is_new: bool,
}

/// What comes after a writer: all accesses, those that it happens before, or those before which it stands.
#[derive(Clone, Copy)]
enum Past {
    All,
    Happens,
    Stands,
}

/// For each thread an access of it, if there is one.
type Lasts = [Option<usize>; MAX_THREADS];

/// The sources that a read can have, of which at most two are looked for.
#[derive(Clone, Copy)]
pub(crate) struct Options {
    pub first: Option<Source>,
    pub is_several: bool,
}

impl Options {
    /// Adds a source. Whether that is the second.
    fn add(&mut self, source: Source) -> bool {
        if self.first.is_some() {
            self.is_several = true;
        } else {
            self.first = Some(source);
        }
        self.is_several
    }
}

/// Adds what comes before an access of some threads, and the access itself, to what comes before another. Whether that is new.
pub(crate) fn raise(rows: &mut [Row], from: usize, into: usize, threads: usize) -> bool {
    if from >= rows.len() || into >= rows.len() {
        return false;
    }
    let row = rows[into];
    let other = rows[from];
    if row.includes(&other, threads) {
        return false;
    }
    rows[into] = row.joined(&other, threads);
    true
}

/// Notes that one thing less is before an access, and that it is ready if there is nothing.
fn release(waiting: &mut [usize], ready: &mut Vec<usize>, index: usize) -> Result<(), AllocError> {
    if index < waiting.len() {
        waiting[index] = waiting[index].saturating_sub(1);
        if waiting[index] == 0 {
            ready.push(index)?;
        }
    }
    Ok(())
}

impl<'a> Likely<'a> {
    /// Nothing but the order of each thread.
    pub(crate) fn new(
        alloc: Global,
        cells: &'a Cells,
        is_causal: bool,
    ) -> Result<Self, AllocError> {
        let count = cells.accesses.len();
        let mut rows = Vec::with_capacity(alloc, count)?;
        for access in cells.accesses.as_slice() {
            rows.push(Row::new(access.key))?;
        }
        Ok(Likely {
            cells,
            is_causal,
            happens: rows.as_slice().to_vec(alloc)?,
            stands: rows,
            sources: vec![in alloc; Source::Open; count]?,
            is_updated: vec![in alloc; false; count]?,
            joins: Arcs::new(alloc, count)?,
            orders: Arcs::new(alloc, count)?,
            is_new: false,
        })
    }

    /// Whether an access happens before another.
    fn happens(&self, first: usize, second: usize) -> bool {
        match (self.cells.get(first), self.happens.get(second)) {
            (Some(access), Some(row)) => row.covers(access.key),
            _ => false,
        }
    }

    /// Whether an access stands before another in the order.
    pub(crate) fn stands(&self, first: usize, second: usize) -> bool {
        match (self.cells.get(first), self.stands.get(second)) {
            (Some(access), Some(row)) => row.covers(access.key),
            _ => false,
        }
    }

    /// How many accesses of a thread stand before an access in the order.
    pub(crate) fn count(&self, index: usize, thread: usize) -> u32 {
        match self.stands.get(index) {
            Some(row) => match row.before.get(thread) {
                Some(count) => *count,
                None => 0,
            },
            None => 0,
        }
    }

    /// How many accesses of a thread happen before an access.
    fn happen_count(&self, index: usize, thread: usize) -> u32 {
        match self.happens.get(index) {
            Some(row) => match row.before.get(thread) {
                Some(count) => *count,
                None => 0,
            },
            None => 0,
        }
    }

    /// Whether both accesses are atomic.
    pub(crate) fn are_atomic(&self, first: usize, second: usize) -> bool {
        match (self.cells.get(first), self.cells.get(second)) {
            (Some(first), Some(second)) => first.is_atomic && second.is_atomic,
            _ => false,
        }
    }

    /// From where an access reads.
    pub(crate) fn source(&self, index: usize) -> Source {
        match self.sources.get(index) {
            Some(source) => *source,
            None => Source::Open,
        }
    }

    /// For each access how many arcs lead to it.
    fn waiting(&self, alloc: Global) -> Result<Vec<usize>, AllocError> {
        let mut waiting = Vec::with_capacity(alloc, self.cells.accesses.len())?;
        for access in self.cells.accesses.as_slice() {
            waiting.push(if access.key.number > 0 { 1usize } else { 0 })?;
        }
        for arcs in [&self.joins, &self.orders] {
            for arc in arcs.all() {
                if arc.to < waiting.len() {
                    waiting[arc.to] = waiting[arc.to].saturating_add(1);
                }
            }
        }
        Ok(waiting)
    }

    /// Adds what comes before an access to those to which its arcs lead.
    fn pass_on(
        &mut self,
        index: usize,
        waiting: &mut [usize],
        ready: &mut Vec<usize>,
    ) -> Result<(), AllocError> {
        let threads = self.cells.threads();
        if let Some(next) = self.cells.next(index) {
            raise(self.happens.as_mut_slice(), index, next, threads);
            raise(self.stands.as_mut_slice(), index, next, threads);
            release(waiting, ready, next)?;
        }
        let mut place = self.joins.first(index);
        for _ in 0..self.joins.len() {
            let Some(arc) = self.joins.get(place) else {
                break;
            };
            raise(self.happens.as_mut_slice(), index, arc.to, threads);
            raise(self.stands.as_mut_slice(), index, arc.to, threads);
            release(waiting, ready, arc.to)?;
            place = arc.next;
        }
        let mut place = self.orders.first(index);
        for _ in 0..self.orders.len() {
            let Some(arc) = self.orders.get(place) else {
                break;
            };
            raise(self.stands.as_mut_slice(), index, arc.to, threads);
            release(waiting, ready, arc.to)?;
            place = arc.next;
        }
        Ok(())
    }

    /// Extends both relations by all arcs.
    fn close(&mut self, alloc: Global) -> Result<(), Halt> {
        let mut waiting = self.waiting(alloc)?;
        let mut ready = Vec::with_capacity(alloc, waiting.len())?;
        for (index, count) in waiting.iter().enumerate() {
            if *count == 0 {
                ready.push(index)?;
            }
        }
        for _ in 0..waiting.len() {
            let Some(index) = ready.pop() else {
                return Err(Halt::Contradiction);
            };
            self.pass_on(index, waiting.as_mut_slice(), &mut ready)?;
        }
        Ok(())
    }

    /// Adds that an access stands before another, if that isn't known.
    fn order(&mut self, first: usize, second: usize) -> Result<(), Halt> {
        if first == second || self.stands(second, first) {
            return Err(Halt::Contradiction);
        }
        if !self.stands(first, second) {
            self.orders.push(first, second)?;
            self.is_new = true;
        }
        Ok(())
    }

    /// The first of some accesses that comes after a writer, other than its reader.
    fn first_past(
        &self,
        list: &[usize],
        writer: usize,
        reader: usize,
        kind: Past,
    ) -> Option<usize> {
        let place = list.partition_point(|index| match kind {
            Past::Happens => !self.happens(writer, *index),
            Past::Stands => !self.stands(writer, *index),
            Past::All => false,
        });
        let first = list.get(place).copied()?;
        if first != reader {
            return Some(first);
        }
        list.get(place.saturating_add(1)).copied()
    }

    /// Orders the atomic writes of a cell beside a read and the write with which it synchronizes.
    fn order_beside(&mut self, writer: usize, reader: usize, cell: usize) -> Result<(), Halt> {
        let cells = self.cells;
        for thread in 0..cells.threads() {
            let list = cells.atomic_writes(cell, thread);
            if let Some(last) = cells.last_of(list, thread, self.count(reader, thread))
                && last != writer
                && last != reader
            {
                self.order(last, writer)?;
            }
            if let Some(first) = self.first_past(list, writer, reader, Past::Stands) {
                self.order(reader, first)?;
            }
        }
        Ok(())
    }

    /// Orders the atomic writes of a cell before the atomic write from which a read takes.
    fn order_overwritten(&mut self, writer: usize, reader: usize, cell: usize) -> Result<(), Halt> {
        let cells = self.cells;
        for thread in 0..cells.threads() {
            let list = cells.atomic_writes(cell, thread);
            if let Some(last) = cells.last_of(list, thread, self.happen_count(reader, thread))
                && last != writer
            {
                self.order(last, writer)?;
            }
        }
        Ok(())
    }

    /// Orders the atomic writes of a cell after an atomic read of it.
    fn order_past(
        &mut self,
        writer: usize,
        reader: usize,
        cell: usize,
        kind: Past,
    ) -> Result<(), Halt> {
        let cells = self.cells;
        for thread in 0..cells.threads() {
            let list = cells.atomic_writes(cell, thread);
            if let Some(first) = self.first_past(list, writer, reader, kind) {
                self.order(reader, first)?;
            }
        }
        Ok(())
    }

    /// Adds what the fifth rule says of a read whose source is known.
    fn order_by(&mut self, reader: usize, access: &Access) -> Result<(), Halt> {
        match self.source(reader) {
            Source::Open => Ok(()),
            Source::Init if access.is_atomic => {
                self.order_past(reader, reader, access.cell, Past::All)
            }
            Source::Init => Ok(()),
            Source::From(writer) if self.are_atomic(writer, reader) => {
                self.order_beside(writer, reader, access.cell)
            }
            Source::From(writer) if !self.happens(writer, reader) => Ok(()),
            Source::From(writer) => {
                if access.is_atomic {
                    self.order_past(writer, reader, access.cell, Past::Happens)
                } else {
                    match self.cells.get(writer) {
                        Some(from) if from.is_atomic => {
                            self.order_overwritten(writer, reader, access.cell)
                        }
                        _ => Ok(()),
                    }
                }
            }
        }
    }

    /// The last write of a cell by each thread that happens before a read.
    fn lasts(&self, reader: usize, cell: usize) -> Lasts {
        let mut lasts = [None; MAX_THREADS];
        for thread in 0..MAX_THREADS {
            if thread < self.cells.threads() {
                let list = self.cells.writes(cell, thread);
                let count = self.happen_count(reader, thread);
                lasts[thread] = self.cells.last_of(list, thread, count);
            }
        }
        lasts
    }

    /// Whether a read can take from Init.
    fn can_take_init(&self, reader: usize, access: &Access, lasts: &Lasts) -> bool {
        let cells = self.cells;
        if cells.initial.get(access.cell).copied() != Some(access.read) {
            return false;
        }
        for last in lasts.iter() {
            if last.is_some() {
                return false;
            }
        }
        if access.is_atomic {
            for thread in 0..cells.threads() {
                let list = cells.atomic_writes(access.cell, thread);
                if let Some(first) = list.first()
                    && self.stands(*first, reader)
                {
                    return false;
                }
            }
        }
        true
    }

    /// Whether a write of the cell is between a writer and a read of it.
    fn is_between(&self, writer: usize, reader: usize, cell: usize, lasts: &Lasts) -> bool {
        for last in lasts.iter() {
            if let Some(last) = last
                && *last != writer
                && self.happens(writer, *last)
            {
                return true;
            }
        }
        if !self.are_atomic(writer, reader) {
            return false;
        }
        let cells = self.cells;
        for thread in 0..cells.threads() {
            let list = cells.atomic_writes(cell, thread);
            if let Some(last) = cells.last_of(list, thread, self.count(reader, thread))
                && last != writer
                && self.stands(writer, last)
            {
                return true;
            }
        }
        false
    }

    /// Whether a read can take from a writer of its cell.
    fn can_take(&self, writer: usize, reader: usize, access: &Access, lasts: &Lasts) -> bool {
        if writer == reader || self.happens(reader, writer) {
            return false;
        }
        if self.are_atomic(writer, reader) {
            let is_updated = match self.is_updated.get(writer) {
                Some(is_updated) => *is_updated,
                None => false,
            };
            if self.stands(reader, writer) || (access.writes && is_updated) {
                return false;
            }
        }
        !self.is_between(writer, reader, access.cell, lasts)
    }

    /// Adds the sources of a read that are writes of a thread.
    fn add_options(
        &self,
        options: &mut Options,
        reader: usize,
        access: &Access,
        lasts: &Lasts,
        thread: usize,
    ) {
        let cells = self.cells;
        if let Some(Some(last)) = lasts.get(thread)
            && let Some(write) = cells.get(*last)
            && write.written == access.read
            && self.can_take(*last, reader, access, lasts)
            && options.add(Source::From(*last))
        {
            return;
        }
        if thread == access.key.thread as usize {
            return;
        }
        let from = cells
            .start(thread)
            .saturating_add(self.happen_count(reader, thread) as usize);
        let end = cells.start(thread.saturating_add(1));
        let mut place = cells.place_of(access.cell, access.read, from);
        for _ in from..end {
            let Some(writer) = cells.leaves(place, access.cell, access.read) else {
                return;
            };
            if writer >= end || self.happens(reader, writer) {
                return;
            }
            if self.can_take(writer, reader, access, lasts) && options.add(Source::From(writer)) {
                return;
            }
            place = place.saturating_add(1);
        }
    }

    /// The sources that a read can have.
    pub(crate) fn options(&self, reader: usize, access: &Access) -> Options {
        let mut options = Options {
            first: None,
            is_several: false,
        };
        let lasts = self.lasts(reader, access.cell);
        if self.can_take_init(reader, access, &lasts) {
            options.add(Source::Init);
        }
        for thread in 0..self.cells.threads() {
            if options.is_several {
                break;
            }
            if !self.cells.writes(access.cell, thread).is_empty() {
                self.add_options(&mut options, reader, access, &lasts, thread);
            }
        }
        options
    }

    /// Has a read take from a source.
    fn decide(&mut self, reader: usize, access: &Access, source: Source) -> Result<(), Halt> {
        if reader < self.sources.len() {
            self.sources[reader] = source;
        }
        self.is_new = true;
        if let Source::From(writer) = source {
            let are_atomic = self.are_atomic(writer, reader);
            if self.is_causal || are_atomic {
                self.joins.push(writer, reader)?;
            }
            if access.writes && are_atomic && writer < self.is_updated.len() {
                if self.is_updated[writer] {
                    return Err(Halt::Contradiction);
                }
                self.is_updated[writer] = true;
            }
        }
        Ok(())
    }

    /// Looks at all reads once.
    fn look(&mut self) -> Result<(), Halt> {
        let cells = self.cells;
        for (reader, access) in cells.accesses.iter().enumerate() {
            if !access.reads {
                continue;
            }
            if self.source(reader) != Source::Open {
                self.order_by(reader, access)?;
                continue;
            }
            match self.options(reader, access) {
                Options { first: None, .. } => return Err(Halt::Contradiction),
                Options {
                    first: Some(source),
                    is_several: false,
                } => self.decide(reader, access, source)?,
                _ => (),
            }
        }
        Ok(())
    }

    /// Extends what is known in so many rounds, or until nothing is new.
    pub(crate) fn extend(&mut self, alloc: Global, rounds: u32) -> Result<(), Halt> {
        for _ in 0..rounds {
            self.close(alloc)?;
            self.is_new = false;
            self.look()?;
            if !self.is_new {
                return Ok(());
            }
        }
        self.close(alloc)
    }
}
