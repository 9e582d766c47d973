//! Decisions on an order that is open, and what follows from them. Nothing rests on them but how soon a search ends.

use crate::halt::Halt;
use crate::likely::{Likely, Source, raise};
use std::alloc::Global;

/// Two accesses, of which the first is to stand before the second.
#[derive(Clone, Copy)]
pub(crate) struct Ordered {
    pub first: usize,
    pub second: usize,
}

/// The most accesses that are looked at after one decision.
const MAX_STEPS: u32 = 1 << 24;

impl<'a> Likely<'a> {
    /// Adds what comes before an access to what comes before another, and notes that one if that is new.
    fn pass(&mut self, from: usize, into: usize, work: &mut Vec<usize>) -> Result<(), Halt> {
        let threads = self.cells.threads();
        if raise(self.stands.as_mut_slice(), from, into, threads) {
            if self.stands(into, into) {
                return Err(Halt::Contradiction);
            }
            work.push(into)?;
        }
        Ok(())
    }

    /// Passes on what is new of an access.
    fn pass_all(&mut self, index: usize, work: &mut Vec<usize>) -> Result<(), Halt> {
        if let Some(next) = self.cells.next(index) {
            self.pass(index, next, work)?;
        }
        let mut place = self.joins.first(index);
        for _ in 0..self.joins.len() {
            let Some(arc) = self.joins.get(place) else {
                break;
            };
            self.pass(index, arc.to, work)?;
            place = arc.next;
        }
        let mut place = self.orders.first(index);
        for _ in 0..self.orders.len() {
            let Some(arc) = self.orders.get(place) else {
                break;
            };
            self.pass(index, arc.to, work)?;
            place = arc.next;
        }
        Ok(())
    }

    /// Adds that an access stands before another, and notes what more comes before which accesses.
    fn spread(
        &mut self,
        alloc: Global,
        pair: Ordered,
        touched: &mut Vec<usize>,
    ) -> Result<(), Halt> {
        let Ordered { first, second } = pair;
        if first == second || self.stands(second, first) {
            return Err(Halt::Contradiction);
        }
        if self.stands(first, second) {
            return Ok(());
        }
        self.orders.push(first, second)?;
        let mut work = Vec::new(alloc);
        self.pass(first, second, &mut work)?;
        for _ in 0..MAX_STEPS {
            let Some(index) = work.pop() else {
                return Ok(());
            };
            touched.push(index)?;
            self.pass_all(index, &mut work)?;
        }
        Err(Halt::Contradiction)
    }

    /// Orders the reads that take from an atomic write before a later one.
    fn order_reads(
        &mut self,
        alloc: Global,
        write: usize,
        later: usize,
        touched: &mut Vec<usize>,
    ) -> Result<(), Halt> {
        let mut place = self.joins.first(write);
        for _ in 0..self.joins.len() {
            let Some(arc) = self.joins.get(place) else {
                break;
            };
            place = arc.next;
            if arc.to != later && self.are_atomic(arc.to, later) {
                let (first, second) = (arc.to, later);
                self.spread(alloc, Ordered { first, second }, touched)?;
            }
        }
        Ok(())
    }

    /// Adds what the fifth rule says of an access before which more stands.
    fn order_after(
        &mut self,
        alloc: Global,
        index: usize,
        touched: &mut Vec<usize>,
    ) -> Result<(), Halt> {
        let cells = self.cells;
        let Some(access) = cells.get(index) else {
            return Ok(());
        };
        if !access.is_atomic {
            return Ok(());
        }
        for thread in 0..cells.threads() {
            let list = cells.atomic_writes(access.cell, thread);
            let Some(last) = cells.last_of(list, thread, self.count(index, thread)) else {
                continue;
            };
            if let Source::From(second) = self.source(index)
                && last != second
                && self.are_atomic(second, index)
            {
                self.spread(
                    alloc,
                    Ordered {
                        first: last,
                        second,
                    },
                    touched,
                )?;
            }
            if access.writes {
                self.order_reads(alloc, last, index, touched)?;
            }
        }
        Ok(())
    }

    /// Adds that an access stands before another, and what follows.
    fn add(&mut self, alloc: Global, pair: Ordered) -> Result<(), Halt> {
        let mut touched = Vec::new(alloc);
        self.spread(alloc, pair, &mut touched)?;
        for _ in 0..MAX_STEPS {
            let Some(index) = touched.pop() else {
                return Ok(());
            };
            self.order_after(alloc, index, &mut touched)?;
        }
        Err(Halt::Contradiction)
    }

    /// Adds one of two orders, the second if the first contradicts what is known. Whether it is the first.
    pub(crate) fn add_either(
        &mut self,
        alloc: Global,
        pair: Ordered,
        other: Ordered,
    ) -> Result<bool, Halt> {
        let stands = self.stands.as_slice().to_vec(alloc)?;
        let count = self.orders.len();
        match self.add(alloc, pair) {
            Ok(()) => return Ok(true),
            Err(Halt::OutOfMemory) => return Err(Halt::OutOfMemory),
            Err(Halt::Contradiction) => (),
        }
        self.stands = stands;
        self.orders.truncate(count);
        self.add(alloc, other)?;
        Ok(false)
    }
}
