//! In which order the rows of a relation are joined. Nothing rests on it but how soon all that follows is known.

use crate::relation::{Pair, Relation};
use std::alloc::{AllocError, Global};

/// The pairs that lead to each row, and an order of the rows in which most come after those that lead to them.
#[derive(Drop)]
pub(crate) struct Links {
    /// For each row a pair that leads to it.
    first: Vec<Option<usize>>,
    /// For each pair another that leads to the same row.
    next: Vec<Option<usize>>,
    /// The places of the rows.
    pub order: Vec<usize>,
    /// Whether each row comes after all that lead to it.
    pub is_sorted: bool,
}

impl Links {
    /// A pair that leads to a row.
    pub(crate) fn first_to(&self, index: usize) -> Option<usize> {
        *self.first.get(index)?
    }

    /// Another pair that leads to the row to which a pair leads.
    pub(crate) fn after(&self, place: usize) -> Option<usize> {
        *self.next.get(place)?
    }

    /// The links of some pairs.
    pub(crate) fn of(
        alloc: Global,
        relation: &Relation,
        pairs: &[Pair],
    ) -> Result<Self, AllocError> {
        let mut first: Vec<Option<usize>> = vec![in alloc; None; relation.rows.len()]?;
        let mut next = Vec::with_capacity(alloc, pairs.len())?;
        for (place, pair) in pairs.iter().enumerate() {
            match relation.index(pair.second) {
                Some(index) => {
                    next.push(first[index])?;
                    first[index] = Some(place);
                }
                None => next.push(None)?,
            }
        }
        let mut links = Links {
            first,
            next,
            order: Vec::with_capacity(alloc, relation.rows.len())?,
            is_sorted: true,
        };
        links.schedule(alloc, relation, pairs)?;
        Ok(links)
    }

    /// Whether all pairs that lead to a row come from rows that are done.
    fn is_ready(&self, relation: &Relation, pairs: &[Pair], done: &[bool], index: usize) -> bool {
        let mut next = self.first_to(index);
        for _ in 0..pairs.len() {
            let Some(place) = next else {
                return true;
            };
            if let Some(pair) = pairs.get(place)
                && let Some(from) = relation.index(pair.first)
                && let Some(false) = done.get(from)
            {
                return false;
            }
            next = self.after(place);
        }
        true
    }

    /// Puts the next rows of a thread into the order, as long as they are ready, or only the next one if `is_forced`. How
    /// many rows there are.
    fn advance(
        &mut self,
        relation: &Relation,
        pairs: &[Pair],
        done: &mut [bool],
        from: usize,
        end: usize,
        is_forced: bool,
    ) -> Result<usize, AllocError> {
        let mut count: usize = 0;
        for index in from..end {
            if index >= done.len() {
                break;
            }
            if !(is_forced && count == 0) && !self.is_ready(relation, pairs, done, index) {
                break;
            }
            done[index] = true;
            self.order.push(index)?;
            count = count.saturating_add(1);
        }
        Ok(count)
    }

    /// Puts the rows into an order in which each comes after those that lead to it, as far as there is one.
    fn schedule(
        &mut self,
        alloc: Global,
        relation: &Relation,
        pairs: &[Pair],
    ) -> Result<(), AllocError> {
        let threads = relation.starts.len();
        let size = relation.rows.len();
        let mut done = vec![in alloc; false; size]?;
        let mut nexts = relation.starts.as_slice().to_vec(alloc)?;
        let mut is_forced = false;
        for _ in 0..size + size {
            let mut is_new = false;
            for thread in 0..threads {
                let from = match nexts.get(thread) {
                    Some(next) => *next,
                    None => size,
                };
                let end = match relation.starts.get(thread + 1) {
                    Some(end) => *end,
                    None => size,
                };
                let count = self.advance(
                    relation,
                    pairs,
                    &mut done,
                    from,
                    end,
                    is_forced && !is_new,
                )?;
                if count > 0 && thread < nexts.len() && from <= size {
                    nexts[thread] = from.saturating_add(count);
                    is_new = true;
                }
            }
            if self.order.len() >= size {
                break;
            }
            is_forced = !is_new;
            if is_forced {
                self.is_sorted = false;
            }
        }
        Ok(())
    }
}
