//! What always happens before an event, or comes before it in the order.
ghost use Rattle.std.specs.Prelude.{All, List, ◌≡◌, ◌<◌, IfOk, IfSome, IsTrue, length, slice_index_or};
ghost use Rattle.wm_witness.specs.Always.{IsClosed};
ghost use Rattle.wm_witness.specs.Relations.{AlwaysRelates, AreRows, IsAt, IsEmptyRow, IsPair};
ghost use Rattle.wm_witness.specs.declared.assumption.Assumption.{Assumption};
ghost use Rattle.wm_witness.specs.declared.row.Row.{Row};

use crate::assumption::Assumption;
use crate::links::Links;
use crate::named::Named;
use crate::row::Row;
use std::alloc::{AllocError, Global};
use wm_event::{Candidate, EventId, EventKey};

/// Which relation of events.
#[derive(Clone, Copy)]
pub(crate) enum Kind {
    /// The first event happens before the second.
    Happens,
    /// The first event stands before the second in the order.
    Stands,
}

/// Two events, of which the first comes before the second.
#[derive(Clone, Copy, PartialEq, Eq)]
pub(crate) struct Pair {
    pub first: EventKey,
    pub second: EventKey,
}

/// A relation of the events of a log: for each event what comes before it in all valid runs that keep some assumptions,
/// as far as it is known.
#[derive(Drop)]
pub(crate) struct Relation {
    pub kind: Kind,
    /// The events, thread after thread.
    pub rows: Vec<Row>,
    /// Where the events of each thread begin.
    pub starts: Vec<usize>,
    /// The assumptions about each event, if they were noted. Nothing rests on them.
    pub named: Named,
}

/// The row of an event before which nothing is known to come; None if there is no such event.
fn empty_row(start: &Candidate, key: EventKey) -> Option<Row>
    ensures { IfSome result (IsEmptyRow start.now) }
{
    match start.event(EventId::At(key)) {
        Some(_) => Some(Row::new(key)),
        None => None,
    }
}

impl Relation {
    /// The place of an event among the rows.
    pub(crate) fn index(&self, key: EventKey) -> Option<usize>
        ensures { IfSome result (λ i. IsAt self.now.rows.items i key) }
    {
        let start = *self.starts.get(key.thread as usize)?;
        if start >= self.rows.len() {
            return None;
        }
        if key.number as usize >= self.rows.len() - start {
            return None;
        }
        let index = start + key.number as usize;
        if self.rows[index].key == key {
            Some(index)
        } else {
            None
        }
    }

    /// The relation in which nothing comes before any event yet.
    pub(crate) fn new(alloc: Global, start: &Candidate, kind: Kind) -> Result<Self, AllocError>
        ensures kind { IfOk result (λ relation. relation.kind ≡ kind) }
        ensures rows { IfOk result (λ relation. (assumed : List Assumption) → AreRows start.now assumed relation.kind relation.rows.items) }
    {
        let mut rows = Vec::new(alloc);
        let mut starts = Vec::new(alloc);
        for thread in start.log().threads() {
            starts.push(rows.len())?;
            for event in thread.events.as_slice() {
                if let Some(row) = empty_row(start, event.key()) {
                    rows.push(row)?;
                }
            }
        }
        Ok(Relation {
            kind,
            rows,
            starts,
            named: Named::none(alloc),
        })
    }

    /// Where the row of an event is, if there is such an event; otherwise any place. Nothing rests on it.
    fn place(&self, key: EventKey) -> Option<usize> {
        let start = *self.starts.get(key.thread as usize)?;
        Some(start.saturating_add(key.number as usize))
    }

    /// The place of an assumption about the writer of a byte of a read.
    pub(crate) fn first_of_bytes(&self, reader: EventKey) -> Option<usize> {
        self.named.first_of_bytes(self.place(reader)?)
    }

    /// The place of an assumption that a read takes a byte from an event, or none.
    pub(crate) fn first_of_events(&self, reader: EventKey) -> Option<usize> {
        self.named.first_of_events(self.place(reader)?)
    }

    /// How many events of a thread are known to come before the event of a row.
    pub(crate) fn count(&self, index: usize, thread: usize) -> u32 {
        match self.rows.get(index) {
            None => 0,
            Some(row) => match row.before.get(thread) {
                None => 0,
                Some(count) => *count,
            },
        }
    }

    /// How many events of a thread are known to come before an event.
    pub(crate) fn count_before(&self, event: EventKey, thread: usize) -> u32 {
        match self.place(event) {
            Some(index) => self.count(index, thread),
            None => 0,
        }
    }

    /// Whether the row of an event of a thread counts another event.
    pub(crate) fn counts(&self, thread: usize, number: usize, other: EventKey) -> bool {
        let Some(start) = self.starts.get(thread) else {
            return false;
        };
        match self.rows.get(start.saturating_add(number)) {
            Some(row) => row.covers(other),
            None => false,
        }
    }

    /// Whether the last event of a thread counts another event. If it doesn't, none of the thread does.
    pub(crate) fn ends_after(&self, thread: usize, other: EventKey) -> bool {
        let end = match self.starts.get(thread.saturating_add(1)) {
            Some(end) => *end,
            None => self.rows.len(),
        };
        match self.rows.get(end.saturating_sub(1)) {
            Some(row) => row.covers(other),
            None => false,
        }
    }

    /// Whether an event is known to come before another.
    pub(crate) fn has(&self, start: &Candidate, assumed: &[Assumption], pair: Pair) -> bool
        requires { AreRows start.now assumed.now self.now.kind self.now.rows.items }
        ensures { IsTrue result → IsPair start.now assumed.now self.now.kind pair }
    {
        match self.index(pair.second) {
            Some(index) => self.rows[index].covers(pair.first),
            None => false,
        }
    }

    /// Adds what comes before one event to what comes before another, and the event itself. Whether that is new.
    fn join(&mut self, start: &Candidate, assumed: &[Assumption], from: usize, into: usize) -> bool
        requires from { from < length self.old.rows.items }
        requires into { into < length self.old.rows.items }
        requires rows { AreRows start.now assumed.now self.old.kind self.old.rows.items }
        requires before { (a b : Row) → a ≡ slice_index_or self.old.rows.items from a → b ≡ slice_index_or self.old.rows.items into b →
            AlwaysRelates start.now assumed.now self.old.kind a.key b.key }
        ensures kind { self.new.kind ≡ self.old.kind }
        ensures rows { AreRows start.now assumed.now self.new.kind self.new.rows.items }
        ensures size { length self.new.rows.items ≡ length self.old.rows.items }
    {
        let row = self.rows[into];
        let other = self.rows[from];
        let threads = self.starts.len();
        if row.includes(&other, threads) {
            return false;
        }
        self.rows[into] = row.joined(&other, threads);
        true
    }

    /// Adds a pair. Whether it is new.
    pub(crate) fn add_pair(&mut self, start: &Candidate, assumed: &[Assumption], pair: Pair) -> bool
        requires rows { AreRows start.now assumed.now self.old.kind self.old.rows.items }
        requires pair { IsPair start.now assumed.now self.old.kind pair }
        ensures kind { self.new.kind ≡ self.old.kind }
        ensures rows { AreRows start.now assumed.now self.new.kind self.new.rows.items }
    {
        match (self.index(pair.first), self.index(pair.second)) {
            (Some(from), Some(into)) => self.join(start, assumed, from, into),
            _ => false,
        }
    }

    /// Joins the row at a place with that of the event before it in its thread. Whether that is new.
    fn join_earlier(&mut self, start: &Candidate, assumed: &[Assumption], index: usize) -> bool
        requires rows { AreRows start.now assumed.now self.old.kind self.old.rows.items }
        ensures kind { self.new.kind ≡ self.old.kind }
        ensures rows { AreRows start.now assumed.now self.new.kind self.new.rows.items }
    {
        if index == 0 || index >= self.rows.len() {
            return false;
        }
        let earlier = self.rows[index - 1].key;
        let key = self.rows[index].key;
        if earlier.thread == key.thread && earlier.number < key.number {
            self.join(start, assumed, index - 1, index)
        } else {
            false
        }
    }

    /// Adds the pairs that lead to the event of a row, which are linked from `links.first`. Whether that is new.
    fn join_linked(
        &mut self,
        start: &Candidate,
        assumed: &[Assumption],
        pairs: &[Pair],
        links: &Links,
        index: usize,
    ) -> bool
        requires rows { AreRows start.now assumed.now self.old.kind self.old.rows.items }
        requires pairs { All (IsPair start.now assumed.now self.old.kind) pairs.now }
        ensures kind { self.new.kind ≡ self.old.kind }
        ensures rows { AreRows start.now assumed.now self.new.kind self.new.rows.items }
    {
        let mut is_new = false;
        let mut next = links.first_to(index);
        for _ in 0..pairs.len() {
            let Some(place) = next else {
                break;
            };
            let Some(pair) = pairs.get(place) else {
                break;
            };
            if self.add_pair(start, assumed, *pair) {
                is_new = true;
            }
            next = links.after(place);
        }
        is_new
    }

    /// Joins the rows once, in an order. Whether that is new.
    fn join_all(
        &mut self,
        start: &Candidate,
        assumed: &[Assumption],
        pairs: &[Pair],
        links: &Links,
    ) -> bool
        requires rows { AreRows start.now assumed.now self.old.kind self.old.rows.items }
        requires pairs { All (IsPair start.now assumed.now self.old.kind) pairs.now }
        ensures kind { self.new.kind ≡ self.old.kind }
        ensures rows { AreRows start.now assumed.now self.new.kind self.new.rows.items }
    {
        let mut is_new = false;
        for index in links.order.as_slice() {
            if self.join_earlier(start, assumed, *index) {
                is_new = true;
            }
            if self.join_linked(start, assumed, pairs, links, *index) {
                is_new = true;
            }
        }
        is_new
    }

    /// Adds pairs, and all that follows from them, unless a cycle is found before.
    pub(crate) fn close(
        &mut self,
        alloc: Global,
        start: &Candidate,
        assumed: &[Assumption],
        pairs: &[Pair],
    ) -> Result<(), AllocError>
        requires rows { AreRows start.now assumed.now self.old.kind self.old.rows.items }
        requires pairs { All (IsPair start.now assumed.now self.old.kind) pairs.now }
        ensures kind { self.new.kind ≡ self.old.kind }
        ensures rows { AreRows start.now assumed.now self.new.kind self.new.rows.items }
    {
        let links = Links::of(alloc, self, pairs)?;
        for _ in 0..self.rows.len() {
            if !self.join_all(start, assumed, pairs, &links)
                || links.is_sorted
                || self.has_cycle(start, assumed)
            {
                break;
            }
        }
        Ok(())
    }

    /// Whether an event is known to come before itself.
    pub(crate) fn has_cycle(&self, start: &Candidate, assumed: &[Assumption]) -> bool
        requires { AreRows start.now assumed.now self.now.kind self.now.rows.items }
        ensures { IsTrue result → IsClosed start.now assumed.now }
    {
        for row in &self.rows {
            if row.covers(row.key) {
                return true;
            }
        }
        false
    }
}
