//! The ways from event to event along the edges of a cycle that is looked for.
ghost use Rattle.std.specs.Prelude.{IfOk, IfSome};
ghost use Rattle.wm_event.specs.LoggedRun.{LoggedRun};
ghost use Rattle.wm_graph.specs.Cycle.{AreWays, IsWay};

use crate::cycle_edge::CycleEdge;
use std::alloc::{AllocError, Global};
use wm_event::EventKey;
use wm_list::List;

/// A way from the event at which its first edge begins.
#[derive(Clone, Copy)]
pub(crate) struct Way {
    pub first: CycleEdge,
    pub to: EventKey,
    /// How many edges it has.
    pub steps: usize,
}

/// The shortest way that is known from each event to each event, by their places in the order.
#[derive(Drop)]
pub(crate) struct Ways {
    /// The number of events.
    pub size: usize,
    pub entries: List<Option<Way>>,
}

impl Ways {
    /// No ways between this number of events.
    pub(crate) fn none(alloc: Global, size: usize) -> Result<Ways, AllocError>
        ensures { (x : LoggedRun) → IfOk result (AreWays x) }
    {
        let entries = vec![in alloc; None; size.saturating_mul(size)]?;
        Ok(Ways {
            size,
            entries: List::from_vec(entries),
        })
    }

    /// Where the way from one place to another is.
    fn index(&self, from: usize, to: usize) -> usize {
        from.saturating_mul(self.size).saturating_add(to)
    }

    /// The way from one place to another.
    pub(crate) fn get(&self, from: usize, to: usize) -> Option<Way>
        ensures { (x : LoggedRun) → AreWays x self.now → IfSome result (IsWay x) }
    {
        *self.entries.get(self.index(from, to))?
    }

    /// Keeps a way from one place to another, if none as short is known.
    pub(crate) fn add(&mut self, from: usize, to: usize, way: Way)
        ensures { (x : LoggedRun) → AreWays x self.old → IsWay x way → AreWays x self.new }
    {
        let index = self.index(from, to);
        let is_shorter = match self.get(from, to) {
            Some(known) => way.steps < known.steps,
            None => true,
        };
        if is_shorter && index < self.entries.len() {
            self.entries.set(index, Some(way));
        }
    }

    /// Adds the way from one place to another through a third.
    fn join(&mut self, from: usize, through: usize, to: usize)
        ensures { (x : LoggedRun) → AreWays x self.old → AreWays x self.new }
    {
        let (Some(one), Some(other)) = (self.get(from, through), self.get(through, to)) else {
            return;
        };
        if one.to == other.first.from {
            let way = Way {
                first: one.first,
                to: other.to,
                steps: one.steps.saturating_add(other.steps),
            };
            self.add(from, to, way);
        }
    }

    /// Adds the ways from one place through another.
    fn join_from(&mut self, from: usize, through: usize)
        ensures { (x : LoggedRun) → AreWays x self.old → AreWays x self.new }
    {
        if self.get(from, through).is_none() {
            return;
        }
        for to in 0..self.size {
            self.join(from, through, to);
        }
    }

    /// Adds the ways through a place.
    fn join_all(&mut self, through: usize)
        ensures { (x : LoggedRun) → AreWays x self.old → AreWays x self.new }
    {
        for from in 0..self.size {
            self.join_from(from, through);
        }
    }

    /// Adds all ways along others (the algorithm of Floyd and Warshall).
    pub(crate) fn close(&mut self)
        ensures { (x : LoggedRun) → AreWays x self.old → AreWays x self.new }
    {
        for through in 0..self.size {
            self.join_all(through);
        }
    }

    /// The place from which a shortest way leads back to it, if there is one.
    pub(crate) fn shortest_cycle(&self) -> Option<usize> {
        let mut found = None;
        let mut least = usize::MAX;
        for place in 0..self.size {
            if let Some(way) = self.get(place, place) {
                if way.steps < least {
                    least = way.steps;
                    found = Some(place);
                }
            }
        }
        found
    }
}
