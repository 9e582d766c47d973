//! Which events of an execution a picture shows.
ghost use Rattle.std.specs.Prelude.{◌≤◌, ◌↔◌, IfOk, IsTrue, length};
ghost use Rattle.wm_graph.specs.Shown.{IsMarkedIn, IsShown, ShowsAll, max_shown};

use crate::columns::Column;
use crate::edges::{Edge, EdgeKind};
use std::alloc::{AllocError, Global};
use wm_event::{Candidate, EventId, EventKey};
use wm_hb::FaultChain;
use wm_list::List;

/// Up to this number of events, all are shown.
pub(crate) const MAX_SHOWN: usize = 60;

/// What a picture shows of the fault of a rule.
#[derive(Clone, Copy)]
pub(crate) struct FaultParts<'a> {
    pub chains: &'a [FaultChain],
    /// The edges that the fault needs in addition to its chains.
    pub edges: &'a [Edge],
}

/// The events of a picture that are shown: all if there are at most 60. Otherwise, the events that the breach marks
/// and those of the fault's chains, with their neighbours: the events before and after them in their threads, and the
/// writers that they read from. If it marks no event, the first 60 of the order.
#[derive(Drop)]
pub(crate) struct Shown {
    /// Whether an event is shown, by thread and number; None if all are.
    marks: Option<Vec<List<bool>>>,
    /// How many events there are.
    pub total: usize,
}

/// Marks for the events of these columns, of which none is set.
fn no_marks(alloc: Global, columns: &[Column]) -> Result<Vec<List<bool>>, AllocError> {
    let mut marks = Vec::new(alloc);
    for column in columns {
        let count = column.nodes.len();
        marks.push(List::from_vec(vec![in alloc; false; count]?))?;
    }
    Ok(marks)
}

/// Whether the mark of an event is set.
fn is_marked(marks: &[List<bool>], key: EventKey) -> bool
    ensures { IsTrue result ↔ IsMarkedIn marks.now key }
{
    match marks.get(key.thread as usize) {
        Some(events) => matches!(events.get(key.number as usize), Some(true)),
        None => false,
    }
}

impl Shown {
    /// Whether a listed event is shown.
    pub(crate) fn has_listed(&self, key: EventKey) -> bool
        ensures { IsTrue result ↔ IsShown self.now key }
    {
        match &self.marks {
            None => true,
            Some(marks) => is_marked(marks.as_slice(), key),
        }
    }

    /// Whether an event is shown; Init is.
    pub(crate) fn has(&self, id: EventId) -> bool {
        match id {
            EventId::Init => true,
            EventId::At(key) => self.has_listed(key),
        }
    }

    /// Shows an event.
    fn add(&mut self, id: EventId) {
        if let (EventId::At(EventKey { thread, number }), Some(marks)) = (id, &mut self.marks) {
            if let Some(events) = marks.get_mut(thread as usize) {
                if (number as usize) < events.len() {
                    events.set(number as usize, true);
                }
            }
        }
    }

    /// How many events are shown.
    pub(crate) fn count(&self) -> usize {
        let Some(marks) = &self.marks else {
            return self.total;
        };
        let mut count = 0usize;
        for events in marks.as_slice() {
            for is_shown in events.as_slice() {
                if *is_shown {
                    count = count.saturating_add(1);
                }
            }
        }
        count
    }

    /// Shows the first events of the order, at most [`MAX_SHOWN`].
    fn add_first(&mut self, candidate: &Candidate) {
        for key in candidate.witness().order.as_slice().iter().take(MAX_SHOWN) {
            self.add(EventId::At(*key));
        }
    }

    /// Shows the events that the breach marks, and both ends of the edges that its fault needs.
    fn add_marked(&mut self, columns: &[Column], fault: FaultParts) {
        for column in columns {
            for node in column.nodes.as_slice() {
                if node.is_marked {
                    self.add(EventId::At(node.event.key()));
                }
            }
        }
        for chain in fault.chains {
            self.add(chain.from);
            for link in chain.links.as_slice() {
                self.add(EventId::At(link.event));
            }
        }
        for edge in fault.edges {
            if let EdgeKind::Coherence | EdgeKind::FromRead = edge.kind {
                self.add(edge.from);
                self.add(EventId::At(edge.to));
            }
        }
    }

    /// Shows the neighbours of an event.
    fn add_neighbours_of(&mut self, candidate: &Candidate, key: EventKey) {
        let EventKey { thread, number } = key;
        if let Some(number) = number.checked_sub(1) {
            self.add(EventId::At(EventKey { thread, number }));
        }
        if let Some(number) = number.checked_add(1) {
            self.add(EventId::At(EventKey { thread, number }));
        }
        for writer in candidate.writers(key) {
            self.add(*writer);
        }
    }

    /// Shows the neighbours of the events that another choice shows.
    fn add_neighbours(&mut self, columns: &[Column], candidate: &Candidate, chosen: &Shown) {
        for column in columns {
            for node in column.nodes.as_slice() {
                let key = node.event.key();
                if chosen.has_listed(key) {
                    self.add_neighbours_of(candidate, key);
                }
            }
        }
    }

    /// The events that a picture with these columns shows.
    ///
    /// # Errors
    ///
    /// Only if an allocation fails.
    pub(crate) fn of(
        alloc: Global,
        candidate: &Candidate,
        columns: &[Column],
        fault: FaultParts,
    ) -> Result<Shown, AllocError>
        ensures few { IfOk result (λ shown. length candidate.now.witness.order ≤ max_shown → ShowsAll shown) }
    {
        let total = candidate.witness().order.len();
        if total <= MAX_SHOWN {
            return Ok(Shown { marks: None, total });
        }
        let mut chosen = Shown {
            marks: Some(no_marks(alloc, columns)?),
            total,
        };
        chosen.add_marked(columns, fault);
        let mut shown = Shown {
            marks: Some(no_marks(alloc, columns)?),
            total,
        };
        if chosen.count() > 0 {
            shown.add_marked(columns, fault);
            shown.add_neighbours(columns, candidate, &chosen);
        } else {
            shown.add_first(candidate);
        }
        Ok(shown)
    }

    /// The events of these columns that are shown, in the order of the columns.
    ///
    /// # Errors
    ///
    /// Only if an allocation fails.
    pub(crate) fn ids(
        &self,
        alloc: Global,
        columns: &[Column],
    ) -> Result<Vec<EventId>, AllocError> {
        let mut ids = Vec::new(alloc);
        for column in columns {
            for node in column.nodes.as_slice() {
                let key = node.event.key();
                if self.has_listed(key) {
                    ids.push(EventId::At(key))?;
                }
            }
        }
        Ok(ids)
    }
}
