//! Happens-before of a candidate whose order agrees with it.
ghost use Rattle.std.specs.Prelude.{◌≡◌, ◌<◌, ◌≤◌, ◌↔◌, IsTrue, IfOk, Some, None, length};
ghost use Rattle.wm_event.specs.declared.event.EventId.TheVariants.{Init, At};
ghost use Rattle.wm_event.specs.declared.event.EventKey.{EventKey};
ghost use Rattle.wm_event.specs.HappensBefore.{HappensBefore as IsBefore};
ghost use Rattle.wm_event.specs.LoggedRun.{execution};
ghost use Rattle.wm_event.specs.Rules.{KeepsOrder};
ghost use Rattle.wm_hb.specs.Sequence.{AreInSequence, HoldsFrom};
ghost use Rattle.wm_hb.specs.Steps.{DecidesBefore, IsHappensBefore};

use crate::ordered::Ordered;
use crate::search::{Turning, turn_of};
use crate::steps::{graph, place_of, threads};
use std::alloc::{AllocError, Global};
use std::marker::Model;
use wm_closure::Closure;
use wm_event::{Candidate, EventId, EventKey};

/// Happens-before of a candidate whose order agrees with it.
#[derive(Drop)]
pub struct HappensBefore<'c, 'i> {
    candidate: &'c Candidate<'i>,
    closure: Closure,
}

impl<'c, 'i> Model for HappensBefore<'c, 'i> {
    ghost use Rattle.wm_event.specs.LoggedRun.{LoggedRun};
    ghost use Rattle.wm_hb.specs.Steps.{IsHappensBefore};

    ghost Value = { LoggedRun };

    ghost view = { λ h. h.candidate.now };

    ghost invariant = { λ h. IsHappensBefore h.candidate.now h.closure };
}

impl<'c, 'i> HappensBefore<'c, 'i> {
    /// Happens-before of an ordered candidate. The only error is an allocation failure.
    pub fn of(alloc: Global, ordered: &Ordered<'c, 'i>) -> Result<Self, AllocError>
        ensures { IfOk result (λ h. h ≡ ordered.now) }
    {
        let candidate = ordered.candidate();
        let log = candidate.log();
        let steps = graph(alloc, candidate)?;
        let lanes = threads(alloc, candidate)?;
        let closure = Closure::of(alloc, steps, lanes, log.threads().len())?;
        Ok(HappensBefore { candidate, closure })
    }

    /// The candidate, whose order agrees with happens-before.
    pub fn candidate(&self) -> &'c Candidate<'i>
        ensures value { result.now ≡ self.now }
        ensures agrees { KeepsOrder (execution self.now) }
    {
        self.candidate
    }

    /// Whether the event at one place of the order happens before the event at another, without a look-up.
    pub fn before_at(&self, from: usize, to: usize) -> bool
        ensures { DecidesBefore self.now from to result }
    {
        let candidate = self.candidate;
        let _log = candidate.log();
        self.closure.reaches(from, to)
    }

    /// Whether there is a chain from one event to the other.
    fn is_before(&self, from: EventKey, to: EventKey) -> bool
        ensures { IsTrue result ↔ IsBefore (execution self.now) (At from) (At to) }
    {
        let candidate = self.candidate;
        let _log = candidate.log();
        let Some(start) = place_of(candidate, from) else {
            return false;
        };
        let Some(end) = place_of(candidate, to) else {
            return false;
        };
        self.closure.reaches(start, end)
    }

    /// Whether one event happens before another: whether a finite chain of edges leads from one to the other. An edge
    /// leads from Init to each event, from an event to a later one of its thread, or from an atomic write to an atomic
    /// read of equal range that reads a byte from it. False if there is no such event.
    pub fn before(&self, from: EventId, to: EventId) -> bool
        ensures { IsTrue result ↔ IsBefore (execution self.now) from to }
    {
        let EventId::At(end) = to else {
            return false;
        };
        match from {
            EventId::Init => {
                let candidate = self.candidate;
                let _log = candidate.log();
                match place_of(candidate, end) {
                    Some(_) => true,
                    None => false,
                }
            }
            EventId::At(start) => self.is_before(start, end),
        }
    }

    /// The closure of the steps, without the candidate: [`HappensBefore::over`] takes it back.
    pub fn into_closure(self) -> Closure
        ensures { IsHappensBefore self.entry result }
    {
        let HappensBefore {
            candidate: _candidate,
            closure,
        } = self;
        closure
    }

    /// Happens-before of a candidate by the closure of its steps, which [`HappensBefore::into_closure`] gave.
    pub fn over(candidate: &'c Candidate<'i>, closure: Closure) -> Self
        requires { IsHappensBefore candidate.now closure }
        ensures { result ≡ candidate.now }
    {
        HappensBefore { candidate, closure }
    }

    /// How many of these events `id` doesn't happen before. Each of them happens before the next ones, so `id` happens
    /// before all those after the counted ones.
    pub fn count_not_after(&self, id: EventId, events: &[EventId]) -> usize
        requires { AreInSequence (execution self.now) events.now }
        ensures bound { result ≤ length events.now }
        ensures turn { HoldsFrom (IsBefore (execution self.now) id) events.now result }
    {
        let row = AfterRow {
            relation: self,
            id,
            events,
        };
        turn_of(&row, events.len())
    }
}

/// Events in sequence, of which an event happens before the late ones.
#[derive(Clone, Copy)]
struct AfterRow<'r, 'c, 'i> {
    relation: &'r HappensBefore<'c, 'i>,
    id: EventId,
    events: &'r [EventId],
}

impl Turning for AfterRow<'_, '_, '_> {
    ghost use Rattle.wm_hb.specs.Sequence.{HasInRow, NoneInRow};

    ghost ready = { λ row i. i < length row.events.now };

    ghost early = { λ row i. NoneInRow (IsBefore (execution row.relation.now) row.id) row.events.now i };

    ghost late = { λ row i. HasInRow (IsBefore (execution row.relation.now) row.id) row.events.now i };

    fn is_late(&self, index: usize) -> bool {
        self.relation.before(self.id, self.events[index])
    }
}
