//! How far an execution has come.
ghost use Rattle.std.specs.Prelude.{◌≡◌, ℕ, None, Some, IfOk, length, slice_get};
ghost use Rattle.wm_ast.specs.declared.module.Module.{Module};
ghost use Rattle.wm_event.specs.Log.{IsLog};
ghost use Rattle.wm_explore.specs.Known.{KnowsBut, KnowsNexts, KnowsOnly};
ghost use Rattle.wm_explore.specs.Standing.{AreKnownBy};
ghost use Rattle.wm_explore.specs.States.{IsAlike, IsChild, IsMarked, extended};
ghost use Rattle.wm_explore.specs.Turns.{AreNexts};
ghost use Rattle.wm_replay.specs.declared.continuing.Next.{Next};

use crate::copies::{with_arrival, with_event};
use crate::hint::Hint;
use crate::interleaving::interleaved;
use crate::past::Past;
use crate::standing::{overwriting, raise_all, with_reads};
use std::alloc::{AllocError, Global};
use wm_event::{Event, EventKey, Initial, Log};
use wm_list::List;
use wm_replay::Next;

/// The first events of each thread of an execution, and what is known of those that follow.
#[derive(Drop)]
pub(crate) struct State {
    /// The threads with their first events. Ends and steps mean nothing.
    pub log: Log,
    /// The events in the order in which they were added.
    pub arrived: List<EventKey>,
    /// For each thread: if it is marked with a number, some byte of its next event is from an event that isn't among that
    /// many that arrived first.
    pub marks: List<Option<usize>>,
    /// For each event, in the order in which they were added, what surely holds of it.
    pub pasts: List<Past>,
    /// For each thread what it does next, where that is known.
    pub known: List<Option<Next>>,
    /// An execution of the events that the memory rules are likely to permit. Nothing rests on it.
    pub hint: Option<Hint>,
}

/// Marks with another one at a thread.
fn with_mark(
    alloc: Global,
    marks: &[Option<usize>],
    thread: usize,
    mark: Option<usize>,
) -> Result<List<Option<usize>>, AllocError>
    ensures { IfOk result (IsMarked thread mark marks.now) }
{
    let mut copy = List::new(alloc);
    for (number, old) in marks.iter().enumerate() {
        copy.push(if number == thread { mark } else { *old })?;
    }
    Ok(copy)
}

/// A thread is no longer marked.
fn unmark(marks: &mut List<Option<usize>>, thread: usize)
    ensures { IsMarked thread None marks.old marks.new }
{
    if thread < marks.len() {
        marks.set(thread, None);
    }
}

/// What the threads do next, which isn't known of this one.
fn known_but(alloc: Global, nexts: &[Next], moved: usize) -> Result<List<Option<Next>>, AllocError>
    ensures { IfOk result (KnowsBut moved nexts.now) }
{
    let mut known = List::new(alloc);
    for (number, next) in nexts.iter().enumerate() {
        known.push(if number == moved { None } else { Some(*next) })?;
    }
    Ok(known)
}

/// What all threads do next.
fn all_known(alloc: Global, nexts: &[Next]) -> Result<List<Option<Next>>, AllocError>
    ensures { IfOk result (KnowsOnly nexts.now) }
{
    let mut known = List::new(alloc);
    for next in nexts {
        known.push(Some(*next))?;
    }
    Ok(known)
}

/// A hint for a log whose events arrived in this order, where there may be one without the last of them.
fn hint_with(
    alloc: Global,
    initial: &Initial,
    hint: &Option<Hint>,
    event: Event,
    log: &Log,
    arrived: &[EventKey],
) -> Result<Option<Hint>, AllocError> {
    if let Some(hint) = hint
        && let Some(longer) = hint.with(alloc, initial, event)?
    {
        return Ok(Some(longer));
    }
    interleaved(alloc, initial, log, arrived)
}

/// A hint as [`hint_with`] finds it, which may take the place of the one that is there.
fn hint_into(
    alloc: Global,
    initial: &Initial,
    hint: Option<Hint>,
    event: Event,
    log: &Log,
    arrived: &[EventKey],
) -> Result<Option<Hint>, AllocError> {
    if let Some(hint) = hint
        && let Some(longer) = hint.into_with(alloc, initial, event)?
    {
        return Ok(Some(longer));
    }
    interleaved(alloc, initial, log, arrived)
}

impl State {
    /// The state in which this thread has one more event, where the threads did this next and so much surely holds then.
    pub(crate) fn with(
        &self,
        alloc: Global,
        initial: &Initial,
        nexts: &[Next],
        thread: usize,
        event: Event,
        pasts: List<Past>,
    ) -> Result<State, AllocError>
        requires { IsLog (extended thread event self.now.log) }
        ensures child { IfOk result (IsChild thread event self.now) }
        ensures pasts { IfOk result (λ s. s.pasts ≡ pasts) }
        ensures known { IfOk result (λ s. (m : Module) → AreNexts m self.now.log nexts.now → KnowsNexts m s) }
    {
        let log = with_event(alloc, &self.log, thread, event)?;
        let arrived = with_arrival(alloc, self.arrived.as_slice(), event.key())?;
        let marks = with_mark(alloc, self.marks.as_slice(), thread, None)?;
        let known = known_but(alloc, nexts, thread)?;
        let hint = hint_with(alloc, initial, &self.hint, event, &log, arrived.as_slice())?;
        Ok(State {
            log,
            arrived,
            marks,
            pasts,
            known,
            hint,
        })
    }

    /// The same as [`State::with`] of an event of which so much surely holds; the state gives way to it.
    pub(crate) fn into_child(
        self,
        alloc: Global,
        initial: &Initial,
        nexts: &[Next],
        thread: usize,
        event: Event,
        past: Past,
    ) -> Result<State, AllocError>
        requires { IsLog (extended thread event self.log) }
        ensures child { IfOk result (IsChild thread event self) }
        ensures pasts { IfOk result (λ s. AreKnownBy self event past s.pasts) }
        ensures known { IfOk result (λ s. (m : Module) → AreNexts m self.log nexts.now → KnowsNexts m s) }
    {
        let past = Past {
            order: with_reads(&self, &event, past.order),
            ..past
        };
        let keys = overwriting(alloc, &self, &event, past.source)?;
        let State {
            log,
            mut arrived,
            mut marks,
            mut pasts,
            known: _known,
            hint,
        } = self;
        let log = with_event(alloc, &log, thread, event)?;
        arrived.push(event.key())?;
        unmark(&mut marks, thread);
        raise_all(&mut pasts, keys.as_slice(), &past.order);
        pasts.push(past)?;
        let known = known_but(alloc, nexts, thread)?;
        let hint = hint_into(alloc, initial, hint, event, &log, arrived.as_slice())?;
        Ok(State {
            log,
            arrived,
            marks,
            pasts,
            known,
            hint,
        })
    }

    /// The same state with another hint.
    pub(crate) fn hinted(self, hint: Hint) -> State
        ensures { IsAlike self result }
    {
        let State {
            log,
            arrived,
            marks,
            pasts,
            known,
            hint: _hint,
        } = self;
        State {
            log,
            arrived,
            marks,
            pasts,
            known,
            hint: Some(hint),
        }
    }

    /// The same state, where some byte of the thread's next event is from an event that hasn't arrived, and the threads do
    /// this next.
    pub(crate) fn marked(
        self,
        alloc: Global,
        nexts: &[Next],
        thread: usize,
    ) -> Result<State, AllocError>
        ensures log { IfOk result (λ s. s.log ≡ self.log) }
        ensures arrived { IfOk result (λ s. s.arrived ≡ self.arrived) }
        ensures pasts { IfOk result (λ s. s.pasts ≡ self.pasts) }
        ensures marks { IfOk result (λ s. IsMarked thread (Some (length self.arrived)) self.marks s.marks) }
        ensures known { IfOk result (λ s. (m : Module) → AreNexts m self.log nexts.now → KnowsNexts m s) }
    {
        let count = self.arrived.len();
        let with_count = with_mark(alloc, self.marks.as_slice(), thread, Some(count))?;
        let all = all_known(alloc, nexts)?;
        let State {
            log,
            arrived,
            marks: _marks,
            pasts,
            known: _known,
            hint,
        } = self;
        Ok(State {
            log,
            arrived,
            marks: with_count,
            pasts,
            known: all,
            hint,
        })
    }

    /// The number with which a thread is marked.
    pub(crate) fn mark(&self, thread: usize) -> Option<usize>
        ensures { (n : ℕ) → result ≡ Some n → slice_get self.now.marks thread ≡ Some (Some n) }
    {
        *self.marks.get(thread)?
    }

    /// What a thread does next, if that is known.
    pub(crate) fn known(&self, thread: usize) -> Option<Next>
        ensures { (next : Next) → result ≡ Some next → slice_get self.now.known thread ≡ Some (Some next) }
    {
        *self.known.get(thread)?
    }
}
