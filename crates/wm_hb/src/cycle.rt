//! Cycles of happens-before, whatever the order of the candidate: events are scheduled, each after those with an edge to it
//! (Kahn's algorithm, with a number for each thread), and a cycle is looked for among those that are left.
ghost use Rattle.std.specs.Prelude.{◌≡◌, IfOk, get_or};
ghost use Rattle.wm_event.specs.LoggedRun.{execution};
ghost use Rattle.wm_hb.specs.Cycle.{AddsBack, FindsCycle, FindsFirstNext, FindsFirstReady, FindsNext, FindsReady, FindsUnscheduled, IsCycle, IsNextEvent, IsSchedule, IsStuck, IsUnscheduled};

use crate::chain::{Link, LinkKind};
use crate::fault_chain::FaultChain;
use crate::writers::synchronizes;
use std::alloc::{AllocError, Global};
use wm_event::{Candidate, EventId, EventKey};
use wm_list::List;

/// How many events of a thread are scheduled.
fn count_of(scheduled: &[usize], thread: usize) -> usize
    ensures { result ≡ get_or scheduled.now thread 0 }
{
    match scheduled.get(thread) {
        Some(count) => *count,
        None => 0,
    }
}

/// The first event of a thread that isn't scheduled.
fn next_event(candidate: &Candidate, scheduled: &[usize], thread: usize) -> Option<EventKey>
    ensures { FindsNext (execution candidate.now) scheduled.now thread result }
{
    let log = candidate.log().threads().get(thread)?;
    let event = log.events.get(count_of(scheduled, thread))?;
    Some(event.key())
}

/// The writer of a byte of a read, if it synchronizes with the read and isn't scheduled.
fn unscheduled(
    candidate: &Candidate,
    scheduled: &[usize],
    writer: EventId,
    reader: EventKey,
) -> Option<EventKey>
    ensures { IsUnscheduled (execution candidate.now) scheduled.now writer reader result }
{
    let EventId::At(key) = writer else {
        return None;
    };
    if (key.number as usize) < count_of(scheduled, key.thread as usize) {
        return None;
    }
    if synchronizes(candidate, key, reader) {
        Some(key)
    } else {
        None
    }
}

/// A write that synchronizes with a read and isn't scheduled.
fn unscheduled_writer(
    candidate: &Candidate,
    scheduled: &[usize],
    reader: EventKey,
) -> Option<EventKey>
    ensures { FindsUnscheduled (execution candidate.now) scheduled.now reader result }
{
    for writer in candidate.writers(reader) {
        let found = unscheduled(candidate, scheduled, *writer, reader);
        if found.is_some() {
            return found;
        }
    }
    None
}

/// The next event of a thread, if it can be scheduled.
fn ready(candidate: &Candidate, scheduled: &[usize], thread: usize) -> Option<EventKey>
    ensures { FindsReady (execution candidate.now) scheduled.now thread result }
{
    let event = next_event(candidate, scheduled, thread)?;
    match unscheduled_writer(candidate, scheduled, event) {
        Some(_) => None,
        None => Some(event),
    }
}

/// An event that can be scheduled: that of the first thread which has one.
fn first_ready(candidate: &Candidate, scheduled: &[usize]) -> Option<EventKey>
    ensures { FindsFirstReady (execution candidate.now) scheduled.now result }
{
    for thread in 0..candidate.log().threads().len() {
        let event = ready(candidate, scheduled, thread);
        if event.is_some() {
            return event;
        }
    }
    None
}

/// Schedules events, each after all those with an edge to it, until no further one can be scheduled: how many of each
/// thread are.
fn schedule(alloc: Global, candidate: &Candidate) -> Result<Vec<usize>, AllocError>
    ensures schedule { IfOk result (λ s. IsSchedule (execution candidate.now) s.items) }
    ensures stuck { IfOk result (λ s. IsStuck (execution candidate.now) s.items) }
{
    let mut scheduled = vec![in alloc; 0usize; candidate.log().threads().len()]?;
    while let Some(event) = first_ready(candidate, scheduled.as_slice()) {
        scheduled[event.thread as usize] = event.number as usize + 1;
    }
    Ok(scheduled)
}

/// Goes back from the next event of a thread to that of another, which happens before it, and adds the links between
/// them, the last one first.
fn go_back(
    candidate: &Candidate,
    scheduled: &[usize],
    backwards: &mut Vec<Link>,
    event: EventKey,
) -> Result<EventKey, AllocError>
    requires stuck { IsStuck (execution candidate.now) scheduled.now }
    requires next { IsNextEvent (execution candidate.now) scheduled.now event }
    ensures next { IfOk result (IsNextEvent (execution candidate.now) scheduled.now) }
    ensures links { IfOk result (λ before. AddsBack (execution candidate.now) backwards.old.items backwards.new.items before event) }
{
    let Some(writer) = unscheduled_writer(candidate, scheduled, event) else {
        unreachable!()
    };
    let Some(before) = next_event(candidate, scheduled, writer.thread as usize) else {
        unreachable!()
    };
    backwards.push(Link {
        kind: LinkKind::Synchronizes,
        event,
    })?;
    if before != writer {
        backwards.push(Link {
            kind: LinkKind::Sequenced,
            event: writer,
        })?;
    }
    Ok(before)
}

/// A cycle, found by going back from an event that can't be scheduled until a thread is entered again.
fn cycle_before(
    alloc: Global,
    candidate: &Candidate,
    scheduled: &[usize],
    first: EventKey,
) -> Result<FaultChain, AllocError>
    requires stuck { IsStuck (execution candidate.now) scheduled.now }
    requires next { IsNextEvent (execution candidate.now) scheduled.now first }
    ensures { IfOk result (IsCycle (execution candidate.now)) }
{
    let mut backwards = Vec::new(alloc);
    let mut entered = vec![in alloc; None; candidate.log().threads().len()]?;
    let mut event = first;
    while entered[event.thread as usize].is_none() {
        entered[event.thread as usize] = Some(backwards.len());
        event = go_back(candidate, scheduled, &mut backwards, event)?;
    }
    let start = entered[event.thread as usize].unwrap_or(0);
    let count = backwards.len() - start;
    backwards.reverse();
    backwards.truncate(count);
    let id = EventId::At(event);
    Ok(FaultChain {
        from: id,
        to: id,
        links: List::from_vec(backwards),
    })
}

/// The first event that isn't scheduled, by its thread.
fn first_unscheduled(candidate: &Candidate, scheduled: &[usize]) -> Option<EventKey>
    ensures { FindsFirstNext (execution candidate.now) scheduled.now result }
{
    for thread in 0..candidate.log().threads().len() {
        let next = next_event(candidate, scheduled, thread);
        if next.is_some() {
            return next;
        }
    }
    None
}

/// A cycle of happens-before: a chain of its edges from an event back to it; None if there is none. The order of the
/// candidate makes no difference.
///
/// # Errors
///
/// Only if an allocation fails.
pub fn find_cycle(alloc: Global, candidate: &Candidate) -> Result<Option<FaultChain>, AllocError>
    ensures { IfOk result (FindsCycle (execution candidate.now)) }
{
    let scheduled = schedule(alloc, candidate)?;
    let Some(event) = first_unscheduled(candidate, scheduled.as_slice()) else {
        return Ok(None);
    };
    let chain = cycle_before(alloc, candidate, scheduled.as_slice(), event)?;
    Ok(Some(chain))
}
