//! Copies of logs.
ghost use Rattle.std.specs.Prelude.{◌≡◌, ◌<◌, ◌≤◌, ◌∷◌, ◌++◌, [], length, IfOk};
ghost use Rattle.wm_event.specs.Log.{IsLog};
ghost use Rattle.wm_explore.specs.Idle.{leaving_out};
ghost use Rattle.wm_explore.specs.States.{extended, with_last};
ghost use Rattle.wm_part.specs.Pick.{with_number};
ghost use Rattle.wm_replay.specs.Following.{HasPlaces};

use crate::idle::Stretch;
use std::alloc::{AllocError, Global};
use wm_event::{Event, EventKey, Log, Start, ThreadLog};
use wm_list::{List, Text};

/// A copy of a start.
pub(crate) fn copied_start(alloc: Global, start: &Start) -> Result<Start, AllocError>
    ensures { IfOk result (λ copy. copy ≡ start.now) }
{
    let name = String::from_str(alloc, start.name.as_str())?;
    let args = start.args.as_slice().to_vec(alloc)?;
    Ok(Start {
        name: Text::from_string(name),
        args: List::from_vec(args),
    })
}

/// A copy of the log of a thread.
fn copied_thread(alloc: Global, thread: &ThreadLog) -> Result<ThreadLog, AllocError>
    ensures { IfOk result (λ copy. copy ≡ thread.now) }
{
    let start = copied_start(alloc, &thread.start)?;
    let events = thread.events.as_slice().to_vec(alloc)?;
    Ok(ThreadLog {
        start,
        end: thread.end,
        steps: thread.steps,
        events: List::from_vec(events),
    })
}

/// An event with another number.
fn renumbered(event: &Event, number: u32) -> Event
    ensures { result ≡ with_number number event.now }
{
    Event { number, ..*event }
}

/// A copy of the log of thread `number` without some of its events; the others keep their order, and are renumbered.
pub(crate) fn without(
    alloc: Global,
    thread: &ThreadLog,
    stretch: Stretch,
    number: usize,
) -> Result<ThreadLog, AllocError>
    requires some { stretch.first < stretch.end }
    requires listed { stretch.end ≤ length thread.now.events }
    requires places { HasPlaces number thread.now.events }
    ensures start { IfOk result (λ copy. copy.start ≡ thread.now.start) }
    ensures events { IfOk result (λ copy. copy.events ≡ leaving_out stretch.first stretch.end thread.now.events) }
{
    let start = copied_start(alloc, &thread.start)?;
    let events = thread.events.as_slice();
    let mut kept = events[..stretch.first].to_vec(alloc)?;
    for place in stretch.end..events.len() {
        // It takes the place of this one.
        let replaced = events[place - (stretch.end - stretch.first)];
        kept.push(renumbered(&events[place], replaced.number))?;
    }
    Ok(ThreadLog {
        start,
        end: thread.end,
        steps: thread.steps,
        events: List::from_vec(kept),
    })
}

/// A copy of the threads of a log.
fn copied_threads(alloc: Global, threads: &[ThreadLog]) -> Result<List<ThreadLog>, AllocError>
    ensures { IfOk result (λ copy. copy ≡ threads.now) }
{
    let mut copy = List::new(alloc);
    for thread in threads {
        copy.push(copied_thread(alloc, thread)?)?;
    }
    Ok(copy)
}

/// A copy of a log.
pub(crate) fn copied_log(alloc: Global, log: &Log) -> Result<Log, AllocError>
    ensures { IfOk result (λ copy. copy ≡ log.now) }
{
    let threads = copied_threads(alloc, log.threads())?;
    Ok(Log::new(threads))
}

/// A copy of the log of a thread with one more event.
fn extended_thread(alloc: Global, thread: &ThreadLog, event: Event) -> Result<ThreadLog, AllocError>
    ensures { IfOk result (λ copy. copy ≡ with_last thread.now event) }
{
    let start = copied_start(alloc, &thread.start)?;
    let mut events = Vec::with_capacity(alloc, thread.events.len().saturating_add(1))?;
    events.extend_from_slice(thread.events.as_slice())?;
    events.push(event)?;
    Ok(ThreadLog {
        start,
        end: thread.end,
        steps: thread.steps,
        events: List::from_vec(events),
    })
}

/// A copy of a log in which a thread has one more event.
pub(crate) fn with_event(
    alloc: Global,
    log: &Log,
    thread: usize,
    event: Event,
) -> Result<Log, AllocError>
    requires { IsLog (extended thread event log.now) }
    ensures { IfOk result (λ copy. copy ≡ extended thread event log.now) }
{
    let mut copy = List::new(alloc);
    for (number, stated) in log.threads().iter().enumerate() {
        if number == thread {
            copy.push(extended_thread(alloc, stated, event)?)?;
            continue;
        }
        copy.push(copied_thread(alloc, stated)?)?;
    }
    Ok(Log::new(copy))
}

/// A copy of the events that have arrived, with one more.
pub(crate) fn with_arrival(
    alloc: Global,
    arrived: &[EventKey],
    key: EventKey,
) -> Result<List<EventKey>, AllocError>
    ensures { IfOk result (λ copy. copy ≡ arrived.now ++ key ∷ []) }
{
    let mut copy = Vec::with_capacity(alloc, arrived.len().saturating_add(1))?;
    copy.extend_from_slice(arrived)?;
    copy.push(key)?;
    Ok(List::from_vec(copy))
}
