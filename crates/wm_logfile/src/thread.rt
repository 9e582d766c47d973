//! The readers of a thread's log.
ghost use Rattle.std.specs.Prelude.{◌≡◌, map};
ghost use Rattle.serde_json.specs.Find.{as_str};
ghost use Rattle.serde_json.specs.View.{view};
ghost use Rattle.wm_logfile.specs.Faults.{Gives, Faults};
ghost use Rattle.wm_logfile.specs.FirstFault as first_faults;
ghost use Rattle.wm_logfile.specs.Forms as forms;
ghost use Rattle.wm_logfile.specs.Grammar as grammar;
ghost use Rattle.wm_logfile.specs.Reading.{trap_at, result_from, end_from, end_at, start_at, head_from, head_at, with_events, thread_at, thread_by_at, limited_thread_at, limited_thread_by_at};

use crate::event::{EventByReader, EventReader};
use crate::fault::ReadFault;
use crate::fields::{list_of, number_of};
use crate::items::{ItemReader, NumberReader, items_of, unzipped};
use crate::path::Path;
use crate::words::trap_of_word;
use serde_json::Value;
use std::alloc::Global;
use wm_event::{End, Event, EventId, MAX_STEPS, Start, ThreadLog, TrapKind};
use wm_list::{List, Text};

/// A name.
fn name_of(alloc: Global, value: &Value, path: &Path) -> Result<Text, ReadFault>
    ensures given { Gives (λ s. s) result (as_str (view value.now)) }
    ensures fault { Faults result (forms.first_fault forms.text path.now (view value.now)) }
{
    match value.as_str() {
        Some(text) => Ok(Text::from_string(String::from_str(alloc, text)?)),
        None => Err(ReadFault::Shape(path.copied())),
    }
}

/// Why a thread trapped, by its word.
#[tactic(auto, unfolding(crate::specs::Grammar::trap))]
fn trap_of(value: &Value, path: &Path) -> Result<TrapKind, ReadFault>
    ensures given { Gives (λ k. k) result (trap_at (view value.now)) }
    ensures fault { Faults result (forms.first_fault grammar.trap path.now (view value.now)) }
{
    let Some(word) = value.as_str() else {
        return Err(ReadFault::Shape(path.copied()));
    };
    match trap_of_word(word) {
        Some(kind) => Ok(kind),
        None => Err(ReadFault::Shape(path.copied())),
    }
}

/// The result of a function, if it has one.
fn result_of(values: &[Value], path: &Path) -> Result<Option<u64>, ReadFault>
    ensures given { Gives (λ o. o) result (result_from (map view values.now)) }
    ensures fault { Faults result (forms.maybe_fault grammar.result_fields path.now (map view values.now)) }
{
    match values {
        [] => Ok(None),
        [value] => {
            let value = number_of(value, u64::MAX, &path.child(0))?;
            Ok(Some(value))
        }
        _ => Err(ReadFault::Shape(path.copied())),
    }
}

/// The end of a thread, by these fields. A length that no end has is reported before the word.
#[tactic(auto, unfolding(crate::specs::Reading::end_from, crate::specs::Grammar::result))]
fn end_of_fields(fields: &[Value], path: &Path) -> Result<End, ReadFault>
    ensures given { Gives (λ e. e) result (end_from (map view fields.now)) }
    ensures fault { Faults result (forms.tagged_fault grammar.ending_cases path.now (map view fields.now)) }
{
    match fields {
        [word] => match word.as_str() {
            Some("cut") => Ok(End::Cut),
            Some("done" | "trap") => Err(ReadFault::Shape(path.copied())),
            _ => Err(ReadFault::Shape(path.child(0))),
        },
        [word, item] => match word.as_str() {
            Some("done") => {
                let path = path.child(1);
                let values = list_of(item, &path)?;
                let value = result_of(values, &path)?;
                Ok(End::Done(value))
            }
            Some("trap") => {
                let kind = trap_of(item, &path.child(1))?;
                Ok(End::Trap(kind))
            }
            Some("cut") => Err(ReadFault::Shape(path.copied())),
            _ => Err(ReadFault::Shape(path.child(0))),
        },
        _ => Err(ReadFault::Shape(path.copied())),
    }
}

/// The end of a thread.
#[tactic(auto, unfolding(crate::specs::Grammar::ending))]
fn end_of(value: &Value, path: &Path) -> Result<End, ReadFault>
    ensures given { Gives (λ e. e) result (end_at (view value.now)) }
    ensures fault { Faults result (forms.first_fault grammar.ending path.now (view value.now)) }
{
    let fields = list_of(value, path)?;
    end_of_fields(fields, path)
}

/// The start of a thread: its function's name and the arguments.
fn start_of(alloc: Global, name: &Value, args: &Value, path: &Path) -> Result<Start, ReadFault>
    ensures given { Gives (λ s. s) result (start_at (view name.now) (view args.now)) }
    ensures fault { Faults result (first_faults.start_fault path.now (view name.now) (view args.now)) }
{
    let name = name_of(alloc, name, &path.child(0))?;
    let args = items_of(alloc, &NumberReader, args, &path.child(1))?;
    Ok(Start { name, args })
}

/// What comes before the events of a thread.
#[derive(Drop)]
pub(crate) struct ThreadHead {
    pub(crate) start: Start,
    pub(crate) end: End,
    pub(crate) steps: u32,
}

impl ThreadHead {
    /// The log of the thread with these events.
    pub(crate) fn with_events(self, events: List<Event>) -> ThreadLog
        ensures { result ≡ with_events self events }
    {
        let ThreadHead { start, end, steps } = self;
        ThreadLog {
            start,
            end,
            steps,
            events,
        }
    }
}

/// What comes before the events of a thread, and the events, by these fields.
#[tactic(auto, unfolding(crate::specs::Reading::head_from))]
fn head_of_fields<'a>(
    alloc: Global,
    fields: &'a [Value],
    path: &Path,
) -> Result<(ThreadHead, &'a Value), ReadFault>
    ensures given { Gives (λ p. (p.0, view p.1.now)) result (head_from (map view fields.now)) }
    ensures fault { Faults result (first_faults.head_fault path.now (map view fields.now)) }
{
    let [name, args, end, steps, events] = fields else {
        return Err(ReadFault::Shape(path.copied()));
    };
    let start = start_of(alloc, name, args, path)?;
    let end = end_of(end, &path.child(2))?;
    let steps = number_of(steps, MAX_STEPS as u64, &path.child(3))? as u32;
    Ok((ThreadHead { start, end, steps }, events))
}

/// What comes before the events of a thread, and the events.
fn head_of<'a>(
    alloc: Global,
    value: &'a Value,
    path: &Path,
) -> Result<(ThreadHead, &'a Value), ReadFault>
    ensures given { Gives (λ p. (p.0, view p.1.now)) result (head_at (view value.now)) }
    ensures fault { Faults result (forms.in_list (first_faults.head_fault path.now) path.now (view value.now)) }
{
    let fields = list_of(value, path)?;
    head_of_fields(alloc, fields, path)
}

/// The log of a thread.
#[tactic(auto, unfolding(crate::specs::Grammar::thread))]
fn thread_of(alloc: Global, value: &Value, thread: u32, path: &Path) -> Result<ThreadLog, ReadFault>
    ensures given { Gives (λ l. l) result (thread_at thread (view value.now)) }
    ensures fault { Faults result (forms.first_fault grammar.thread path.now (view value.now)) }
{
    let (head, events) = head_of(alloc, value, path)?;
    let events = items_of(alloc, &EventReader { thread }, events, &path.child(4))?;
    Ok(head.with_events(events))
}

/// The log of a thread with the writers of its events.
#[tactic(auto, unfolding(crate::specs::Grammar::thread_by))]
fn thread_by_of(
    alloc: Global,
    value: &Value,
    thread: u32,
    path: &Path,
) -> Result<(ThreadLog, List<List<EventId>>), ReadFault>
    ensures given { Gives (λ p. (p.0, p.1)) result (thread_by_at thread (view value.now)) }
    ensures fault { Faults result (forms.first_fault grammar.thread_by path.now (view value.now)) }
{
    let (head, events) = head_of(alloc, value, path)?;
    let events = items_of(alloc, &EventByReader { thread }, events, &path.child(4))?;
    let (events, writers) = unzipped(alloc, events)?;
    Ok((head.with_events(events), writers))
}

/// Reads the log of a thread.
#[derive(Clone, Copy)]
pub(crate) struct ThreadReader;

impl ItemReader<ThreadLog> for ThreadReader {
    ghost reads = { λ _ n d. limited_thread_at n d };

    ghost faults = { λ _ n path d. forms.numbered_fault (forms.first_fault grammar.thread) n path d };

    fn read(
        &self,
        alloc: Global,
        value: &Value,
        index: usize,
        path: &Path,
    ) -> Result<ThreadLog, ReadFault> {
        if index > u32::MAX as usize {
            return Err(ReadFault::Range(path.copied()));
        }
        thread_of(alloc, value, index as u32, path)
    }
}

/// Reads the log of a thread with the writers of its events.
#[derive(Clone, Copy)]
pub(crate) struct ThreadByReader;

impl ItemReader<(ThreadLog, List<List<EventId>>)> for ThreadByReader {
    ghost reads = { λ _ n d. limited_thread_by_at n d };

    ghost faults = { λ _ n path d. forms.numbered_fault (forms.first_fault grammar.thread_by) n path d };

    fn read(
        &self,
        alloc: Global,
        value: &Value,
        index: usize,
        path: &Path,
    ) -> Result<(ThreadLog, List<List<EventId>>), ReadFault> {
        if index > u32::MAX as usize {
            return Err(ReadFault::Range(path.copied()));
        }
        thread_by_of(alloc, value, index as u32, path)
    }
}
