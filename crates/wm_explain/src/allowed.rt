//! What an allowed run rests on.

use crate::row::EventTables;
use std::alloc::AllocError;
use wm_event::{EventId, ThreadLog};
use wm_phrase::{AndEndPhrase, Count, JsonText};

/// Adds how a thread starts and ends.
fn add_thread(text: &mut String, number: usize, thread: &ThreadLog) -> Result<(), AllocError> {
    let name = JsonText(thread.start.name.as_str());
    let args = Count(thread.start.args.len() as u64, "argument");
    let steps = Count(u64::from(thread.steps), "step");
    let events = Count(thread.events.len() as u64, "event");
    let end = AndEndPhrase(thread.end);
    writeln!(
        text,
        "  thread {number} runs {name} on {args}: {steps}, {events}, {end}"
    )
}

/// Adds how each thread starts and ends.
fn add_threads(text: &mut String, threads: &[ThreadLog]) -> Result<(), AllocError> {
    text.push_str("The threads:\n")?;
    if threads.is_empty() {
        text.push_str("  none\n")?;
    }
    for (number, thread) in threads.iter().enumerate() {
        add_thread(text, number, thread)?;
    }
    Ok(())
}

/// Adds the events in their order.
fn add_events(text: &mut String, tables: &mut EventTables) -> Result<(), AllocError> {
    text.push_str("The events in their order, with who wrote what was read:\n")?;
    let mut ids = Vec::new(tables.alloc);
    for key in tables.candidate.witness().order.as_slice() {
        ids.push(EventId::At(*key))?;
    }
    tables.add(text, ids.as_slice())
}

/// What an allowed run rests on: its threads, and its events in their order with the writers of what was read.
///
/// # Errors
///
/// Only if an allocation fails.
pub(crate) fn allowed_reason(tables: &mut EventTables) -> Result<String, AllocError> {
    let mut text = String::from_str(
        tables.alloc,
        "Each thread's events and end are those of its run on the values that it read. The memory rules allow the events with these writers in this order.\n",
    )?;
    add_threads(&mut text, tables.candidate.log().threads())?;
    add_events(&mut text, tables)?;
    Ok(text)
}

/// The explanation of events that the memory rules allow if no module is given: that they do, and the events in their
/// order with the writers of what was read.
///
/// # Errors
///
/// Only if an allocation fails.
pub(crate) fn permitted_reason(tables: &mut EventTables) -> Result<String, AllocError> {
    let mut text = String::from_str(
        tables.alloc,
        "The memory rules allow the events with these writers in this order. No module was given, so the threads' runs were not checked: `explain MODULE DOC` checks them.\n",
    )?;
    add_events(&mut text, tables)?;
    Ok(text)
}
