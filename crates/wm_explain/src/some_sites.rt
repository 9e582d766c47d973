//! The instructions that make some events of a log with a thread that differs from it.
ghost use Rattle.std.specs.Prelude.{◌≡◌, IfOk, take};
ghost use Rattle.wm_replay.specs.Following.{HasPlaces};

use crate::compared::Compared;
use crate::named_site::NamedSites;
use std::alloc::{AllocError, Global};
use wm_event::{EventId, Log, Start, ThreadLog};
use wm_list::{Growing, List, Text};
use wm_machine::CodePosition;
use wm_replay::{Followed, follow};
use wm_sites::ModuleCode;
use wm_valid::ValidModule;

/// A thread of a log, by its number, that was compared with it.
#[derive(Clone, Copy)]
pub(crate) struct ComparedRun<'a> {
    pub number: usize,
    pub compared: &'a Compared,
}

/// How many of a thread's first events have all of these events that are the thread's.
fn count_up_to(ids: &[EventId], number: usize) -> usize {
    let mut count = 0usize;
    for id in ids {
        if let EventId::At(key) = *id {
            if key.thread as usize == number {
                count = count.max((key.number as usize).saturating_add(1));
            }
        }
    }
    count
}

/// A copy of the first items, at most `count`.
fn first_items<T: Copy>(alloc: Global, items: &[T], count: usize) -> Result<List<T>, AllocError>
    ensures { IfOk result (λ first. first ≡ take count items.now) }
{
    let first = &items[..count.min(items.len())];
    let mut copy = Growing::with_capacity(alloc, first.len())?;
    copy.extend_within(first);
    Ok(copy.into_list())
}

/// The log of a thread with only its first events, at most `count`.
fn with_first_events(
    alloc: Global,
    stated: &ThreadLog,
    count: usize,
) -> Result<ThreadLog, AllocError>
    ensures { IfOk result (λ thread. thread.events ≡ take count stated.now.events) }
{
    let name = Text::from_string(String::from_str(alloc, stated.start.name.as_str())?);
    let args = stated.start.args.as_slice();
    Ok(ThreadLog {
        start: Start {
            name,
            args: first_items(alloc, args, args.len())?,
        },
        end: stated.end,
        steps: stated.steps,
        events: first_items(alloc, stated.events.as_slice(), count)?,
    })
}

/// The positions at which a thread makes the first `count` events of its log, for as many as it makes.
fn followed_positions(
    alloc: Global,
    module: &ValidModule,
    stated: &ThreadLog,
    number: usize,
    count: usize,
) -> Result<List<CodePosition>, AllocError>
    requires { HasPlaces number stated.now.events }
{
    let first = with_first_events(alloc, stated, count)?;
    let followed = follow(alloc, module, &first, number, stated.steps);
    drop(first);
    match followed? {
        Ok(
            Followed {
                thread,
                positions,
                ..
            },
        ) => {
            drop(thread);
            Ok(positions)
        }
        Err(_) => Ok(List::new(alloc)),
    }
}

/// The positions at which a thread makes the first `count` events of its log, for as many as it makes. A run that was
/// compared has them, unless it made more steps than the log has.
fn first_positions(
    alloc: Global,
    module: &ValidModule,
    stated: &ThreadLog,
    number: usize,
    count: usize,
    run: Option<ComparedRun>,
) -> Result<List<CodePosition>, AllocError>
    requires { HasPlaces number stated.now.events }
{
    match run {
        _ if count == 0 => Ok(List::new(alloc)),
        Some(run) if run.number == number && run.compared.steps <= stated.steps => {
            first_items(alloc, run.compared.positions.as_slice(), count)
        }
        _ => followed_positions(alloc, module, stated, number, count),
    }
}

/// The instructions that make these events of a log. Each thread is followed up to the last of its events among them;
/// `run` is one that was followed before.
///
/// # Errors
///
/// Only if an allocation fails.
pub(crate) fn sites_of<'a>(
    alloc: Global,
    code: ModuleCode<'a>,
    log: &'a Log,
    ids: &[EventId],
    run: Option<ComparedRun>,
) -> Result<NamedSites<'a>, AllocError> {
    let mut positions = Vec::new(alloc);
    for (number, stated) in log.threads().iter().enumerate() {
        let count = count_up_to(ids, number);
        positions.push(first_positions(alloc, code.module, stated, number, count, run)?)?;
    }
    NamedSites::at(alloc, code, log, positions)
}
