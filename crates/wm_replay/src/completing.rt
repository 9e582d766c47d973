//! Logs with the steps and the ends of their runs.
ghost use Rattle.std.specs.Prelude.{◌≡◌, IfOk};
ghost use Rattle.wm_replay.specs.Complete.{CompletesLog, CompletesThread, FindsLongestRun, HasCompletion, RunsWithinLimit, ending};
ghost use Rattle.wm_replay.specs.Following.{HasPlaces};

use crate::answer::{Place, ReplayAnswer};
use crate::by_log::{Followed, end_of, follow};
use std::alloc::{AllocError, Global};
use wm_event::{End, Log, MAX_STEPS, Start, ThreadLog};
use wm_list::{Growing, List, Text};
use wm_valid::ValidModule;

/// The longest run of a thread that makes the events of its log and no others.
#[derive(Clone, Copy)]
pub(crate) struct LongestRun {
    steps: u32,
    end: End,
}

/// A log with the steps and the ends of its runs, or why there is no such log.
#[derive(Drop)]
pub enum Completion {
    /// The log, with each thread's steps and end from its longest run of at most [`MAX_STEPS`] steps.
    Completed(Log),
    /// The first thread whose events no number of steps up to [`MAX_STEPS`] makes, and the answer of a replay of
    /// [`MAX_STEPS`] steps to it, which isn't `Same`.
    NoRun(ReplayAnswer),
}

/// A copy of items.
fn copied<T: Copy>(alloc: Global, items: &[T]) -> Result<List<T>, AllocError>
    ensures { IfOk result (λ list. list ≡ items.now) }
{
    let mut copy = Growing::with_capacity(alloc, items.len())?;
    copy.extend_within(items);
    Ok(copy.into_list())
}

/// The log of a thread with the steps and the end of a run.
fn with_end(alloc: Global, stated: &ThreadLog, run: LongestRun) -> Result<ThreadLog, AllocError>
    ensures { IfOk result (λ thread. thread ≡ ending stated.now run.steps run.end) }
{
    let name = Text::from_string(String::from_str(alloc, stated.start.name.as_str())?);
    let args = copied(alloc, stated.start.args.as_slice())?;
    let events = copied(alloc, stated.events.as_slice())?;
    Ok(ThreadLog {
        start: Start { name, args },
        end: run.end,
        steps: run.steps,
        events,
    })
}

/// The steps and the end of a thread that was run by its log for at most [`MAX_STEPS`] steps, or why no run makes the
/// events of its log.
fn run_of(
    followed: &Followed,
    stated: &ThreadLog,
    number: usize,
) -> Result<LongestRun, ReplayAnswer>
    requires places { HasPlaces number stated.now.events }
    requires runs { RunsWithinLimit number stated.now followed.now }
    ensures { FindsLongestRun followed.now.thread.module number stated.now result }
{
    if followed.events < stated.events.len() {
        let place = Place::Event(followed.events);
        return Err(ReplayAnswer::Differs(number, place));
    }
    Ok(LongestRun {
        steps: followed.steps,
        end: end_of(&followed.thread),
    })
}

/// The longest run of a thread that makes the events of its log, or why no run does.
fn longest_run(
    alloc: Global,
    module: &ValidModule,
    stated: &ThreadLog,
    number: usize,
) -> Result<Result<LongestRun, ReplayAnswer>, AllocError>
    requires { HasPlaces number stated.now.events }
    ensures { IfOk result (FindsLongestRun «module».now number stated.now) }
{
    match follow(alloc, module, stated, number, MAX_STEPS)? {
        Err(fault) => Ok(Err(ReplayAnswer::StartRefused(number, fault))),
        Ok(followed) => {
            let run = run_of(&followed, stated, number);
            drop(followed);
            Ok(run)
        }
    }
}

/// The log of a thread with the steps and the end of its longest run, or why it has no run.
fn complete_thread(
    alloc: Global,
    module: &ValidModule,
    stated: &ThreadLog,
    number: usize,
) -> Result<Result<ThreadLog, ReplayAnswer>, AllocError>
    requires { HasPlaces number stated.now.events }
    ensures { IfOk result (CompletesThread «module».now number stated.now) }
{
    match longest_run(alloc, module, stated, number) {
        Err(refused) => Err(refused),
        Ok(Err(answer)) => Ok(Err(answer)),
        Ok(Ok(run)) => Ok(Ok(with_end(alloc, stated, run)?)),
    }
}

/// Completes a log: each thread gets the steps and the end of its longest run that makes exactly its events, on the
/// values that they read, of at most [`MAX_STEPS`] steps. It runs until its events are used up and it has ended, or
/// until it comes to an access that the log doesn't have; there it is cut. The steps and the ends in the log are
/// ignored; starts and events stay as they are.
///
/// # Errors
///
/// Only if an allocation fails.
pub fn complete(alloc: Global, module: &ValidModule, log: &Log) -> Result<Completion, AllocError>
    ensures { IfOk result (CompletesLog «module».now log.now) }
{
    let mut completed = List::new(alloc);
    for (number, stated) in log.threads().iter().enumerate() {
        match complete_thread(alloc, module, stated, number) {
            Err(refused) => return Err(refused),
            Ok(Err(answer)) => return Ok(Completion::NoRun(answer)),
            Ok(Ok(thread)) => completed.push(thread)?,
        }
    }
    Ok(Completion::Completed(Log::new(completed)))
}

/// Why [`complete`] has no completed log for a log, without making one: its `NoRun`, or None if it completes the log.
///
/// # Errors
///
/// Only if an allocation fails.
pub fn without_run(
    alloc: Global,
    module: &ValidModule,
    log: &Log,
) -> Result<Option<ReplayAnswer>, AllocError>
    ensures { IfOk result (HasCompletion «module».now log.now) }
{
    for (number, stated) in log.threads().iter().enumerate() {
        match longest_run(alloc, module, stated, number) {
            Err(refused) => return Err(refused),
            Ok(Err(answer)) => return Ok(Some(answer)),
            Ok(Ok(_)) => {}
        }
    }
    Ok(None)
}
