//! The replay of a log.
ghost use Rattle.std.specs.Prelude.{IfOk};
ghost use Rattle.wm_replay.specs.Comparison.{ComparesThread, IsDifference, Replays, ReplaysThread};
ghost use Rattle.wm_replay.specs.Following.{HasPlaces, RunsAsStated};
ghost use Rattle.wm_replay.specs.Positions.{HasLogPositions};

use crate::answer::{Place, ReplayAnswer};
use crate::by_log::{Followed, end_of, follow};
use crate::parallel::{is_long, replay_in_parallel};
use std::alloc::{AllocError, Global};
use std::thread::Threads;
use wm_event::{Log, ThreadLog};
use wm_list::List;
use wm_machine::{CodePosition, Need};
use wm_valid::ValidModule;

/// How a thread compares with its log, and where it makes its events.
#[derive(Drop)]
pub(crate) struct ThreadReplay {
    /// Why the log of the thread isn't its run; None if it is.
    pub difference: Option<ReplayAnswer>,
    /// The positions at which the thread makes the events of its log, for as many as it makes.
    pub positions: List<CodePosition>,
}

/// How a log compares with the runs of its threads, and where they make its events.
#[derive(Drop)]
pub struct Replayed {
    pub answer: ReplayAnswer,
    /// For each thread up to the first that differs, the positions at which it makes the events of its log, for as many
    /// as it makes.
    pub positions: Vec<List<CodePosition>>,
}

/// Where a thread that was run by its log, for at most its stated steps, differs from the log; None if it doesn't.
fn differing_place(followed: &Followed, stated: &ThreadLog, number: usize) -> Option<Place>
    requires places { HasPlaces number stated.now.events }
    requires runs { RunsAsStated number stated.now followed.now }
    ensures { IsDifference followed.now.thread.module number stated.now result }
{
    if followed.events < stated.events.len() {
        return Some(Place::Event(followed.events));
    }
    if followed.steps < stated.steps {
        return match followed.thread.next() {
            Need::Access(_) => Some(Place::Event(followed.events)),
            Need::Local | Need::Ended(_) => Some(Place::End),
        };
    }
    if end_of(&followed.thread) != stated.end {
        return Some(Place::End);
    }
    None
}

/// Why the log of a thread that was run by it, for at most its stated steps, isn't its run; None if it is.
fn difference_of(followed: &Followed, stated: &ThreadLog, number: usize) -> Option<ReplayAnswer>
    requires places { HasPlaces number stated.now.events }
    requires runs { RunsAsStated number stated.now followed.now }
    ensures { ComparesThread followed.now.thread.module number stated.now result }
{
    match differing_place(followed, stated, number) {
        None => None,
        Some(place) => Some(ReplayAnswer::Differs(number, place)),
    }
}

/// How a thread compares with its log, and where it makes its events.
pub(crate) fn replay_thread(
    alloc: Global,
    module: &ValidModule,
    stated: &ThreadLog,
    number: usize,
) -> Result<ThreadReplay, AllocError>
    requires { HasPlaces number stated.now.events }
    ensures { IfOk result (ReplaysThread «module».now number stated.now) }
{
    match follow(alloc, module, stated, number, stated.steps)? {
        Err(fault) => Ok(ThreadReplay {
            difference: Some(ReplayAnswer::StartRefused(number, fault)),
            positions: List::new(alloc),
        }),
        Ok(followed) => {
            let difference = difference_of(&followed, stated, number);
            let Followed {
                thread,
                positions,
                ..
            } = followed;
            drop(thread);
            Ok(ThreadReplay {
                difference,
                positions,
            })
        }
    }
}

/// Compares a log with the runs of its threads, one after the other.
fn replay_in_order(alloc: Global, module: &ValidModule, log: &Log) -> Result<Replayed, AllocError>
    ensures answer { IfOk result (λ replay. Replays «module».now log.now replay.answer) }
    ensures positions { IfOk result (λ replay. HasLogPositions «module».now log.now replay.answer replay.positions.items) }
{
    let mut positions = Vec::new(alloc);
    for (number, stated) in log.threads().iter().enumerate() {
        let replayed = replay_thread(alloc, module, stated, number)?;
        positions.push(replayed.positions)?;
        if let Some(answer) = replayed.difference {
            return Ok(Replayed { answer, positions });
        }
    }
    Ok(Replayed {
        answer: ReplayAnswer::Same,
        positions,
    })
}

/// Compares a log with the runs of its threads, as [`replay`] does, and keeps the positions in the code at which they
/// make its events.
///
/// # Errors
///
/// Only if an allocation fails.
pub fn replay_with_positions<R: AllocGlobal + Threads + Sync>(
    rt: &R,
    module: &ValidModule,
    log: &Log,
) -> Result<Replayed, AllocError>
    ensures answer { IfOk result (λ replay. Replays «module».now log.now replay.answer) }
    ensures positions { IfOk result (λ replay. HasLogPositions «module».now log.now replay.answer replay.positions.items) }
{
    if is_long(log.threads()) {
        replay_in_parallel(rt, module, log)
    } else {
        replay_in_order(rt.alloc(), module, log)
    }
}

/// Compares a log with the runs of its threads: each thread is started as its log states, and run for its stated steps
/// on the values that its events read. Long threads are run at the same time, with the same answer.
///
/// # Errors
///
/// Only if an allocation fails.
pub fn replay<R: AllocGlobal + Threads + Sync>(
    rt: &R,
    module: &ValidModule,
    log: &Log,
) -> Result<ReplayAnswer, AllocError>
    ensures { IfOk result (Replays «module».now log.now) }
{
    let replayed = replay_with_positions(rt, module, log)?;
    Ok(replayed.answer)
}
