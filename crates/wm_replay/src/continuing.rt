//! What a thread does next that has made the events of its log.
ghost use Rattle.std.specs.Prelude.{IfOk};
ghost use Rattle.wm_replay.specs.Complete.{RunsWithinLimit};
ghost use Rattle.wm_replay.specs.Continuing.{ContinuesSo, FindsNext};
ghost use Rattle.wm_replay.specs.Following.{HasPlaces};

use crate::by_log::{Followed, end_of, follow};
use std::alloc::{AllocError, Global};
use wm_event::{End, MAX_STEPS, Op, ThreadLog};
use wm_machine::{Need, StartFault};
use wm_valid::ValidModule;

/// What a thread does after the events of its log.
#[derive(Clone, Copy)]
pub enum Next {
    /// It makes no further access and ends so, within [`MAX_STEPS`] steps.
    Ends(End),
    /// It makes this access.
    Access(Op),
    /// None of the above within [`MAX_STEPS`] steps; or it doesn't make the events of the log.
    Unknown,
}

/// What a thread does next that was run by its log, by [`follow`](crate::follow) for at most [`MAX_STEPS`] steps. `number`
/// is the thread's number in the log.
pub fn next_of(followed: &Followed, stated: &ThreadLog, number: usize) -> Next
    requires places { HasPlaces number stated.now.events }
    requires runs { RunsWithinLimit number stated.now followed.now }
    ensures { ContinuesSo followed.now.thread.module number stated.now result }
{
    let end = end_of(&followed.thread);
    match end {
        End::Done(_) | End::Trap(_) => return Next::Ends(end),
        End::Cut => {}
    }
    if followed.events < stated.events.len() {
        return Next::Unknown;
    }
    match followed.thread.next() {
        Need::Access(op) => Next::Access(op),
        Need::Local | Need::Ended(_) => Next::Unknown,
    }
}

/// What a thread does next that is started as its log states and has made the log's events, on the values that they
/// read. The steps and the end that the log states are ignored. `number` is the thread's number in the log. If the thread
/// doesn't start, the result is the reason, which is never `OutOfMemory`.
///
/// # Errors
///
/// Only if an allocation fails.
pub fn next_after(
    alloc: Global,
    module: &ValidModule,
    stated: &ThreadLog,
    number: usize,
) -> Result<Result<Next, StartFault>, AllocError>
    requires { HasPlaces number stated.now.events }
    ensures { IfOk result (FindsNext «module».now number stated.now) }
{
    match follow(alloc, module, stated, number, MAX_STEPS)? {
        Err(fault) => Ok(Err(fault)),
        Ok(followed) => {
            let next = next_of(&followed, stated, number);
            drop(followed);
            Ok(Ok(next))
        }
    }
}
