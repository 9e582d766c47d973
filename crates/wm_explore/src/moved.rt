//! The thread that made the last event of a state.
ghost use Rattle.std.specs.Prelude.{◌≡◌, Some, true, IfOk, IfSome, OnOk};
ghost use Rattle.wm_event.specs.Limits.{max_steps};
ghost use Rattle.wm_explore.specs.Cache.{Recalls, RecallsOf};
ghost use Rattle.wm_explore.specs.Executions.{starts_of};
ghost use Rattle.wm_explore.specs.Moved.{IsMoved, IsMovedBy};
ghost use Rattle.wm_replay.specs.Complete.{RunsWithinLimit};
ghost use Rattle.wm_replay.specs.Following.{HasPlaces};
ghost use Rattle.wm_replay.specs.Positions.{IsFollowed};

use crate::cache::Cache;
use crate::idle::has_idle_reads;
use crate::state::State;
use std::alloc::{AllocError, Global};
use wm_event::{MAX_STEPS, ThreadLog};
use wm_replay::{Followed, Next, follow, follow_on, next_of};
use wm_valid::ValidModule;

/// What a thread does that has made the events of its log.
#[derive(Clone, Copy)]
pub(crate) struct Moved {
    /// Its number in the log.
    pub number: usize,
    /// What it does next.
    pub next: Next,
    /// Whether some of its events are an idle turn.
    pub is_idle: bool,
}

/// A thread that was run by its log: on from where it was before its last event, if that was kept, and from its start
/// otherwise. None if it doesn't start.
fn followed_by<'m>(
    alloc: Global,
    module: &'m ValidModule,
    stated: &ThreadLog,
    number: usize,
    cache: &Cache<'m>,
) -> Result<Option<Followed<'m>>, AllocError>
    requires places { HasPlaces number stated.now.events }
    requires recalls { RecallsOf «module».now number stated.now.start cache.now }
    ensures { IfOk result (λ found. IfSome found (IsFollowed «module».now number stated.now max_steps)) }
{
    if let Some(before) = cache.before(alloc, number, stated)? {
        let followed = follow_on(before, stated, number, MAX_STEPS)?;
        return Ok(Some(followed));
    }
    match follow(alloc, module, stated, number, MAX_STEPS)? {
        Err(_) => Ok(None),
        Ok(followed) => Ok(Some(followed)),
    }
}

/// What a thread does that has made the events of its log, by which it was run.
fn moved_by(
    alloc: Global,
    module: &ValidModule,
    stated: &ThreadLog,
    number: usize,
    followed: &Followed,
) -> Result<Moved, AllocError>
    requires places { HasPlaces number stated.now.events }
    requires runs { RunsWithinLimit number stated.now followed.now }
    requires same { followed.now.thread.module ≡ «module».now }
    ensures { IfOk result (IsMovedBy «module».now number stated.now) }
{
    let is_idle = has_idle_reads(alloc, module, stated, number, followed)?;
    Ok(Moved {
        number,
        next: next_of(followed, stated, number),
        is_idle,
    })
}

/// What the thread does that made the event that arrived last, if that isn't known yet.
pub(crate) fn last_moved<'m>(
    alloc: Global,
    module: &'m ValidModule,
    state: &State,
    cache: &mut Cache<'m>,
) -> Result<Option<Moved>, AllocError>
    requires recalls { Recalls «module».now (starts_of state.now.log) cache.old }
    ensures moved { IfOk result (λ found. IfSome found (IsMoved «module».now state.now)) }
    ensures recalls { OnOk result (Recalls «module».now (starts_of state.now.log) cache.new) }
{
    let Some(last) = state.arrived.as_slice().last() else {
        return Ok(None);
    };
    let number = last.thread as usize;
    // A state that waits has the events of one that was looked at before.
    if state.known(number).is_some() {
        return Ok(None);
    }
    let Some(stated) = state.log.threads().get(number) else {
        return Ok(None);
    };
    if let Some(moved) = cache.find(number, stated) {
        return Ok(Some(moved));
    }
    match followed_by(alloc, module, stated, number, cache)? {
        None => Ok(None),
        Some(followed) => {
            let moved = moved_by(alloc, module, stated, number, &followed)?;
            cache.keep(alloc, stated, &moved, followed)?;
            Ok(Some(moved))
        }
    }
}

/// Whether some events of a thread that moved are an idle turn.
pub(crate) fn is_idle(moved: &Option<Moved>) -> bool
    ensures { result ≡ true → (it : Moved) × (moved.now ≡ Some it) × (it.is_idle ≡ true) }
{
    match moved {
        None => false,
        Some(moved) => moved.is_idle,
    }
}
