//! Scripted runs with the effect of each turn.
ghost use Rattle.std.specs.Prelude.{◌≡◌, ◌<◌, ℕ, Some, length, map, slice_get, IfErr, IfOk, OnOk};
ghost use Rattle.wm_event.specs.Event.{key_of};
ghost use Rattle.wm_machine.specs.declared.thread.Need.TheVariants as Need;
ghost use Rattle.wm_machine.specs.Reach.{HasEnded};
ghost use Rattle.wm_machine.specs.State.{config_of, need_of, position_of};
ghost use Rattle.wm_recorder.specs.Recorder.{steps_of, threads_of};
ghost use Rattle.wm_run.specs.Own.{IsOwnRun, IsWithinPlan};
ghost use Rattle.wm_run.specs.Plan.{AreTurnsOf, IsPlan, thread_of};
ghost use Rattle.wm_run.specs.Refusal.{IsScriptFault};
ghost use Rattle.wm_run.specs.Runner.{IsSet, runner_state, setting_of};
ghost use Rattle.wm_run.specs.Scripted.{IsScripted};
ghost use Rattle.wm_run.specs.Traced.{DrainDoes, IsTraced, StepDoes, pending, store_before};
ghost use Rattle.wm_run.specs.TracedEvents.{TracedAccessesAreLogged, TracedStoresAreLogged};
ghost use Rattle.wm_run.specs.Tracing.{PlaysTraced, TakesTraced, TurnDoes};

use crate::fault::RunFault;
use crate::launch::launch;
use crate::plan::Plan;
use crate::runner::{Runner, take};
use crate::scripts::script::finish;
use crate::scripts::traced::{Rest, Trace, TracedTurn, TurnDone};
use crate::turn::Turn;
use std::alloc::{AllocError, Global};
use wm_event::{Event, EventKey, MAX_EVENTS, Op};
use wm_list::List;
use wm_machine::{CodePosition, Need};
use wm_recorder::Recorder;
use wm_valid::ValidModule;

/// The event of the store at `index` among these, counted from 0 at the oldest, if there is one.
fn key_at(stores: &[Event], index: usize) -> Option<EventKey>
    ensures { result ≡ slice_get (map key_of stores.now) index }
{
    match stores.get(index) {
        Some(store) => Some(store.key()),
        None => None,
    }
}

/// The event of the store at `index` in a thread's buffer, counted from 0 at the oldest, if there is one.
fn pending_key(recorder: &Recorder, thread: u32, index: u32) -> Option<EventKey>
    requires there { thread < threads_of recorder.now }
    ensures { result ≡ slice_get (pending (steps_of recorder.now) thread) index }
{
    recorder.recorded_log_is_valid();
    key_at(recorder.memory().stores(thread), index as usize)
}

/// The oldest store of a thread, if it leaves the full buffer before this access.
fn store_before(recorder: &Recorder, thread: u32, op: Op) -> Option<EventKey>
    requires there { thread < threads_of recorder.now }
    ensures { result ≡ store_before (steps_of recorder.now) thread op }
{
    recorder.recorded_log_is_valid();
    if !recorder.memory().drains_first(thread, op) {
        return None;
    }
    pending_key(recorder, thread, 0)
}

/// What a step of a thread will do if the thread has steps left and needs this access.
fn access_ahead(runner: &Runner, number: u32, recorder: &Recorder, op: Op) -> TurnDone
    requires there { number < threads_of recorder.now }
    requires needed { (read : ℕ) → Need.Access op ≡ need_of read runner.now.thread }
    ensures { (limit : ℕ) → runner.now.made < limit
        → StepDoes (setting_of runner.now.thread.module recorder.now limit) (steps_of recorder.now) number
        (runner_state runner.now) result }
{
    recorder.recorded_log_is_valid();
    if recorder.order().len() >= MAX_EVENTS {
        return TurnDone::Rested(Rest::Full);
    }
    let event = EventKey {
        thread: number,
        number: recorder.memory().accesses(number),
    };
    let drained = store_before(recorder, number, op);
    TurnDone::Accessed { event, drained }
}

/// What a step of a thread that makes at most `limit` steps will do.
fn step_ahead(runner: &Runner, number: u32, recorder: &Recorder, limit: u32) -> TurnDone
    requires there { number < threads_of recorder.now }
    ensures { StepDoes (setting_of runner.now.thread.module recorder.now limit) (steps_of recorder.now) number
        (runner_state runner.now) result }
{
    let may_step = runner.made < limit;
    match runner.thread.next() {
        Need::Ended(_) => TurnDone::Rested(Rest::Ended),
        Need::Access(op) if may_step => access_ahead(runner, number, recorder, op),
        Need::Local if may_step => TurnDone::Stepped,
        Need::Access(_) | Need::Local => TurnDone::Rested(Rest::Spent),
    }
}

/// What a drain of this store, the one at `index`, will do.
fn store_ahead(recorder: &Recorder, thread: u32, index: u32, store: EventKey) -> TurnDone
    requires there { thread < threads_of recorder.now }
    requires listed { slice_get (pending (steps_of recorder.now) thread) index ≡ Some store }
    ensures { DrainDoes (steps_of recorder.now) thread index result }
{
    recorder.recorded_log_is_valid();
    if !recorder.memory().may_leave(thread, index as usize) {
        return TurnDone::Held;
    }
    TurnDone::Drained(store)
}

/// What a drain of the store at `index` will do.
fn drain_ahead(recorder: &Recorder, thread: u32, index: u32) -> TurnDone
    requires there { thread < threads_of recorder.now }
    ensures { DrainDoes (steps_of recorder.now) thread index result }
{
    match pending_key(recorder, thread, index) {
        Some(store) => store_ahead(recorder, thread, index, store),
        None => TurnDone::Absent,
    }
}

/// What a turn will do.
fn turn_ahead(runner: &Runner, recorder: &Recorder, limit: u32, turn: Turn) -> TurnDone
    requires there { thread_of turn < threads_of recorder.now }
    ensures { TurnDoes runner.now recorder.now limit turn result }
{
    match turn {
        Turn::Step(thread) => step_ahead(runner, thread, recorder, limit),
        Turn::Drain(thread) => drain_ahead(recorder, thread, 0),
        Turn::DrainAt(thread, index) => drain_ahead(recorder, thread, index),
    }
}

/// The events of these stores.
fn keys_of(alloc: Global, stores: &[Event]) -> Result<List<EventKey>, AllocError>
    ensures { IfOk result (λ keys. keys ≡ map key_of stores.now) }
{
    let mut keys = Vec::with_capacity(alloc, stores.len())?;
    for store in stores {
        keys.push(store.key())?;
    }
    Ok(List::from_vec(keys))
}

/// The events of the stores in a thread's buffer.
fn pending_of(alloc: Global, recorder: &Recorder, thread: u32) -> Result<List<EventKey>, AllocError>
    requires there { thread < threads_of recorder.now }
    ensures { IfOk result (λ keys. keys ≡ pending (steps_of recorder.now) thread) }
{
    recorder.recorded_log_is_valid();
    keys_of(alloc, recorder.memory().stores(thread))
}

/// The position of the next step of each thread.
fn positions_of(alloc: Global, runners: &[Runner]) -> Result<Vec<CodePosition>, AllocError>
    ensures { IfOk result (λ positions. positions.items ≡ map (λ runner. position_of runner.thread) runners.now) }
{
    let mut positions = Vec::with_capacity(alloc, runners.len())?;
    for runner in runners {
        positions.push(runner.thread.position())?;
    }
    Ok(positions)
}

/// The position of a thread that was at `position` before its turn. If it has ended, that is where it made its last
/// step.
fn position_after(runner: &Runner, position: CodePosition) -> CodePosition
    ensures goes_on { (HasEnded (config_of runner.now.thread) → ⊥) → result ≡ position_of runner.now.thread }
    ensures ended { HasEnded (config_of runner.now.thread) → result ≡ position }
{
    if let Need::Ended(_) = runner.thread.next() {
        return position;
    }
    runner.thread.position()
}

/// Takes a turn of a script, and reports what it did. `positions` has the position of each thread, before and after.
fn take_traced(
    alloc: Global,
    module: &ValidModule,
    runners: &mut Vec<Runner>,
    recorder: &mut Recorder,
    positions: &mut Vec<CodePosition>,
    limit: u32,
    turn: Turn,
) -> Result<TracedTurn, AllocError>
    requires set { IsSet «module».now runners.old.items recorder.old }
    requires there { thread_of turn < length runners.old.items }
    requires positions { length positions.old.items ≡ length runners.old.items }
    ensures { IfOk result (λ entry.
        TakesTraced «module».now limit turn runners.old.items recorder.old positions.old.items entry
        runners.new.items recorder.new positions.new.items) }
{
    let thread = turn.thread();
    let position = positions[thread as usize];
    let done = turn_ahead(&runners[thread as usize], recorder, limit, turn);
    take(module, runners, recorder, limit, turn)?;
    positions[thread as usize] = position_after(&runners[thread as usize], position);
    let pending = pending_of(alloc, recorder, thread)?;
    Ok(TracedTurn {
        turn,
        position,
        done,
        pending,
    })
}

/// Takes the turns of a script, one after the other, and reports what each did.
fn play_traced(
    alloc: Global,
    module: &ValidModule,
    runners: &mut Vec<Runner>,
    recorder: &mut Recorder,
    limit: u32,
    turns: &[Turn],
) -> Result<List<TracedTurn>, AllocError>
    requires set { IsSet «module».now runners.old.items recorder.old }
    requires there { AreTurnsOf (length runners.old.items) turns.now }
    ensures { IfOk result (λ entries.
        PlaysTraced «module».now limit turns.now runners.old.items recorder.old entries runners.new.items recorder.new) }
{
    let mut positions = positions_of(alloc, runners.as_slice())?;
    let mut entries = Vec::new(alloc);
    for turn in turns {
        let entry = take_traced(
            alloc,
            module,
            runners,
            recorder,
            &mut positions,
            limit,
            *turn,
        )?;
        entries.push(entry)?;
    }
    Ok(List::from_vec(entries))
}

/// The scripted run that [`crate::drive`] makes, with the effect of each turn.
///
/// # Errors
///
/// The errors of [`crate::drive`].
pub fn trace(
    alloc: Global,
    module: &ValidModule,
    plan: &Plan,
    turns: &[Turn],
) -> Result<Trace, RunFault>
    ensures scripted { IfOk result (λ trace. IsScripted «module».now plan.now turns.now trace.run) }
    ensures traced { IfOk result (λ trace. IsTraced «module».now plan.now turns.now trace.run trace.turns) }
    ensures own { IfOk result (λ trace. IsOwnRun «module».now trace.run) }
    ensures within { IfOk result (λ trace. IsWithinPlan trace.run) }
    ensures planned { OnOk result (IsPlan plan.now turns.now) }
    ensures refused { IfErr result (IsScriptFault «module».now plan.now turns.now) }
{
    if let Err(fault) = plan.follows(turns) {
        return Err(RunFault::Plan(fault));
    }
    let starts = plan.starts.as_slice();
    let mut runners = launch(alloc, module, starts)?;
    let mut recorder = Recorder::new(alloc, module.initial(), starts.len())?;
    let traced = match play_traced(
        alloc,
        module,
        &mut runners,
        &mut recorder,
        plan.steps,
        turns,
    ) {
        Ok(traced) => traced,
        Err(_) => {
            drop(recorder);
            drop(runners);
            return Err(RunFault::OutOfMemory);
        }
    };
    let run = finish(alloc, starts, runners.as_slice(), recorder)?;
    Ok(Trace { run, turns: traced })
}

/// Each access that a trace names is an event of its run: the log has the event of that thread and number.
pub fn traced_accesses_are_logged()
    ensures { TracedAccessesAreLogged }
{}

/// Each store that a trace names is a write of its run: the one that a turn drained, and the one that left a full buffer.
pub fn traced_stores_are_logged()
    ensures { TracedStoresAreLogged }
{}
