//! A round: a worker for each thread, and a drainer, over one locked memory.
ghost use Rattle.std.specs.Prelude.{◌≡◌, ◌≤◌, Ok, IfErr, IfOk, OnOk, map};
ghost use Rattle.wm_event.specs.Limits.{max_steps};
ghost use Rattle.wm_recorder.specs.Locked.{IsOver};
ghost use Rattle.wm_run.specs.Launch.{IsLaunchFault};
ghost use Rattle.wm_run.specs.Own.{IsWithinPlan};
ghost use Rattle.wm_run.specs.Refusal.{AllStart};
ghost use Rattle.wm_run.specs.RoundPlans.{AreEndsOf, AreWorkOfPlan, IsRound, IsRoundFault, IsRoundPlan, IsRoundPlanFault};
ghost use Rattle.wm_run.specs.Worker.{IsWorkOf};

use crate::MAX_TURNS;
use crate::fault::{PlanFault, RunFault};
use crate::launch::launch;
use crate::own::own_runs_are_allowed;
use crate::plan::Plan;
use crate::rounds::drains::drainer;
use crate::rounds::ended::ThreadEnd;
use crate::rounds::gate::Gate;
use crate::rounds::gathering::gather;
use crate::rounds::worker::work;
use crate::run::Run;
use std::alloc::{AllocError, Global};
use std::marker::Brand;
use std::snapshot::Snapshot;
use std::sync::Wait;
use std::thread;
use std::thread::{Promise, PromisedHandle, Scope, Threads};
use wm_event::Start;
use wm_recorder::{LockedMemory, Over, Recorder, Shared};
use wm_valid::ValidModule;

/// What a worker promises of its result: that it is the result of [`work`] for this thread.
pub struct WorkPromise<G> {
    program: Snapshot<ValidModule>,
    thread: u32,
    start: Snapshot<Start>,
    steps: u32,
    gate: Snapshot<G>,
}

impl<G> Drop for WorkPromise<G> {
    fn drop(self) {
        let Self {
            program: _,
            thread: _,
            start: _,
            steps: _,
            gate: _,
        } = self;
    }
}

impl<G: Gate> Promise<Result<ThreadEnd, RunFault>> for WorkPromise<G> {
    ghost kept_by = { λ p r. IsWorkOf (G.is_open p.gate.value) p.program.value p.thread p.start.value p.steps r };
}

/// Starts one worker.
fn start_one<'s, E: 's, S: Shared + Sync, G: Gate + Sync>(
    scope: &'s Scope<'s, E>,
    alloc: Global,
    module: &'s ValidModule,
    thread: u32,
    start: &'s Start,
    steps: u32,
    shared: &'s S,
    gate: &'s G,
) -> Result<PromisedHandle<Result<ThreadEnd, RunFault>, WorkPromise<G>>, AllocError>
    requires { steps ≤ max_steps }
    ensures program { IfOk result (λ h. h.promise.program.value ≡ «module».now) }
    ensures thread { IfOk result (λ h. h.promise.thread ≡ thread) }
    ensures start { IfOk result (λ h. h.promise.start.value ≡ start.now) }
    ensures steps { IfOk result (λ h. h.promise.steps ≡ steps) }
    ensures gate { IfOk result (λ h. h.promise.gate.value ≡ gate.now) }
{
    let promise = WorkPromise {
        program: Snapshot::of(module),
        thread,
        start: Snapshot::of(start),
        steps,
        gate: Snapshot::of(gate),
    };
    Ok(scope.spawn_with(
        promise,
        move || work(alloc, module, thread, start, steps, shared, gate),
    )?)
}

/// Joins threads whose results are discarded.
fn join_all<R: Threads, G: Gate>(
    rt: &R,
    workers: Vec<PromisedHandle<Result<ThreadEnd, RunFault>, WorkPromise<G>>>,
) {
    for worker in workers {
        let _ = worker.join(rt);
    }
}

/// Starts a worker for each thread, and joins them. If one doesn't start, those that run are joined.
fn run_workers<'s, E: 's, R: Threads, S: Shared + Sync, G: Gate + Sync>(
    rt: &R,
    scope: &'s Scope<'s, E>,
    alloc: Global,
    module: &'s ValidModule,
    plan: &'s Plan,
    shared: &'s S,
    gate: &'s G,
) -> Result<Vec<Result<ThreadEnd, RunFault>>, AllocError>
    requires { IsRoundPlan plan.now }
    ensures { IfOk result (λ v. AreWorkOfPlan (G.is_open gate.now) «module».now plan.now v.items) }
{
    let starts = plan.starts.as_slice();
    let mut workers = Vec::with_capacity(alloc, starts.len())?;
    for (number, start) in starts.iter().enumerate() {
        let thread = number as u32;
        match start_one(
            scope, alloc, module, thread, start, plan.steps, shared, gate,
        ) {
            Ok(worker) => workers.push_reserved(worker),
            Err(_) => {
                join_all(rt, workers);
                return Err(AllocError);
            }
        }
    }
    match thread::join_promised(rt, workers) {
        Ok(results) => Ok(results),
        Err(refused) => {
            join_all(rt, refused.value);
            Err(AllocError)
        }
    }
}

/// The ends of the threads. Each thread starts, so the only fault of a worker can be `OutOfMemory`.
fn all_ends(
    alloc: Global,
    results: Vec<Result<ThreadEnd, RunFault>>,
) -> Result<Vec<ThreadEnd>, AllocError>
    ensures { IfOk result (λ v. results.items ≡ map Ok v.items) }
{
    let mut ends = Vec::with_capacity(alloc, results.len())?;
    for done in results {
        match done {
            Ok(end) => ends.push_reserved(end),
            Err(_) => return Err(AllocError),
        }
    }
    Ok(ends)
}

/// Starts the drainer and the workers, and joins them all. Returns the ends of the threads.
fn run_in<'s, E: 's, R: Threads, S: Shared + Sync, G: Gate + Sync>(
    rt: &R,
    scope: &'s Scope<'s, E>,
    alloc: Global,
    module: &'s ValidModule,
    plan: &'s Plan,
    shared: &'s S,
    gate: &'s G,
) -> Result<Vec<ThreadEnd>, AllocError>
    requires { IsRoundPlan plan.now }
    ensures { IfOk result (λ ends. AreEndsOf (G.is_open gate.now) «module».now plan.now.starts plan.now.steps ends.items) }
{
    let threads = plan.starts.len() as u32;
    let drains = plan.drains;
    let drain = scope.spawn(move || drainer(alloc, shared, threads, drains, gate))?;
    let results = run_workers(rt, scope, alloc, module, plan, shared, gate);
    let drained = drain.join(rt);
    let results = results?;
    let _calls = drained?;
    all_ends(alloc, results)
}

/// Runs the threads over what they share, in a scope that borrows it.
fn run_shared<R: Threads + Wait + Sync, S: Shared + Sync, G: Gate + Sync>(
    rt: &R,
    alloc: Global,
    module: &ValidModule,
    plan: &Plan,
    shared: &S,
    gate: &G,
) -> Result<Vec<ThreadEnd>, AllocError>
    requires { IsRoundPlan plan.now }
    ensures { IfOk result (λ ends. AreEndsOf (G.is_open gate.now) «module».now plan.now.starts plan.now.steps ends.items) }
{
    thread::scope(
        thread::scope_env(),
        rt,
        |scope| -> Result<Vec<ThreadEnd>, AllocError>
            requires { IsRoundPlan plan.now }
            ensures { IfOk result (λ ends.
                AreEndsOf (G.is_open gate.entry.now) «module».entry.now plan.entry.now.starts plan.entry.now.steps ends.items) }
        { run_in(rt, scope, alloc, module, plan, shared, gate) },
    )
}

/// Runs the threads over a recorder under a lock. The recorder comes back with the same Init and number of threads.
fn run_locked<N: Over + Send + Sync, R: Threads + Wait + Sync, G: Gate + Sync>(
    rt: &R,
    alloc: Global,
    module: &ValidModule,
    plan: &Plan,
    recorder: Recorder,
    gate: &G,
) -> (Recorder, Result<Vec<ThreadEnd>, AllocError>)
    requires plan { IsRoundPlan plan.now }
    requires over { IsOver N.initial N.threads recorder }
    ensures over { IsOver N.initial N.threads result.0 }
    ensures ends { IfOk result.1 (λ ends.
        AreEndsOf (G.is_open gate.now) «module».now plan.now.starts plan.now.steps ends.items) }
{
    let shared = LockedMemory::<R, N>::new(rt, recorder);
    let ends = run_shared(rt, alloc, module, plan, &shared, gate);
    (shared.into_recorder(), ends)
}

/// Whether a round can follow the plan.
pub fn check_plan(plan: &Plan) -> Result<(), PlanFault>
    ensures ok { OnOk result (IsRoundPlan plan.now) }
    ensures fault { IfErr result (IsRoundPlanFault plan.now) }
{
    plan.follows(&[])?;
    if plan.drains as usize > MAX_TURNS {
        return Err(PlanFault::Turns);
    }
    Ok(())
}

/// Whether each thread starts.
fn check_starts(alloc: Global, module: &ValidModule, starts: &[Start]) -> Result<(), RunFault>
    ensures ok { OnOk result (AllStart «module».now starts.now) }
    ensures refused { IfErr result (IsLaunchFault «module».now starts.now) }
{
    let _runners = launch(alloc, module, starts)?;
    Ok(())
}

/// Runs each thread of the plan in its own worker over one locked memory, with a drainer that takes the plan's drains.
/// The gate is asked before each access and each drainer turn, while no lock is held; it may cut threads.
///
/// # Errors
///
/// `Plan` with the first fault of the plan: `Threads` if it starts none or more than 16, `Steps` if it lets a thread
/// make more than 1,000,000, `Turns` if it has more than 1,000,000 drains; else `Start` with the first thread that
/// doesn't start. In these cases no worker is started. `OutOfMemory` if an allocation fails or the system refuses a
/// thread. `Split` with a thread of the plan on which its worker and the recorder disagree, as [`gather`] finds it, if
/// the plan has no fault and all its threads start. `Foreign` and `Ends` never come.
pub fn run_round<R: Threads + Wait + Sync, G: Gate + Sync>(
    rt: &R,
    alloc: Global,
    module: &ValidModule,
    plan: &Plan,
    gate: &G,
) -> Result<Run, RunFault>
    ensures round { IfOk result (IsRound (G.is_open gate.now) «module».now plan.now) }
    ensures within { IfOk result IsWithinPlan }
    ensures planned { OnOk result (IsRoundPlan plan.now) }
    ensures refused { IfErr result (IsRoundFault «module».now plan.now) }
{
    if let Err(fault) = check_plan(plan) {
        return Err(RunFault::Plan(fault));
    }
    check_starts(alloc, module, plan.starts.as_slice())?;
    let recorder = Recorder::new(alloc, module.initial(), plan.starts.len())?;
    let (recorder, ends) = run_locked::<Brand, R, G>(rt, alloc, module, plan, recorder, gate);
    let ends = ends?;
    own_runs_are_allowed();
    gather(alloc, module, recorder, ends)
}
