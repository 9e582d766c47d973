//! Rounds of a plan, one after the other, by threads that are started once.
ghost use Rattle.std.specs.Prelude.{◌≡◌, IfErr, IfOk, MatchBool, OnOk};
ghost use Rattle.wm_recorder.specs.Locked.{IsOver};
ghost use Rattle.wm_run.specs.Crew.{CanMakeRounds};
ghost use Rattle.wm_run.specs.RoundPlans.{IsReady, IsRoundFault, IsRoundPlan};
ghost use Rattle.wm_run.specs.Series.{TakesRounds};

use crate::fault::RunFault;
use crate::launch::launch;
use crate::plan::Plan;
use crate::rounds::assigned::Assigned;
use crate::rounds::board::{Collects, LockedBoard, empty_slots};
use crate::rounds::crew::{Crew, start_crew};
use crate::rounds::gate::Gate;
use crate::rounds::round::check_plan;
use crate::rounds::taker::Taker;
use std::alloc::Global;
use std::marker::Brand;
use std::sync::Wait;
use std::thread;
use std::thread::{Scope, Threads};
use wm_recorder::{Over, Recorder};
use wm_valid::ValidModule;

/// Makes this number of rounds, or fewer if the taker wants no more.
fn make_rounds<R: Wait, N: Over + Assigned, G: Gate, B: Collects<N>, T: Taker>(
    crew: &Crew<'_, R, N, G, B>,
    count: u32,
    mut taker: T,
) -> (T, Result<bool, RunFault>)
    requires takes { TakesRounds N.is_open N.program N.plan (T.takes (T.task taker)) }
    requires begins { T.has_taken taker 0 }
    requires many { T.may_make taker count }
    requires ready { IsReady N.program N.plan }
    ensures same { T.task result.0 ≡ T.task taker }
    ensures taken { IfOk result.1 (λ all. MatchBool all (T.has_taken result.0 count) (T.is_done result.0)) }
    ensures refused { IfErr result.1 (IsRoundFault N.program N.plan) }
{
    for number in 0..count {
        let run = match crew.round(number as u64) {
            Ok(run) => run,
            Err(fault) => return (taker, Err(fault)),
        };
        match taker.take(run) {
            Ok(true) => {}
            Ok(false) => return (taker, Ok(false)),
            Err(_) => return (taker, Err(RunFault::OutOfMemory)),
        }
    }
    (taker, Ok(true))
}

/// Starts the crew, makes the rounds, and joins all that were started.
fn run_in<
    's,
    E: 's,
    R: Threads + Wait + Sync,
    N: Over + Assigned + Send + Sync,
    G: Gate + Sync,
    B: Collects<N> + Sync,
    T: Taker,
>(
    rt: &R,
    alloc: Global,
    scope: &'s Scope<'s, E>,
    crew: &'s Crew<'s, R, N, G, B>,
    count: u32,
    taker: T,
) -> (T, Result<bool, RunFault>)
    requires takes { TakesRounds N.is_open N.program N.plan (T.takes (T.task taker)) }
    requires begins { T.has_taken taker 0 }
    requires many { T.may_make taker count }
    requires ready { IsReady N.program N.plan }
    ensures same { T.task result.0 ≡ T.task taker }
    ensures taken { IfOk result.1 (λ all. MatchBool all (T.has_taken result.0 count) (T.is_done result.0)) }
    ensures refused { IfErr result.1 (IsRoundFault N.program N.plan) }
{
    let mut started = Vec::new(alloc);
    let made = match start_crew(scope, crew, crew.workers(), &mut started) {
        Ok(()) => make_rounds(crew, count, taker),
        Err(_) => (taker, Err(RunFault::OutOfMemory)),
    };
    crew.end();
    for thread in started {
        thread.join(rt);
    }
    made
}

/// Makes the rounds in a scope that borrows what the crew shares.
fn run_scoped<
    N: Over + Assigned + Send + Sync,
    R: Threads + Wait + Sync,
    G: Gate + Sync,
    B: Collects<N> + Sync,
    T: Taker,
>(
    rt: &R,
    alloc: Global,
    crew: &Crew<'_, R, N, G, B>,
    count: u32,
    taker: T,
) -> (T, Result<bool, RunFault>)
    requires takes { TakesRounds N.is_open N.program N.plan (T.takes (T.task taker)) }
    requires begins { T.has_taken taker 0 }
    requires many { T.may_make taker count }
    requires ready { IsReady N.program N.plan }
    ensures same { T.task result.0 ≡ T.task taker }
    ensures taken { IfOk result.1 (λ all. MatchBool all (T.has_taken result.0 count) (T.is_done result.0)) }
    ensures refused { IfErr result.1 (IsRoundFault N.program N.plan) }
{
    thread::scope(
        thread::scope_env(),
        rt,
        |scope| -> (T, Result<bool, RunFault>)
            requires takes { TakesRounds N.is_open N.program N.plan (T.takes (T.task taker)) }
            requires begins { T.has_taken taker 0 }
            requires many { T.may_make taker count }
            requires ready { IsReady N.program N.plan }
            ensures same { T.task result.0 ≡ T.task taker }
            ensures taken { IfOk result.1 (λ all. MatchBool all (T.has_taken result.0 count) (T.is_done result.0)) }
            ensures refused { IfErr result.1 (IsRoundFault N.program N.plan) }
        { run_in(rt, alloc, scope, crew, count, taker) },
    )
}

/// Makes the rounds by a crew that leaves its ends on this board.
fn run_crew<
    'a,
    N: Over + Assigned + Send + Sync,
    R: Threads + Wait + Sync,
    G: Gate + Sync,
    B: Collects<N> + Sync,
    T: Taker,
>(
    rt: &'a R,
    alloc: Global,
    module: &'a ValidModule,
    plan: &'a Plan,
    gate: &'a G,
    board: &'a B,
    recorder: Recorder,
    count: u32,
    taker: T,
) -> (T, Result<bool, RunFault>)
    requires of_module { «module».now ≡ N.program }
    requires of_plan { plan.now ≡ N.plan }
    requires of_gate { G.is_open gate.now ≡ N.is_open }
    requires can { CanMakeRounds N.program N.plan N.initial N.threads }
    requires over { IsOver N.initial N.threads recorder }
    requires takes { TakesRounds N.is_open N.program N.plan (T.takes (T.task taker)) }
    requires begins { T.has_taken taker 0 }
    requires many { T.may_make taker count }
    requires ready { IsReady N.program N.plan }
    ensures same { T.task result.0 ≡ T.task taker }
    ensures taken { IfOk result.1 (λ all. MatchBool all (T.has_taken result.0 count) (T.is_done result.0)) }
    ensures refused { IfErr result.1 (IsRoundFault N.program N.plan) }
{
    let crew = Crew::<R, N, G, B>::new(rt, alloc, module, plan, gate, board, recorder);
    run_scoped(rt, alloc, &crew, count, taker)
}

/// Makes the rounds over a recorder and a board, each under a lock.
fn run_over<N: Over + Assigned + Send + Sync, R: Threads + Wait + Sync, G: Gate + Sync, T: Taker>(
    rt: &R,
    alloc: Global,
    module: &ValidModule,
    plan: &Plan,
    gate: &G,
    recorder: Recorder,
    count: u32,
    taker: T,
) -> (T, Result<bool, RunFault>)
    requires of_module { «module».now ≡ N.program }
    requires of_plan { plan.now ≡ N.plan }
    requires of_gate { G.is_open gate.now ≡ N.is_open }
    requires can { CanMakeRounds N.program N.plan N.initial N.threads }
    requires over { IsOver N.initial N.threads recorder }
    requires takes { TakesRounds N.is_open N.program N.plan (T.takes (T.task taker)) }
    requires begins { T.has_taken taker 0 }
    requires many { T.may_make taker count }
    requires ready { IsReady N.program N.plan }
    ensures same { T.task result.0 ≡ T.task taker }
    ensures taken { IfOk result.1 (λ all. MatchBool all (T.has_taken result.0 count) (T.is_done result.0)) }
    ensures refused { IfErr result.1 (IsRoundFault N.program N.plan) }
{
    let Ok(slots) = empty_slots(alloc, plan.starts.len()) else {
        drop(recorder);
        return (taker, Err(RunFault::OutOfMemory));
    };
    let board = LockedBoard::<R, N>::new(rt, slots);
    run_crew(
        rt, alloc, module, plan, gate, &board, recorder, count, taker,
    )
}

/// Makes this number of rounds of a plan, one after the other, or fewer if the taker wants no more. Each is as
/// [`crate::run_round`] makes one; all are made by the same threads, which are started once and wait between two
/// rounds. Gives back the taker, and whether all rounds were made.
///
/// # Errors
///
/// Those of [`crate::run_round`], and `OutOfMemory` if the taker finds no memory. `Plan` and `Start` come before any
/// thread is started; else every thread that was started is joined.
pub fn run_rounds<R: Threads + Wait + Sync, G: Gate + Sync, T: Taker>(
    rt: &R,
    alloc: Global,
    module: &ValidModule,
    plan: &Plan,
    gate: &G,
    count: u32,
    taker: T,
) -> (T, Result<bool, RunFault>)
    requires takes { TakesRounds (G.is_open gate.now) «module».now plan.now (T.takes (T.task taker)) }
    requires begins { T.has_taken taker 0 }
    requires many { T.may_make taker count }
    ensures same { T.task result.0 ≡ T.task taker }
    ensures taken { IfOk result.1 (λ all. MatchBool all (T.has_taken result.0 count) (T.is_done result.0)) }
    ensures planned { OnOk result.1 (IsRoundPlan plan.now) }
    ensures refused { IfErr result.1 (IsRoundFault «module».now plan.now) }
{
    if let Err(fault) = check_plan(plan) {
        return (taker, Err(RunFault::Plan(fault)));
    }
    let runners = match launch(alloc, module, plan.starts.as_slice()) {
        Ok(runners) => runners,
        Err(fault) => return (taker, Err(fault)),
    };
    let Ok(recorder) = Recorder::new(alloc, module.initial(), runners.len()) else {
        return (taker, Err(RunFault::OutOfMemory));
    };
    drop(runners);
    run_over::<Brand, R, G, T>(rt, alloc, module, plan, gate, recorder, count, taker)
}
