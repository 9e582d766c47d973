//! Scripted runs.
ghost use Rattle.std.specs.Prelude.{◌≡◌, ◌≤◌, length, IfErr, IfOk, OnOk};
ghost use Rattle.wm_recorder.specs.Recorder.{threads_of};
ghost use Rattle.wm_run.specs.Finish.{AreLogs, IsFinished};
ghost use Rattle.wm_run.specs.Own.{IsOwnRun, IsWithinPlan};
ghost use Rattle.wm_run.specs.Plan.{AreTurnsOf, IsPlan};
ghost use Rattle.wm_run.specs.Refusal.{IsScriptFault};
ghost use Rattle.wm_run.specs.Runner.{IsSet, PlaysTurns};
ghost use Rattle.wm_run.specs.Scripted.{HasScriptedRun, IsScripted, OneScriptedRun};

use crate::fault::RunFault;
use crate::launch::{copy_start, launch};
use crate::plan::Plan;
use crate::run::{Run, recorded_run};
use crate::runner::{Runner, end_of, take};
use crate::turn::Turn;
use std::alloc::{AllocError, Global};
use wm_event::{Start, ThreadLog};
use wm_list::List;
use wm_recorder::Recorder;
use wm_valid::ValidModule;

/// Takes the turns of a script, one after the other.
fn play(
    module: &ValidModule,
    runners: &mut Vec<Runner>,
    recorder: &mut Recorder,
    limit: u32,
    turns: &[Turn],
) -> Result<(), AllocError>
    requires set { IsSet «module».now runners.old.items recorder.old }
    requires there { AreTurnsOf (length runners.old.items) turns.now }
    ensures { OnOk result (PlaysTurns «module».now limit turns.now runners.old.items recorder.old runners.new.items recorder.new) }
{
    for turn in turns {
        take(module, runners, recorder, limit, *turn)?;
    }
    Ok(())
}

/// What is logged for each thread.
fn logs_of(
    alloc: Global,
    starts: &[Start],
    runners: &[Runner],
    recorder: &Recorder,
) -> Result<List<ThreadLog>, AllocError>
    requires runners { length runners.now ≡ length starts.now }
    requires few { length starts.now ≤ 16 }
    ensures { IfOk result (AreLogs starts.now runners.now recorder.now) }
{
    let mut logs = Vec::with_capacity(alloc, starts.len())?;
    for (number, start) in starts.iter().enumerate() {
        let runner = &runners[number];
        let events = recorder.events(number as u32).to_vec(alloc)?;
        let start = copy_start(alloc, start)?;
        logs.push_reserved(ThreadLog {
            start,
            end: end_of(&runner.thread),
            steps: runner.made,
            events: List::from_vec(events),
        });
    }
    Ok(List::from_vec(logs))
}

/// The run that was recorded.
pub(crate) fn finish(
    alloc: Global,
    starts: &[Start],
    runners: &[Runner],
    recorder: Recorder,
) -> Result<Run, AllocError>
    requires runners { length runners.now ≡ length starts.now }
    requires few { length starts.now ≤ 16 }
    requires threads { threads_of recorder ≡ length starts.now }
    ensures { IfOk result (IsFinished starts.now runners.now recorder) }
{
    match logs_of(alloc, starts, runners, &recorder) {
        Ok(logs) => {
            recorder.recorded_log_is_valid();
            recorded_run(recorder, logs)
        }
        Err(error) => {
            drop(recorder);
            Err(error)
        }
    }
}

/// The scripted run: the threads of the plan take the turns over one memory, whose store buffers drain when the script
/// says so. A step of a thread does nothing if the thread has ended, has made its steps, or is before an access while
/// the log holds 16,384 events. A drain does nothing if there is no such store, or if the store would pass an older one
/// that it overlaps. A thread that hasn't ended after the last turn is cut.
///
/// # Errors
///
/// `Plan` with the first fault of the plan ([`Plan::follows`]); else `Start` with the first thread that doesn't start;
/// `OutOfMemory` if an allocation fails. A refused plan starts nothing.
pub fn drive(
    alloc: Global,
    module: &ValidModule,
    plan: &Plan,
    turns: &[Turn],
) -> Result<Run, RunFault>
    ensures scripted { IfOk result (IsScripted «module».now plan.now turns.now) }
    ensures own { IfOk result (IsOwnRun «module».now) }
    ensures within { IfOk result IsWithinPlan }
    ensures planned { OnOk result (IsPlan plan.now turns.now) }
    ensures refused { IfErr result (IsScriptFault «module».now plan.now turns.now) }
{
    if let Err(fault) = plan.follows(turns) {
        return Err(RunFault::Plan(fault));
    }
    let starts = plan.starts.as_slice();
    let mut runners = launch(alloc, module, starts)?;
    let mut recorder = Recorder::new(alloc, module.initial(), starts.len())?;
    match play(module, &mut runners, &mut recorder, plan.steps, turns) {
        Ok(()) => {}
        Err(_) => {
            drop(recorder);
            drop(runners);
            return Err(RunFault::OutOfMemory);
        }
    }
    let run = finish(alloc, starts, runners.as_slice(), recorder)?;
    Ok(run)
}

/// A module, a plan and turns have at most one scripted run. They have one if the module is valid, the plan can be
/// followed through the turns, and its threads start.
pub fn one_scripted_run()
    ensures one { OneScriptedRun }
    ensures some { HasScriptedRun }
{}
