//! What the threads of a round and the recorder that they shared yield together.
ghost use Rattle.std.specs.Prelude.{◌≡◌, ◌↔◌, ◌<◌, All, IfErr, IfNone, IfOk, IfSome, IsTrue};
ghost use Rattle.wm_recorder.specs.Recorder.{threads_of};
ghost use Rattle.wm_run.specs.Ends.{HasOneEach};
ghost use Rattle.wm_run.specs.Gathered.{Agrees, AllAgree, AreGathered, AreLogsBy, HasItsEvents, IsFirstSplit, IsGathered, IsGatherFault, StopsWhereFull, log_by};
ghost use Rattle.wm_run.specs.Own.{IsOwnRun};

use crate::fault::RunFault;
use crate::launch::copy_start;
use crate::rounds::ended::{Stop, ThreadEnd};
use crate::rounds::ends::{end_of, ends_fault};
use crate::run::{Run, recorded_run};
use std::alloc::{AllocError, Global};
use wm_event::{Event, MAX_EVENTS, ThreadLog};
use wm_list::List;
use wm_recorder::Recorder;
use wm_valid::ValidModule;

/// Whether these are the same events, in the same order.
fn same_events(events: &[Event], others: &[Event]) -> bool
    ensures { IsTrue result ↔ (events.now ≡ others.now) }
{
    if events.len() != others.len() {
        return false;
    }
    for (index, event) in events.iter().enumerate() {
        if *event != others[index] {
            return false;
        }
    }
    true
}

/// Whether the events of an end are the ones recorded for its thread.
fn has_its_events(recorder: &Recorder, end: &ThreadEnd) -> bool
    ensures { IsTrue result ↔ HasItsEvents recorder.now end.now }
{
    same_events(recorder.events(end.thread), end.calls.events())
}

/// Whether the recorder is full if the memory stopped the thread.
fn stops_where_full(recorder: &Recorder, end: &ThreadEnd) -> bool
    ensures { IsTrue result ↔ StopsWhereFull recorder.now end.now }
{
    end.stop != Stop::Memory || recorder.order().len() >= MAX_EVENTS
}

/// Whether an end and the recorder agree on its thread.
fn agrees(recorder: &Recorder, end: &ThreadEnd) -> bool
    ensures { IsTrue result ↔ Agrees recorder.now end.now }
{
    has_its_events(recorder, end) && stops_where_full(recorder, end)
}

/// The first thread on which its end and the recorder disagree.
fn first_split(recorder: &Recorder, ends: &[ThreadEnd], threads: usize) -> Option<usize>
    requires threads { threads ≡ threads_of recorder.now }
    requires ends { HasOneEach threads ends.now }
    ensures none { IfNone result (AllAgree recorder.now ends.now) }
    ensures some { IfSome result (IsFirstSplit recorder.now ends.now) }
{
    for thread in 0..threads {
        if !agrees(recorder, end_of(ends, thread)) {
            return Some(thread);
        }
    }
    None
}

/// What is logged for a thread, by its end.
fn log_by(alloc: Global, end: &ThreadEnd) -> Result<ThreadLog, AllocError>
    ensures { IfOk result (λ log. log ≡ log_by end.now) }
{
    Ok(ThreadLog {
        start: copy_start(alloc, &end.start)?,
        end: end.end,
        steps: end.steps,
        events: List::from_vec(end.calls.events().to_vec(alloc)?),
    })
}

/// What is logged for each thread, by its end.
fn logs_by(alloc: Global, ends: &[ThreadEnd], threads: usize) -> Result<List<ThreadLog>, AllocError>
    requires { HasOneEach threads ends.now }
    ensures { IfOk result (AreLogsBy threads ends.now) }
{
    let mut logs = Vec::with_capacity(alloc, threads)?;
    for thread in 0..threads {
        logs.push(log_by(alloc, end_of(ends, thread))?)?;
    }
    Ok(List::from_vec(logs))
}

/// The logs of the threads that came to these ends over this recorder.
fn gathered_logs(
    alloc: Global,
    module: &ValidModule,
    recorder: &Recorder,
    ends: &[ThreadEnd],
) -> Result<List<ThreadLog>, RunFault>
    ensures gathered { IfOk result (AreGathered «module».now recorder.now ends.now) }
    ensures refused { IfErr result (IsGatherFault «module».now recorder.now ends.now) }
{
    if !recorder.initial().is_same(module.initial()) {
        return Err(RunFault::Foreign);
    }
    let threads = recorder.threads();
    if let Some(thread) = ends_fault(ends, threads) {
        return Err(RunFault::Ends(thread));
    }
    if let Some(thread) = first_split(recorder, ends, threads) {
        return Err(RunFault::Split(thread));
    }
    recorder.recorded_log_is_valid();
    Ok(logs_by(alloc, ends, threads)?)
}

/// The run whose threads came to these ends over this recorder, an own run of the module. The ends are for this module,
/// in any order.
///
/// # Errors
///
/// In this order: `Foreign` if the recorder isn't over the module's initial memory; `Ends` with the least thread that
/// has no end or several, else with the least thread that has an end and isn't in the recorder; `Split` with the first
/// thread whose events aren't the ones recorded for it, or which the memory stopped though it isn't full; `OutOfMemory`
/// if an allocation fails.
pub fn gather(
    alloc: Global,
    module: &ValidModule,
    recorder: Recorder,
    ends: Vec<ThreadEnd>,
) -> Result<Run, RunFault>
    requires { All (λ e. e.program.value ≡ «module».now) ends.items }
    ensures gathered { IfOk result (IsGathered «module».now recorder ends.items) }
    ensures own { IfOk result (IsOwnRun «module».now) }
    ensures refused { IfErr result (IsGatherFault «module».now recorder ends.items) }
{
    let logs = match gathered_logs(alloc, module, &recorder, ends.as_slice()) {
        Ok(logs) => logs,
        Err(fault) => {
            drop(recorder);
            drop(ends);
            return Err(fault);
        }
    };
    drop(ends);
    Ok(recorded_run(recorder, logs)?)
}
