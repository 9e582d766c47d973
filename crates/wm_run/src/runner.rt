//! The threads of a script, with the memory that they share.
ghost use Rattle.std.specs.Prelude.{◌≡◌, ◌<◌, ℕ, length, IfOk, OnOk};
ghost use Rattle.wm_logfile.specs.Document.{EndFits};
ghost use Rattle.wm_machine.specs.Run.{end_of as config_end};
ghost use Rattle.wm_machine.specs.State.{config_of, need_of};
ghost use Rattle.wm_recorder.specs.Recorder.{initial_of, threads_of};
ghost use Rattle.wm_valid.specs.Valid.{IsInit};
ghost use Rattle.wm_run.specs.Plan.{thread_of};
ghost use Rattle.wm_memory.specs.declared.history_step.HistoryStep.TheVariants as HistoryStep;
ghost use Rattle.wm_run.specs.Runner.{Advances, DrainsBy, IsSet, Moves, TakesTurn};

use crate::turn::Turn;
use std::alloc::AllocError;
use wm_event::{End, Op};
use wm_machine::{AdvanceFault, Need, Stepped, Thread};
use wm_recorder::{AccessFault, Recorder};
use wm_valid::ValidModule;

/// A thread of a script, and how many steps it has made.
#[derive(Drop)]
pub struct Runner<'m> {
    pub thread: Thread<'m>,
    pub made: u32,
}

/// Whether a thread made a step.
#[derive(Clone, Copy)]
pub enum Moved {
    /// It made one.
    Stepped,
    /// It makes no further step.
    Rested,
}

/// The end of a thread that makes no further step. Its result fits a document.
pub fn end_of(thread: &Thread) -> End
    ensures end { result ≡ config_end (config_of thread.now) }
    ensures fits { EndFits result }
{
    wm_replay::end_of(thread)
}

/// Makes the access that a thread needs, if the log isn't full.
fn access(
    thread: &mut Thread,
    number: u32,
    recorder: &mut Recorder,
    op: Op,
) -> Result<Moved, AllocError>
    requires there { number < threads_of recorder.old }
    requires memory { IsInit thread.old.module (initial_of recorder.old) }
    requires needed { (read : ℕ) → Need.Access op ≡ need_of read thread.old }
    ensures moves { IfOk result (Advances number thread.old recorder.old thread.new recorder.new) }
    ensures same { thread.new.module ≡ thread.old.module }
{
    recorder.recorded_log_is_valid();
    match recorder.step_access(number, op) {
        Ok(reply) => match thread.advance(Some(reply)) {
            Ok(()) => Ok(Moved::Stepped),
            Err(AdvanceFault::OutOfMemory) => Err(AllocError),
        },
        Err(AccessFault::Full) => Ok(Moved::Rested),
        Err(AccessFault::OutOfMemory) => Err(AllocError),
        Err(AccessFault::NoThread) => unreachable!(),
        Err(AccessFault::OutOfBounds) => unreachable!(),
    }
}

/// Makes the next step of a thread if it has one: not if it has ended, nor if it is before an access and the log is
/// full.
fn advance(thread: &mut Thread, number: u32, recorder: &mut Recorder) -> Result<Moved, AllocError>
    requires there { number < threads_of recorder.old }
    requires memory { IsInit thread.old.module (initial_of recorder.old) }
    ensures moves { IfOk result (Advances number thread.old recorder.old thread.new recorder.new) }
    ensures same { thread.new.module ≡ thread.old.module }
{
    let stepped = match thread.step() {
        Ok(stepped) => stepped,
        Err(AdvanceFault::OutOfMemory) => return Err(AllocError),
    };
    match stepped {
        Stepped::Local => Ok(Moved::Stepped),
        Stepped::Access(op) => access(thread, number, recorder, op),
        Stepped::Ended(_) => Ok(Moved::Rested),
    }
}

/// Makes a step of a thread that makes at most `limit` steps.
fn step(
    runner: &mut Runner,
    number: u32,
    recorder: &mut Recorder,
    limit: u32,
) -> Result<(), AllocError>
    requires there { number < threads_of recorder.old }
    requires memory { IsInit runner.old.thread.module (initial_of recorder.old) }
    ensures moves { OnOk result (Moves number limit runner.old recorder.old runner.new recorder.new) }
    ensures same { runner.new.thread.module ≡ runner.old.thread.module }
{
    if runner.made >= limit {
        return Ok(());
    }
    match advance(&mut runner.thread, number, recorder)? {
        Moved::Stepped => runner.made += 1,
        Moved::Rested => {}
    }
    Ok(())
}

/// The oldest waiting store leaves the thread's buffer, if there is one.
fn drain(recorder: &mut Recorder, thread: u32) -> Result<(), AllocError>
    ensures { OnOk result (DrainsBy (HistoryStep.Drain thread) recorder.old recorder.new) }
{
    recorder.recorded_log_is_valid();
    let _drained = recorder.step_drain(thread)?;
    recorder.recorded_log_is_valid();
    Ok(())
}

/// The store at `index`, counted from 0 at the oldest, leaves the thread's buffer if it exists and may leave.
fn drain_at(recorder: &mut Recorder, thread: u32, index: u32) -> Result<(), AllocError>
    ensures { OnOk result (DrainsBy (HistoryStep.DrainAt thread index) recorder.old recorder.new) }
{
    recorder.recorded_log_is_valid();
    let _drained = recorder.step_drain_at(thread, index)?;
    recorder.recorded_log_is_valid();
    Ok(())
}

/// Takes a turn of a script.
pub fn take(
    module: &ValidModule,
    runners: &mut Vec<Runner>,
    recorder: &mut Recorder,
    limit: u32,
    turn: Turn,
) -> Result<(), AllocError>
    requires set { IsSet «module».now runners.old.items recorder.old }
    requires there { thread_of turn < length runners.old.items }
    ensures { OnOk result (TakesTurn «module».now limit turn runners.old.items recorder.old runners.new.items recorder.new) }
{
    match turn {
        Turn::Step(thread) => step(&mut runners[thread as usize], thread, recorder, limit),
        Turn::Drain(thread) => drain(recorder, thread),
        Turn::DrainAt(thread, index) => drain_at(recorder, thread, index),
    }
}
