//! The data under the lock of a memory that threads share.
ghost use Rattle.std.specs.Prelude.{◌≡◌, IfOk, OnErr, OnOk};
ghost use Rattle.wm_event.specs.Op.{kind_finds};
ghost use Rattle.wm_event.specs.Reply.{ReadAnswers};
ghost use Rattle.wm_memory.specs.declared.history_step.HistoryStep.TheVariants.{Drain};
ghost use Rattle.wm_recorder.specs.Calls.{CallsAccess, CallsDrain, HasCallRoom, HasDrainRoom};
ghost use Rattle.wm_recorder.specs.Locked.{IsAccessOver, IsDrainAtOver, IsDrainOver, IsOver};
ghost use Rattle.wm_recorder.specs.Recorder.{initial_of, threads_of};

use crate::{AccessFault, Calls, Over, Recorder};
use std::alloc::AllocError;
use std::marker::PhantomData;
use std::mem;
use wm_event::{Op, Reply};

/// A recorder over the Init and for the number of threads that `N` names. Each of its calls is one step.
#[derive(Drop)]
pub struct Held<N: Over> {
    recorder: Recorder,
    of: PhantomData<N>,
    pub ghost initial: { initial_of recorder ≡ N.initial },
    pub ghost threads: { threads_of recorder ≡ N.threads },
}

impl<N: Over> Held<N> {
    /// The data under a new lock.
    pub fn new(recorder: Recorder) -> Self
        requires { IsOver N.initial N.threads recorder }
        ensures { result.recorder ≡ recorder }
    {
        Held {
            recorder,
            of: PhantomData,
        }
    }

    /// The recorder.
    pub fn into_recorder(self) -> Recorder
        ensures same { result ≡ self.recorder }
        ensures over { IsOver N.initial N.threads result }
    {
        let Self { recorder, of: _ } = self;
        recorder
    }

    /// Puts another recorder under the lock, over the same Init and for as many threads, and gives back the one that
    /// was there.
    pub fn exchange(&mut self, recorder: Recorder) -> Recorder
        requires { IsOver N.initial N.threads recorder }
        ensures same { result ≡ self.old.recorder }
        ensures over { IsOver N.initial N.threads result }
        ensures put { self.new.recorder ≡ recorder }
    {
        let held = mem::replace(self, Held::new(recorder));
        held.into_recorder()
    }

    /// One access, as [`Recorder::step_access`] makes it, which is added to the caller's calls.
    pub fn access(&mut self, calls: &mut Calls, thread: u32, op: Op) -> Result<Reply, AccessFault>
        requires room { HasCallRoom calls.old }
        ensures answers { IfOk result (λ reply. ReadAnswers (kind_finds op.kind) op.width reply.read) }
        ensures made { IsAccessOver N.initial N.threads thread op self.old.recorder result self.new.recorder }
        ensures called { IfOk result (λ reply. CallsAccess thread op reply.read calls.old calls.new) }
        ensures not_called { OnErr result (calls.new ≡ calls.old) }
    {
        let Held { recorder, of: _ } = self;
        recorder.recorded_log_is_valid();
        let answer = recorder.step_access(thread, op);
        recorder.recorded_log_is_valid();
        if let Ok(reply) = answer {
            calls.add_access(thread, op, reply.read);
        }
        answer
    }

    /// One drain of a thread's oldest store, as [`Recorder::step_drain`] makes it, which is added to the caller's calls.
    pub fn drain(&mut self, calls: &mut Calls, thread: u32) -> Result<bool, AllocError>
        requires room { HasDrainRoom calls.old }
        ensures made { IfOk result (λ drained.
            IsDrainOver N.initial N.threads (Drain thread) thread 0 self.old.recorder drained self.new.recorder) }
        ensures called { OnOk result (CallsDrain calls.old calls.new) }
        ensures not_called { OnErr result (calls.new ≡ calls.old) }
    {
        let Held { recorder, of: _ } = self;
        recorder.recorded_log_is_valid();
        let answer = recorder.step_drain(thread);
        recorder.recorded_log_is_valid();
        if answer.is_ok() {
            calls.add_drain();
        }
        answer
    }

    /// One drain of the store at `index`, as [`Recorder::step_drain_at`] makes it, which is added to the caller's calls.
    pub fn drain_at(
        &mut self,
        calls: &mut Calls,
        thread: u32,
        index: u32,
    ) -> Result<bool, AllocError>
        requires room { HasDrainRoom calls.old }
        ensures made { IfOk result (λ drained. IsDrainAtOver N.initial N.threads thread index self.old.recorder drained self.new.recorder) }
        ensures called { OnOk result (CallsDrain calls.old calls.new) }
        ensures not_called { OnErr result (calls.new ≡ calls.old) }
    {
        let Held { recorder, of: _ } = self;
        recorder.recorded_log_is_valid();
        let answer = recorder.step_drain_at(thread, index);
        recorder.recorded_log_is_valid();
        if answer.is_ok() {
            calls.add_drain();
        }
        answer
    }
}
