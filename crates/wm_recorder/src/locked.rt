//! A recorder that threads share under a lock.
ghost use Rattle.std.specs.Prelude.{◌≡◌, Err, IfErr, IfOk, Ok, OnErr, OnOk};
ghost use Rattle.wm_event.specs.Op.{kind_finds};
ghost use Rattle.wm_event.specs.Reply.{ReadAnswers};
ghost use Rattle.wm_recorder.specs.Calls.{CallsAccess, CallsDrain, HasCallRoom, HasDrainRoom};
ghost use Rattle.wm_recorder.specs.Locked.{DrainedOnce, DrainedAtOnce, IsOver, MadeOnce};
ghost use Rattle.wm_recorder.specs.Recorder.{IsRecording, RecordsValid};

use crate::held::Held;
use crate::{AccessFault, Accesses, Calls, Drains, Over, Recorder};
use std::alloc::AllocError;
use std::sync::{Mutex, Wait};
use wm_event::{Op, Reply};

/// A recorder under a lock, with the handle that waits for it. Each call takes the lock once, for one access with the
/// drain that a full buffer forces before it, or for one drain. So whenever the lock is free, the recorder's history is
/// legal, and its events, writers and order are what that history records: a valid execution.
#[derive(Drop)]
pub struct LockedMemory<'a, R: Wait, N: Over> {
    rt: &'a R,
    held: Mutex<Held<N>>,
}

impl<'a, R: Wait, N: Over> LockedMemory<'a, R, N> {
    /// A memory that threads share, which records in this recorder.
    pub fn new(rt: &'a R, recorder: Recorder) -> LockedMemory<'a, R, N>
        requires { IsOver N.initial N.threads recorder }
    {
        LockedMemory {
            rt,
            held: Mutex::new(Held::new(recorder)),
        }
    }

    /// Puts another recorder under the lock, over the same Init and for as many threads, and gives back the one that
    /// was there, with everything that the threads did.
    pub fn exchange(&self, recorder: Recorder) -> Recorder
        requires { IsOver N.initial N.threads recorder }
        ensures over { IsOver N.initial N.threads result }
        ensures recording { IsRecording result }
        ensures valid { RecordsValid result }
    {
        let mut guard = self.held.lock(self.rt);
        let held = &mut *guard;
        let recorder = held.exchange(recorder);
        recorder.recorded_log_is_valid();
        recorder
    }

    /// The recorder, with everything that the threads did. It has the same Init and the same number of threads as the
    /// one put in.
    pub fn into_recorder(self) -> Recorder
        ensures over { IsOver N.initial N.threads result }
        ensures recording { IsRecording result }
        ensures valid { RecordsValid result }
    {
        let LockedMemory { rt: _, held } = self;
        let recorder = held.into_inner().into_recorder();
        recorder.recorded_log_is_valid();
        recorder
    }
}

impl<'a, R: Wait, N: Over> Accesses for LockedMemory<'a, R, N> {
    ghost refuses = { λ t op fault. MadeOnce N.initial N.threads t op (Err fault) };

    fn access(&self, calls: &mut Calls, thread: u32, op: Op) -> Result<Reply, AccessFault>
        requires room { HasCallRoom calls.old }
        ensures answers { IfOk result (λ reply. ReadAnswers (kind_finds op.kind) op.width reply.read) }
        ensures made { IfOk result (λ reply. MadeOnce N.initial N.threads thread op (Ok reply)) }
        ensures called { IfOk result (λ reply. CallsAccess thread op reply.read calls.old calls.new) }
        ensures refused { IfErr result (λ fault. MadeOnce N.initial N.threads thread op (Err fault)) }
        ensures not_called { OnErr result (calls.new ≡ calls.old) }
    {
        let mut guard = self.held.lock(self.rt);
        let held = &mut *guard;
        held.access(calls, thread, op)
    }
}

impl<'a, R: Wait, N: Over> Drains for LockedMemory<'a, R, N> {
    fn drain(&self, calls: &mut Calls, thread: u32) -> Result<bool, AllocError>
        requires room { HasDrainRoom calls.old }
        ensures drained { IfOk result (DrainedOnce N.initial N.threads thread) }
        ensures called { OnOk result (CallsDrain calls.old calls.new) }
        ensures not_called { OnErr result (calls.new ≡ calls.old) }
    {
        let mut guard = self.held.lock(self.rt);
        let held = &mut *guard;
        held.drain(calls, thread)
    }

    fn drain_at(&self, calls: &mut Calls, thread: u32, index: u32) -> Result<bool, AllocError>
        requires room { HasDrainRoom calls.old }
        ensures drained { IfOk result (DrainedAtOnce N.initial N.threads thread index) }
        ensures called { OnOk result (CallsDrain calls.old calls.new) }
        ensures not_called { OnErr result (calls.new ≡ calls.old) }
    {
        let mut guard = self.held.lock(self.rt);
        let held = &mut *guard;
        held.drain_at(calls, thread, index)
    }
}
