//! Threads that make the rounds of a plan, one after the other, over one locked memory.
ghost use Rattle.std.specs.Prelude.{◌≡◌, IfErr, IfOk, Some, length, map};
ghost use Rattle.wm_recorder.specs.Locked.{IsOver};
ghost use Rattle.wm_run.specs.Crew.{AreSlotsOf, CanMakeRounds};
ghost use Rattle.wm_run.specs.Own.{IsWithinPlan};
ghost use Rattle.wm_run.specs.RoundPlans.{IsReady, IsRound, IsRoundFault};

use crate::fault::RunFault;
use crate::own::own_runs_are_allowed;
use crate::plan::Plan;
use crate::rounds::assigned::Assigned;
use crate::rounds::bell::Bell;
use crate::rounds::board::{Collects, empty_slots, ends_of};
use crate::rounds::drains::drainer;
use crate::rounds::ended::ThreadEnd;
use crate::rounds::gate::Gate;
use crate::rounds::gathering::gather;
use crate::rounds::spread::Spread;
use crate::rounds::worker::work;
use crate::run::Run;
use std::alloc::{AllocError, Global};
use std::sync::Wait;
use std::sync::atomic::{AtomicBool, Ordering};
use std::thread::{JoinHandle, Scope, Threads};
use wm_recorder::{LockedMemory, Over, Recorder};
use wm_valid::ValidModule;

/// The ends in the slots of a round. An error if a thread found no memory.
fn all_ends(
    alloc: Global,
    is_short: bool,
    slots: Vec<Option<ThreadEnd>>,
) -> Result<Vec<ThreadEnd>, AllocError>
    ensures { IfOk result (λ ends. slots.items ≡ map Some ends.items) }
{
    if is_short {
        return Err(AllocError);
    }
    ends_of(alloc, slots)
}

/// What the threads of a crew share. Between two rounds they wait for the bell `begun`.
#[derive(Drop)]
pub struct Crew<'a, R: Wait, N: Over + Assigned, G: Gate, B: Collects<N>> {
    rt: &'a R,
    alloc: Global,
    module: &'a ValidModule,
    plan: &'a Plan,
    gate: &'a G,
    memory: LockedMemory<'a, R, N>,
    board: &'a B,
    begun: Bell,
    made: Bell,
    is_over: AtomicBool,
    ghost of_module: { «module».now ≡ N.program },
    ghost of_plan: { plan.now ≡ N.plan },
    ghost of_gate: { G.is_open gate.now ≡ N.is_open },
    ghost can: { CanMakeRounds N.program N.plan N.initial N.threads },
}

impl<'a, R: Wait, N: Over + Assigned, G: Gate, B: Collects<N>> Crew<'a, R, N, G, B> {
    /// What the threads of a crew will share.
    pub fn new(
        rt: &'a R,
        alloc: Global,
        module: &'a ValidModule,
        plan: &'a Plan,
        gate: &'a G,
        board: &'a B,
        recorder: Recorder,
    ) -> Crew<'a, R, N, G, B>
        requires of_module { «module».now ≡ N.program }
        requires of_plan { plan.now ≡ N.plan }
        requires of_gate { G.is_open gate.now ≡ N.is_open }
        requires can { CanMakeRounds N.program N.plan N.initial N.threads }
        requires over { IsOver N.initial N.threads recorder }
    {
        Crew {
            rt,
            alloc,
            module,
            plan,
            gate,
            memory: LockedMemory::new(rt, recorder),
            board,
            begun: Bell::new(),
            made: Bell::new(),
            is_over: AtomicBool::new(false),
        }
    }

    /// How many workers it has.
    pub fn workers(&self) -> u32
        ensures { result ≡ length N.plan.starts }
    {
        self.plan.starts.len() as u32
    }

    /// Waits for the next round after `heard` rings. None if there is none.
    fn next_round(&self, heard: u64) -> Option<u64> {
        let rings = self.begun.wait(self.rt, heard);
        if self.is_over.load(Ordering::SeqCst) {
            return None;
        }
        Some(rings)
    }

    /// Makes the part of one thread in one round.
    fn work_once(&self, thread: u32) {
        let Some(start) = self.plan.starts.as_slice().get(thread as usize) else {
            return;
        };
        let end = match work(
            self.alloc,
            self.module,
            thread,
            start,
            self.plan.steps,
            &self.memory,
            self.gate,
        ) {
            Ok(end) => Some(end),
            Err(_) => None,
        };
        if self.board.take_end(thread, end) {
            self.made.ring();
        }
    }

    /// Takes the drains of one round.
    fn drain_once(&self) {
        let drained = drainer(
            self.alloc,
            &self.memory,
            self.workers(),
            self.plan.drains,
            self.gate,
        );
        if self.board.take_drainer(drained.is_err()) {
            self.made.ring();
        }
    }

    /// Gathers a round from its recorder and its slots.
    fn gather_round(
        &self,
        recorder: Recorder,
        is_short: bool,
        slots: Vec<Option<ThreadEnd>>,
    ) -> Result<Run, RunFault>
        requires ready { IsReady N.program N.plan }
        requires over { IsOver N.initial N.threads recorder }
        requires slots { AreSlotsOf N.is_open N.program N.plan slots.items }
        ensures round { IfOk result (IsRound N.is_open N.program N.plan) }
        ensures within { IfOk result IsWithinPlan }
        ensures refused { IfErr result (IsRoundFault N.program N.plan) }
    {
        own_runs_are_allowed();
        let ends = all_ends(self.alloc, is_short, slots)?;
        gather(self.alloc, self.module, recorder, ends)
    }

    /// Makes the round of this number, counted from 0.
    pub fn round(&self, number: u64) -> Result<Run, RunFault>
        requires { IsReady N.program N.plan }
        ensures round { IfOk result (IsRound N.is_open N.program N.plan) }
        ensures within { IfOk result IsWithinPlan }
        ensures refused { IfErr result (IsRoundFault N.program N.plan) }
    {
        let threads = self.plan.starts.len();
        let slots = empty_slots(self.alloc, threads)?;
        let recorder = Recorder::new(self.alloc, self.module.initial(), threads)?;
        self.begun.ring();
        self.made.wait(self.rt, number);
        let recorder = self.memory.exchange(recorder);
        let (is_short, slots) = self.board.exchange(slots);
        self.gather_round(recorder, is_short, slots)
    }

    /// Tells the threads that there is no other round.
    pub fn end(&self) {
        self.is_over.store(true, Ordering::SeqCst);
        self.begun.ring();
    }
}

/// What the threads of a crew do until it tells them that there is no other round.
pub trait Serves {
    /// Makes the part of a thread in each round.
    fn serve(&self, thread: u32);

    /// Takes the drains of each round.
    fn serve_drains(&self);
}

impl<'a, R: Wait, N: Over + Assigned, G: Gate, B: Collects<N>> Serves for Crew<'a, R, N, G, B> {
    fn serve(&self, thread: u32) {
        let mut spread = Spread::new(thread);
        let mut heard = 0;
        for _ in self.rt.forever() {
            match self.next_round(heard) {
                Some(rings) => heard = rings,
                None => return,
            }
            spread.pause();
            self.work_once(thread);
        }
    }

    fn serve_drains(&self) {
        let mut heard = 0;
        for _ in self.rt.forever() {
            match self.next_round(heard) {
                Some(rings) => heard = rings,
                None => return,
            }
            self.drain_once();
        }
    }
}

/// Starts the drainer and this number of workers of a crew, and adds each to `started`.
pub fn start_crew<'s, E: 's, C: Serves + Sync>(
    scope: &'s Scope<'s, E>,
    crew: &'s C,
    threads: u32,
    started: &mut Vec<JoinHandle<()>>,
) -> Result<(), AllocError> {
    started.reserve(1)?;
    started.push_reserved(scope.spawn(move || crew.serve_drains())?);
    for thread in 0..threads {
        started.reserve(1)?;
        started.push_reserved(scope.spawn(move || crew.serve(thread))?);
    }
    Ok(())
}
