//! The worker of one thread.
ghost use Rattle.std.specs.Prelude.{◌≡◌, ◌+◌, ◌<◌, ◌≤◌, ◌^◌, ◌||◌, ℕ, Ok, None, Some, [], true, length, IfErr, IfOk, IfSome};
ghost use Rattle.wm_event.specs.Limits.{max_steps};
ghost use Rattle.wm_logfile.specs.Document.{EndFits};
ghost use Rattle.wm_machine.specs.Run.{end_of as config_end};
ghost use Rattle.wm_machine.specs.Start.{started};
ghost use Rattle.wm_machine.specs.State.{config_of, need_of};
ghost use Rattle.wm_machine.specs.Stepping.{IsIn};
ghost use Rattle.wm_machine.specs.declared.thread.Need.TheVariants as Need;
ghost use Rattle.wm_run.specs.Reached.{HasRun, LeadsOn, is_before_access};
ghost use Rattle.wm_run.specs.Stops.{HasStopped, IsRefused, IsRefusedAfter, StopsAs, is_own};
ghost use Rattle.wm_run.specs.Worker.{IsGiven, IsWorkFault, IsWorkOf};
ghost use Rattle.wm_run.specs.declared.rounds.ended.Stop.TheVariants as Stop;

use crate::fault::RunFault;
use crate::launch::copy_start;
use crate::rounds::ended::{Stop, ThreadEnd};
use crate::rounds::gate::Gate;
use crate::runner::end_of;
use std::alloc::{AllocError, Global};
use std::snapshot::Snapshot;
use wm_event::{Op, Start};
use wm_machine::{AdvanceFault, StartFault, Stepped, Thread};
use wm_recorder::{AccessFault, Accesses, Calls};
use wm_valid::ValidModule;

/// Makes one access of a thread, or reports why it doesn't. The gate is asked first.
fn access<S: Accesses, G: Gate>(
    running: &mut Thread,
    calls: &mut Calls,
    thread: u32,
    op: Op,
    shared: &S,
    gate: &G,
) -> Result<Option<Stop>, AllocError>
    requires asks { (read : ℕ) → need_of read running.old ≡ Need.Access op }
    requires few { length calls.old.events < 2 ^ 32 }
    ensures same { running.new.module ≡ running.old.module }
    ensures more { length calls.new.events ≤ length calls.old.events + 1 }
    ensures undrained { calls.new.drains ≡ calls.old.drains }
    ensures made { result ≡ Ok None → LeadsOn thread running.old calls.old.events running.new calls.new.events }
    ensures stopped { IfOk result (λ r.
        IfSome r (StopsAs (G.is_open gate.now) running.old calls.old.events running.new calls.new.events)) }
    ensures refused { result ≡ Ok (Some Stop.Memory) → IsRefused S.refuses running.old.module thread (config_of running.old) }
{
    calls.reserve()?;
    if !gate.before(thread, calls.events().len()) {
        return Ok(Some(Stop::Gate));
    }
    match shared.access(calls, thread, op) {
        Ok(reply) => match running.advance(Some(reply)) {
            Ok(()) => Ok(None),
            Err(AdvanceFault::OutOfMemory) => Err(AllocError),
        },
        Err(AccessFault::OutOfMemory) => Err(AllocError),
        Err(_) => Ok(Some(Stop::Memory)),
    }
}

/// Makes the next step of a thread, or reports why it doesn't.
fn step<S: Accesses, G: Gate>(
    running: &mut Thread,
    calls: &mut Calls,
    thread: u32,
    shared: &S,
    gate: &G,
) -> Result<Option<Stop>, AllocError>
    requires { length calls.old.events < 2 ^ 32 }
    ensures same { running.new.module ≡ running.old.module }
    ensures more { length calls.new.events ≤ length calls.old.events + 1 }
    ensures undrained { calls.new.drains ≡ calls.old.drains }
    ensures made { result ≡ Ok None → LeadsOn thread running.old calls.old.events running.new calls.new.events }
    ensures stopped { IfOk result (λ r.
        IfSome r (StopsAs (G.is_open gate.now) running.old calls.old.events running.new calls.new.events)) }
    ensures refused { result ≡ Ok (Some Stop.Memory) → IsRefused S.refuses running.old.module thread (config_of running.old) }
{
    let stepped = match running.step() {
        Ok(stepped) => stepped,
        Err(AdvanceFault::OutOfMemory) => return Err(AllocError),
    };
    match stepped {
        Stepped::Local => Ok(None),
        Stepped::Access(op) => access(running, calls, thread, op, shared, gate),
        Stepped::Ended(_) => Ok(Some(Stop::Own)),
    }
}

/// Starts a thread.
fn start_thread<'m>(
    alloc: Global,
    module: &'m ValidModule,
    thread: u32,
    start: &Start,
) -> Result<Thread<'m>, RunFault>
    ensures ok { IfOk result (IsIn «module».now (started «module».now start.now.name start.now.args)) }
    ensures refused { IfErr result (IsWorkFault «module».now thread start.now) }
{
    match Thread::start(alloc, module, start.name.as_str(), start.args.as_slice()) {
        Ok(running) => Ok(running),
        Err(StartFault::OutOfMemory) => Err(RunFault::OutOfMemory),
        Err(fault) => Err(RunFault::Start(thread as usize, fault)),
    }
}

/// Makes steps of a thread until it stops, at most `steps`. Returns how many it made, and why it stopped.
fn run_until_stop<S: Accesses, G: Gate>(
    running: &mut Thread,
    calls: &mut Calls,
    thread: u32,
    steps: u32,
    shared: &S,
    gate: &G,
) -> Result<(u32, Stop), AllocError>
    requires few { steps ≤ max_steps }
    requires first { calls.old.events ≡ [] }
    ensures same { running.new.module ≡ running.old.module }
    ensures undrained { calls.new.drains ≡ calls.old.drains }
    ensures stopped { IfOk result (λ r.
        HasStopped (G.is_open gate.now) thread running.old running.new calls.new.events steps r.0 r.1) }
    ensures refused { IfOk result (λ r.
        r.1 ≡ Stop.Memory → IsRefused S.refuses running.old.module thread (config_of running.new)) }
{
    let mut made = 0u32;
    loop {
        match running.run(steps - made) {
            Ok(local) => made += local,
            Err(AdvanceFault::OutOfMemory) => return Err(AllocError),
        }
        if made >= steps {
            return Ok((steps, Stop::Own));
        }
        if let Some(stop) = step(running, calls, thread, shared, gate)? {
            return Ok((made, stop));
        }
        made += 1;
    }
}

/// The steps that a thread made from its start until it stopped.
#[derive(Drop)]
struct StepsMade {
    count: u32,
    calls: Calls,
    stop: Stop,
}

/// Makes steps of a started thread until it stops, at most `steps`.
fn make_steps<S: Accesses, G: Gate>(
    alloc: Global,
    running: &mut Thread,
    thread: u32,
    steps: u32,
    shared: &S,
    gate: &G,
) -> Result<StepsMade, AllocError>
    requires { steps ≤ max_steps }
    ensures same { running.new.module ≡ running.old.module }
    ensures stopped { IfOk result (λ r.
        HasStopped (G.is_open gate.now) thread running.old running.new r.calls.events steps r.count r.stop) }
    ensures undrained { IfOk result (λ r. r.calls.drains ≡ 0) }
    ensures refused { IfOk result (λ r.
        r.stop ≡ Stop.Memory → IsRefused S.refuses running.old.module thread (config_of running.new)) }
{
    let mut calls = Calls::new(alloc);
    let (count, stop) = run_until_stop(running, &mut calls, thread, steps, shared, gate)?;
    Ok(StepsMade { count, calls, stop })
}

/// The result of a thread after these steps.
fn finished(
    module: &ValidModule,
    thread: u32,
    start: Start,
    running: Thread,
    made: StepsMade,
) -> ThreadEnd
    requires same { running.module ≡ «module».now }
    requires run { HasRun «module».now thread start made.calls.events made.count (config_of running) }
    requires stopped { (is_own made.stop || is_before_access «module».now (config_of running)) ≡ true }
    ensures given { IsGiven «module».now thread start made.count made.stop result }
    ensures calls { result.calls ≡ made.calls }
    ensures end { result.end ≡ config_end (config_of running.entry) }
    ensures fits { EndFits result.end }
{
    let end = end_of(&running);
    drop(running);
    ThreadEnd {
        program: Snapshot::of(module),
        thread,
        start,
        end,
        steps: made.count,
        calls: made.calls,
        stop: made.stop,
    }
}

/// Runs one thread of a module over a shared memory, until it ends, has made its steps, or is cut because the gate
/// answers false or the memory refuses its next access. The gate is asked before each access, while no lock is held.
///
/// # Errors
///
/// `Start` if the thread doesn't start, `OutOfMemory` if an allocation fails.
pub fn work<S: Accesses, G: Gate>(
    alloc: Global,
    module: &ValidModule,
    thread: u32,
    start: &Start,
    steps: u32,
    shared: &S,
    gate: &G,
) -> Result<ThreadEnd, RunFault>
    requires { steps ≤ max_steps }
    ensures end { IsWorkOf (G.is_open gate.now) «module».now thread start.now steps result }
    ensures refused { IfOk result (λ e.
        e.stop ≡ Stop.Memory → IsRefusedAfter S.refuses «module».now thread start.now e.calls.events e.steps) }
{
    let own = copy_start(alloc, start)?;
    let mut running = start_thread(alloc, module, thread, start)?;
    match make_steps(alloc, &mut running, thread, steps, shared, gate) {
        Ok(made) => Ok(finished(module, thread, own, running, made)),
        Err(_) => {
            drop(running);
            drop(own);
            Err(RunFault::OutOfMemory)
        }
    }
}
