//! What workers over a memory that is full make with a recorder, and what a drainer does with a locked memory.
ghost use Rattle.std.specs.Prelude.{◌≡◌, All, IfOk};
ghost use Rattle.wm_recorder.specs.Locked.{IsOver};
ghost use Rattle.wm_recorder.specs.declared.access_fault.AccessFault.TheVariants.{Full};

use super::calls::{module_of, two_threads};
use super::modules::STORE_BUFFERING;
use super::same;
use super::shared::{drain, read, write};
use std::alloc::{AllocError, Global};
use std::marker::Brand;
use std::process::Abort;
use std::sync::Wait;
use std::test::Fail;
use wm_event::{End, Initial, Op, Reply, Start};
use wm_list::{List, Text};
use wm_recorder::{AccessFault, Accesses, Calls, LockedMemory, Over, Recorder, Shared};
use wm_run::{OpenGate, RunFault, Stop, ThreadEnd, drainer, gather, work};
use wm_valid::ValidModule;

/// A memory that refuses each access.
struct FullMemory;

impl Accesses for FullMemory {
    ghost refuses = { λ _ _ fault. fault ≡ Full };

    fn access(&self, _calls: &mut Calls, _thread: u32, _op: Op) -> Result<Reply, AccessFault> {
        Err(AccessFault::Full)
    }
}

/// What a worker makes of a thread over a full memory.
fn end(alloc: Global, module: &ValidModule, thread: u32, name: &str) -> Result<ThreadEnd, RunFault>
    ensures { IfOk result (λ e. e.program.value ≡ «module».now) }
{
    let start = Start {
        name: Text::from_string(String::from_str(alloc, name)?),
        args: List::new(alloc),
    };
    work(alloc, module, thread, &start, 6, &FullMemory, &OpenGate)
}

/// What workers of these threads make, which start with `a` and `b`.
fn both_ends(
    alloc: Global,
    module: &ValidModule,
    threads: [u32; 2],
) -> Result<Vec<ThreadEnd>, RunFault>
    ensures { IfOk result (λ ends. All (λ e. e.program.value ≡ «module».now) ends.items) }
{
    let mut ends = Vec::with_capacity(alloc, 2)?;
    ends.push_reserved(end(alloc, module, threads[0], "a")?);
    ends.push_reserved(end(alloc, module, threads[1], "b")?);
    Ok(ends)
}

/// A recorder of two threads over one page, or over two.
fn recorder(alloc: Global, of_two_pages: bool) -> Result<Recorder, AllocError> {
    let initial = Initial::zeros(alloc, if of_two_pages { 2 } else { 1 });
    Recorder::new(alloc, &initial, 2)
}

/// Why these ends make no run with a recorder of two threads without an event, over one page or two.
fn fault(
    alloc: Global,
    module: &ValidModule,
    of_two_pages: bool,
    threads: [u32; 2],
) -> Result<(), RunFault> {
    let ends = both_ends(alloc, module, threads)?;
    match gather(alloc, module, recorder(alloc, of_two_pages)?, ends) {
        Ok(run) => {
            drop(run);
            Ok(())
        }
        Err(fault) => Err(fault),
    }
}

/// An answer, with an allocation failure split off.
fn known(answer: Result<(), RunFault>) -> Result<Option<RunFault>, AllocError> {
    match answer {
        Ok(()) => Ok(None),
        Err(RunFault::OutOfMemory) => Err(AllocError),
        Err(fault) => Ok(Some(fault)),
    }
}

/// The same over store buffering; None if there is no fault.
///
/// # Errors
///
/// Only if an allocation fails.
fn gathered(
    alloc: Global,
    of_two_pages: bool,
    threads: [u32; 2],
) -> Result<Option<RunFault>, AllocError> {
    match module_of(alloc, &STORE_BUFFERING)? {
        Some(module) => {
            let answer = fault(alloc, &module, of_two_pages, threads);
            drop(module);
            known(answer)
        }
        None => Ok(None),
    }
}

/// `bench/refusals` runs this once for each allocation, and makes it fail.
#[test]
fn what_does_not_belong_together_is_not_gathered(rt: HostRuntime) -> Result<(), Fail> {
    let cases = [
        (false, [0, 0], RunFault::Ends(0)),
        (false, [0, 7], RunFault::Ends(1)),
        (true, [0, 0], RunFault::Foreign),
        (false, [0, 1], RunFault::Split(0)),
        (false, [1, 0], RunFault::Split(0)),
    ];
    for (of_two_pages, threads, fault) in cases {
        let found = gathered(rt.alloc(), of_two_pages, threads)?;
        same(&rt, found, Some(fault));
    }
    Ok(())
}

/// Where the end of a worker is.
fn stop_of(end: &ThreadEnd) -> (Stop, End, u32) {
    (end.stop, end.end, end.steps)
}

/// Where a worker of the module over a full memory stops.
fn stopped_over(alloc: Global, module: &ValidModule) -> Option<(Stop, End, u32)> {
    match end(alloc, module, 0, "a") {
        Ok(end) => {
            let stop = stop_of(&end);
            drop(end);
            Some(stop)
        }
        Err(_) => None,
    }
}

/// Where a worker of store buffering over a full memory stops.
fn stopped(alloc: Global) -> Option<(Stop, End, u32)> {
    match module_of(alloc, &STORE_BUFFERING) {
        Ok(Some(module)) => {
            let stop = stopped_over(alloc, &module);
            drop(module);
            stop
        }
        _ => None,
    }
}

#[test]
fn a_full_memory_stops_a_worker_before_its_access(rt: HostRuntime) -> Result<(), Fail> {
    same(&rt, stopped(rt.alloc()), Some((Stop::Memory, End::Cut, 2)));
    Ok(())
}

/// Makes a drainer take `turns` turns over two threads.
fn take<S: Shared>(alloc: Global, shared: &S, turns: u32) -> Result<(), Fail> {
    let _calls = drainer(alloc, shared, 2, turns, &OpenGate)?;
    Ok(())
}

/// Two stores of thread 0 and one of thread 1, of which a drain and a drainer of two turns make the first of each leave.
fn take_turns<R: Abort + AllocGlobal, S: Shared>(rt: &R, shared: &S) -> Result<(), Fail> {
    let alloc = rt.alloc();
    write(alloc, shared, 0, 0, 1)?;
    write(alloc, shared, 0, 8, 2)?;
    write(alloc, shared, 1, 4, 3)?;
    same(rt, drain(alloc, shared, 0)?, true);
    same(rt, read(alloc, shared, 1, 0)?, Some(1));
    same(rt, read(alloc, shared, 1, 8)?, Some(0));
    take(alloc, shared, 2)?;
    same(rt, read(alloc, shared, 1, 8)?, Some(2));
    same(rt, read(alloc, shared, 0, 4)?, Some(3));
    same(rt, drain(alloc, shared, 0)?, false);
    Ok(())
}

/// Three stores of thread 0, of which a drainer of three turns makes the first leave and then the one after the second.
fn pass_one<R: Abort + AllocGlobal, S: Shared>(rt: &R, shared: &S) -> Result<(), Fail> {
    let alloc = rt.alloc();
    write(alloc, shared, 0, 0, 1)?;
    write(alloc, shared, 0, 4, 1)?;
    write(alloc, shared, 0, 8, 1)?;
    take(alloc, shared, 3)?;
    same(rt, read(alloc, shared, 1, 0)?, Some(1));
    same(rt, read(alloc, shared, 1, 4)?, Some(0));
    same(rt, read(alloc, shared, 1, 8)?, Some(1));
    Ok(())
}

/// The same over a recorder under a lock.
fn take_locked_turns<N: Over, R: Abort + AllocGlobal + Wait>(
    rt: &R,
    recorder: Recorder,
) -> Result<(), Fail>
    requires { IsOver N.initial N.threads recorder }
{
    let shared = LockedMemory::<R, N>::new(rt, recorder);
    take_turns(rt, &shared)
}

/// The passing store, over a recorder under a lock.
fn pass_one_locked<N: Over, R: Abort + AllocGlobal + Wait>(
    rt: &R,
    recorder: Recorder,
) -> Result<(), Fail>
    requires { IsOver N.initial N.threads recorder }
{
    let shared = LockedMemory::<R, N>::new(rt, recorder);
    pass_one(rt, &shared)
}

#[test]
fn the_drainer_takes_turns(rt: HostRuntime) -> Result<(), Fail> {
    take_locked_turns::<Brand, _>(&rt, two_threads(rt.alloc())?)
}

/// The second time round the drainer takes the store after the oldest one.
#[test]
fn the_drainer_passes_the_oldest_store(rt: HostRuntime) -> Result<(), Fail> {
    pass_one_locked::<Brand, _>(&rt, two_threads(rt.alloc())?)
}
