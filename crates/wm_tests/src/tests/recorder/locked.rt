//! A recorder under its lock, on one thread and on two.
ghost use Rattle.wm_recorder.specs.Locked.{IsOver};

use super::super::accesses::load_byte;
use super::super::calls::two_threads;
use super::super::same;
use super::super::shared::{access, drain, read, write};
use super::{event_count, order_length, pending, steps};
use std::alloc::Global;
use std::marker::Brand;
use std::process::Abort;
use std::sync::Wait;
use std::test::Fail;
use std::thread;
use std::thread::Threads;
use wm_recorder::{AccessFault, Calls, LockedMemory, Over, Recorder, Shared};

/// Why a load is refused; None if it is made.
fn refusal<S: Shared>(alloc: Global, shared: &S, thread: u32) -> Option<AccessFault> {
    access(alloc, shared, thread, load_byte(0)).err()
}

/// How many steps, places of the order and waiting stores of thread 0 there are.
fn sizes(recorder: &Recorder) -> [usize; 3] {
    [
        steps(recorder),
        order_length(recorder),
        pending(recorder, 0),
    ]
}

/// Three stores of two threads, and a drain of the first one's oldest.
fn drain_first<R: Abort + AllocGlobal, S: Shared>(rt: &R, shared: &S) -> Result<(), AccessFault> {
    let alloc = rt.alloc();
    write(alloc, shared, 0, 0, 1)?;
    write(alloc, shared, 0, 8, 2)?;
    write(alloc, shared, 1, 4, 3)?;
    same(rt, drain(alloc, shared, 0)?, true);
    same(rt, read(alloc, shared, 1, 0)?, Some(1));
    same(rt, read(alloc, shared, 1, 8)?, Some(0));
    Ok(())
}

/// Drains of the other thread, and an access of none.
fn drain_second<R: Abort + AllocGlobal, S: Shared>(rt: &R, shared: &S) -> Result<(), AccessFault> {
    let alloc = rt.alloc();
    same(rt, drain(alloc, shared, 1)?, true);
    same(rt, drain(alloc, shared, 1)?, false);
    same(rt, read(alloc, shared, 0, 4)?, Some(3));
    same(rt, refusal(alloc, shared, 2), Some(AccessFault::NoThread));
    Ok(())
}

/// Both of these drains.
fn drain_both<R: Abort + AllocGlobal, S: Shared>(rt: &R, shared: &S) -> Result<(), AccessFault> {
    drain_first(rt, shared)?;
    drain_second(rt, shared)
}

/// Three stores of two threads, of which a drain shows the oldest of each to the other.
fn drain_and_read<N: Over, R: Abort + AllocGlobal + Wait>(
    rt: &R,
    recorder: Recorder,
) -> Result<(), Fail>
    requires { IsOver N.initial N.threads recorder }
{
    let shared = LockedMemory::<R, N>::new(rt, recorder);
    let drained = drain_both(rt, &shared);
    let recorder = shared.into_recorder();
    if drained.is_ok() {
        same(rt, sizes(&recorder), [8, 6, 1]);
    }
    drop(recorder);
    Ok(drained?)
}

#[test]
fn a_drain_shows_the_oldest_store_to_the_others(rt: HostRuntime) -> Result<(), Fail> {
    drain_and_read::<Brand, _>(&rt, two_threads(rt.alloc())?)
}

/// Whether the store of thread 0 at this index, counted from 0 at the oldest, left its buffer.
fn drain_at<S: Shared>(alloc: Global, shared: &S, index: u32) -> Result<bool, AccessFault> {
    let mut calls = Calls::new(alloc);
    match shared.drain_at(&mut calls, 0, index) {
        Ok(drained) => Ok(drained),
        Err(_) => Err(AccessFault::OutOfMemory),
    }
}

/// Stores 1 at 0, 2 at 2 and 3 at 8, each of four bytes, and drains the second and then the third of these.
fn store_three<S: Shared>(alloc: Global, shared: &S) -> Result<[bool; 2], AccessFault> {
    for (address, value) in [(0, 1), (2, 2), (8, 3)] {
        write(alloc, shared, 0, address, value)?;
    }
    Ok([drain_at(alloc, shared, 1)?, drain_at(alloc, shared, 2)?])
}

/// Reads each of three words some times.
fn read_often<S: Shared>(alloc: Global, shared: &S) -> Result<(), AccessFault> {
    for turn in 0..30u32 {
        read(alloc, shared, 1, turn % 3 * 4)?;
    }
    Ok(())
}

/// What one thread drained while the other read, and what is read then.
fn third_is_seen<R: Abort + AllocGlobal, S: Shared>(
    rt: &R,
    shared: &S,
    drained: Result<[bool; 2], AccessFault>,
    seen: Result<(), AccessFault>,
) -> Result<(), AccessFault> {
    let drained = drained?;
    seen?;
    same(rt, drained, [false, true]);
    let alloc = rt.alloc();
    same(rt, read(alloc, shared, 1, 8)?, Some(3));
    same(rt, read(alloc, shared, 1, 0)?, Some(0));
    Ok(())
}

/// What both threads recorded.
fn both_recorded<R: Abort>(rt: &R, recorder: &Recorder) {
    recorder.recorded_log_is_valid();
    same(rt, event_count(recorder, 0), 3);
    same(rt, event_count(recorder, 1), 32);
    same(rt, sizes(recorder), [36, 35, 2]);
}

/// One thread stores and drains while another reads.
fn drain_beside_reads<N: Over + Send + Sync, R: Abort + AllocGlobal + Threads + Wait + Sync>(
    rt: &R,
    recorder: Recorder,
) -> Result<(), Fail>
    requires { IsOver N.initial N.threads recorder }
{
    let shared = LockedMemory::<R, N>::new(rt, recorder);
    let alloc = rt.alloc();
    let (drained, seen) = thread::join(
        rt,
        || store_three(alloc, &shared),
        || read_often(alloc, &shared),
    );
    let made = third_is_seen(rt, &shared, drained, seen);
    let recorder = shared.into_recorder();
    if made.is_ok() {
        both_recorded(rt, &recorder);
    }
    drop(recorder);
    Ok(made?)
}

#[test]
fn two_threads_drain_and_read(rt: HostRuntime) -> Result<(), Fail> {
    drain_beside_reads::<Brand, _>(&rt, two_threads(rt.alloc())?)
}
