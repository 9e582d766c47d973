//! Rows of recorded histories, with values from outside, and each call once on its happy path.
mod locked;

ghost use Rattle.std.specs.Prelude.{◌<◌};

use super::accesses::{load_byte, store_byte, store_word};
use super::calls::two_threads;
use super::same;
use std::alloc::{AllocError, Global};
use std::process::Abort;
use std::test::Fail;
use wm_event::{EventId, EventKey, MAX_EVENTS, Op, Reply};
use wm_memory::HistoryStep;
use wm_recorder::{AccessFault, Parts, Recorder};

// Each call of a recorder is in a function of its own, which hands none of its contract on, so a test is proved in
// seconds, and not in a minute.

fn access(recorder: &mut Recorder, thread: u32, op: Op) -> Result<Reply, AccessFault> {
    recorder.step_access(thread, op)
}

fn drain(recorder: &mut Recorder, thread: u32) -> Result<bool, AllocError> {
    recorder.step_drain(thread)
}

fn drain_at(recorder: &mut Recorder, thread: u32, index: u32) -> Result<bool, AllocError> {
    recorder.step_drain_at(thread, index)
}

/// How many steps there are.
fn steps(recorder: &Recorder) -> usize {
    recorder.history().len()
}

/// The step at an index.
fn step_at(recorder: &Recorder, place: usize) -> Option<HistoryStep> {
    recorder.history().get(place).copied()
}

/// How many stores of a thread wait.
fn pending(recorder: &Recorder, thread: u32) -> usize {
    recorder.memory().pending(thread)
}

fn event_count(recorder: &Recorder, thread: u32) -> usize {
    recorder.events(thread).len()
}

fn writer_count(recorder: &Recorder, thread: u32) -> usize {
    recorder.writers(thread).len()
}

fn order_length(recorder: &Recorder) -> usize {
    recorder.order().len()
}

/// How many steps, events and writers of a thread, places of the order and waiting stores there are.
fn counts(recorder: &Recorder, thread: u32) -> [usize; 5] {
    [
        steps(recorder),
        event_count(recorder, thread),
        writer_count(recorder, thread),
        order_length(recorder),
        pending(recorder, thread),
    ]
}

/// A step that is repeated if an allocation fails, after a look at what was recorded.
fn step<R: Abort>(
    rt: &R,
    recorder: &mut Recorder,
    thread: u32,
    op: Op,
) -> Result<Reply, AccessFault> {
    let before = counts(recorder, thread);
    match access(recorder, thread, op) {
        Err(AccessFault::OutOfMemory) => {
            same(rt, counts(recorder, thread).as_slice(), before.as_slice());
            access(recorder, thread, op)
        }
        made => made,
    }
}

fn reads<R: Abort>(rt: &R, recorder: &mut Recorder, thread: u32, address: u32) -> Option<u64> {
    match step(rt, recorder, thread, load_byte(address)) {
        Ok(reply) => reply.read,
        Err(_) => None,
    }
}

/// Stores of thread 0 to the first 65 bytes, of which the last one makes the first one leave.
fn store_65<R: Abort>(rt: &R, recorder: &mut Recorder) -> Result<(), AccessFault> {
    same(rt, recorder.threads(), 2);
    same(rt, recorder.initial().len(), 65_536);
    for address in 0..65u32 {
        step(rt, recorder, 0, store_byte(address, 1))?;
    }
    Ok(())
}

/// What the 65 stores left.
fn first_left<R: Abort>(rt: &R, recorder: &Recorder) {
    same(rt, steps(recorder), 66);
    same(rt, step_at(recorder, 64), Some(HistoryStep::Drain(0)));
    let last = HistoryStep::Access(0, store_byte(64, 1));
    same(rt, step_at(recorder, 65), Some(last));
    same(rt, pending(recorder, 0), 64);
}

#[test]
fn a_forced_drain_is_a_step_of_its_own(rt: HostRuntime) -> Result<(), Fail> {
    let mut recorder = two_threads(rt.alloc())?;
    let stored = store_65(&rt, &mut recorder);
    if stored.is_ok() {
        first_left(&rt, &recorder);
    }
    drop(recorder);
    Ok(stored?)
}

/// Makes as many accesses as a recorder may, the first a store of thread 0 that waits.
fn fill<R: Abort>(rt: &R, recorder: &mut Recorder) -> Result<(), AccessFault> {
    step(rt, recorder, 0, store_byte(0, 1))?;
    for _made in 1..MAX_EVENTS {
        step(rt, recorder, 1, load_byte(0))?;
    }
    Ok(())
}

/// Why an access is refused; None if it is made.
fn fault_of(recorder: &mut Recorder, thread: u32, op: Op) -> Option<AccessFault> {
    match access(recorder, thread, op) {
        Ok(_) => None,
        Err(fault) => Some(fault),
    }
}

/// A full recorder refuses each access, and makes no step.
fn refuses<R: Abort>(rt: &R, recorder: &mut Recorder) -> Result<(), AccessFault> {
    fill(rt, recorder)?;
    let refused = [
        (2, 0, AccessFault::NoThread),
        (0, 65_536, AccessFault::OutOfBounds),
        (0, 0, AccessFault::Full),
    ];
    for (thread, address, fault) in refused {
        let found = fault_of(recorder, thread, load_byte(address));
        same(rt, found, Some(fault));
    }
    same(rt, steps(recorder), MAX_EVENTS);
    Ok(())
}

#[test]
fn a_full_recorder_refuses_accesses(rt: HostRuntime) -> Result<(), Fail> {
    let mut recorder = two_threads(rt.alloc())?;
    let refused = refuses(&rt, &mut recorder);
    drop(recorder);
    Ok(refused?)
}

#[test]
fn a_fault_has_its_name(rt: HostRuntime) -> Result<(), Fail> {
    let text = format!(in rt.alloc(); "{}", AccessFault::Full)?;
    same(&rt, text.as_str(), "Full");
    Ok(())
}

/// The store that waits in a full recorder leaves, as a step of its own, and nothing else does.
fn drains_once<R: Abort>(rt: &R, recorder: &mut Recorder) -> Result<(), Fail> {
    fill(rt, recorder)?;
    same(rt, drain(recorder, 0)?, true);
    same(rt, steps(recorder), MAX_EVENTS + 1);
    same(rt, drain(recorder, 0)?, false);
    same(rt, steps(recorder), MAX_EVENTS + 1);
    Ok(())
}

#[test]
fn a_full_recorder_drains(rt: HostRuntime) -> Result<(), Fail> {
    let mut recorder = two_threads(rt.alloc())?;
    let drained = drains_once(&rt, &mut recorder);
    drop(recorder);
    drained
}

/// Stores 1 at 0, 2 at 2 and 3 at 8, each of four bytes.
fn store_three<R: Abort>(rt: &R, recorder: &mut Recorder) -> Result<(), AccessFault> {
    for (address, value) in [(0, 1), (2, 2), (8, 3)] {
        step(rt, recorder, 0, store_word(address, value))?;
    }
    Ok(())
}

/// The third of the stores leaves, and not the second, which overlaps the first.
fn third_leaves<R: Abort>(rt: &R, recorder: &mut Recorder) -> Result<(), AllocError> {
    same(rt, drain_at(recorder, 0, 1)?, false);
    same(rt, steps(recorder), 3);
    same(rt, drain_at(recorder, 0, 2)?, true);
    same(rt, step_at(recorder, 3), Some(HistoryStep::DrainAt(0, 2)));
    same(rt, pending(recorder, 0), 2);
    Ok(())
}

/// Three stores, of which the other thread sees the third alone.
fn third_is_seen<R: Abort>(rt: &R, recorder: &mut Recorder) -> Result<(), Fail> {
    store_three(rt, recorder)?;
    third_leaves(rt, recorder)?;
    same(rt, reads(rt, recorder, 1, 8), Some(3));
    same(rt, reads(rt, recorder, 1, 0), Some(0));
    same(rt, drain_at(recorder, 0, 2)?, false);
    Ok(())
}

#[test]
fn a_store_leaves_before_older_ones_that_it_does_not_overlap(rt: HostRuntime) -> Result<(), Fail> {
    let mut recorder = two_threads(rt.alloc())?;
    let seen = third_is_seen(&rt, &mut recorder);
    drop(recorder);
    seen
}

/// The value that an event read.
fn read_of(parts: &Parts, thread: usize, number: usize) -> Option<u64> {
    Some(parts.events.get(thread)?.get(number)?.read)
}

/// The writer of the first byte that an event read.
fn writer_of(parts: &Parts, thread: usize, number: usize) -> Option<EventId> {
    parts.writers.get(thread)?.get(number)?.get(0).copied()
}

/// Thread 0 reads a byte before and after a store of thread 1 to it is drained.
fn read_twice<R: Abort>(rt: &R, recorder: &mut Recorder) -> Result<(), Fail> {
    step(rt, recorder, 1, store_byte(3, 9))?;
    step(rt, recorder, 0, load_byte(3))?;
    drain(recorder, 1)?;
    step(rt, recorder, 0, load_byte(3))?;
    recorder.recorded_log_is_valid();
    Ok(())
}

/// What is recorded of the two reads.
fn two_reads<R: Abort>(rt: &R, alloc: Global) -> Result<Parts, Fail> {
    let mut recorder = two_threads(alloc)?;
    match read_twice(rt, &mut recorder) {
        Ok(()) => Ok(parts_of(recorder)?),
        Err(fault) => {
            drop(recorder);
            Err(fault)
        }
    }
}

fn parts_of(recorder: Recorder) -> Result<Parts, AllocError> {
    recorder.into_parts()
}

fn key(thread: u32, number: u32) -> EventKey {
    EventKey { thread, number }
}

/// What the reads of thread 0 read, and which write they read from.
fn reads_are<R: Abort>(rt: &R, parts: &Parts) {
    same(rt, read_of(parts, 0, 0), Some(0));
    same(rt, read_of(parts, 0, 1), Some(9));
    same(rt, writer_of(parts, 0, 0), Some(EventId::Init));
    same(rt, writer_of(parts, 0, 1), Some(EventId::At(key(1, 0))));
}

/// How many steps there are, and the order of the events.
fn order_is<R: Abort>(rt: &R, parts: &Parts) {
    same(rt, parts.history.len(), 4);
    let order = [key(1, 0), key(0, 0), key(0, 1)];
    same(rt, parts.order.as_slice(), order.as_slice());
}

#[test]
fn what_is_recorded_is_given_as_lists(rt: HostRuntime) -> Result<(), Fail> {
    let parts = two_reads(&rt, rt.alloc())?;
    order_is(&rt, &parts);
    reads_are(&rt, &parts);
    drop(parts);
    Ok(())
}
