//! Steps of a recorder that are repeated if an allocation fails. `bench/refusals` runs the test once for each allocation
//! and makes it fail. If a step made that allocation, the test has to pass, since a failed step changes nothing and the
//! same step then succeeds. If it was made before the steps, the test ends with the allocation failure.
ghost use Rattle.std.specs.Prelude.{◌≡◌};
ghost use Rattle.wm_access.specs.declared.AccessWidth.TheVariants as AccessWidth;
ghost use Rattle.wm_access.specs.declared.MemoryOrder.TheVariants as MemoryOrder;

use super::calls::two_threads;
use super::same;
use std::process::Abort;
use std::test::Fail;
use wm_access::{AccessWidth, MemoryOrder, RmwOperator};
use wm_event::{Op, OpFields, OpKind};
use wm_recorder::{AccessFault, Recorder};

/// How many steps, events and writers of both threads, places of the order, and waiting stores of thread 0 there are.
fn counts(recorder: &Recorder) -> [usize; 7] {
    [
        recorder.history().len(),
        recorder.events(0).len(),
        recorder.events(1).len(),
        recorder.writers(0).len(),
        recorder.writers(1).len(),
        recorder.order().len(),
        recorder.memory().pending(0),
    ]
}

/// Makes an access, and repeats it if an allocation fails; false if something changed meanwhile or it failed
/// again.
fn access(recorder: &mut Recorder, thread: u32, op: Op) -> bool {
    let before = counts(recorder);
    match recorder.step_access(thread, op) {
        Ok(_) => true,
        Err(AccessFault::OutOfMemory) => {
            counts(recorder) == before && recorder.step_access(thread, op).is_ok()
        }
        Err(_) => false,
    }
}

/// The same of a drain.
fn drain(recorder: &mut Recorder, thread: u32) -> bool {
    let before = counts(recorder);
    match recorder.step_drain(thread) {
        Ok(drained) => drained,
        Err(_) => counts(recorder) == before && recorder.step_drain(thread).unwrap_or(false),
    }
}

/// The same for a drain of the store after the oldest one.
fn drain_at(recorder: &mut Recorder, thread: u32) -> bool {
    let before = counts(recorder);
    match recorder.step_drain_at(thread, 1) {
        Ok(drained) => drained,
        Err(_) => counts(recorder) == before && recorder.step_drain_at(thread, 1).unwrap_or(false),
    }
}

/// A plain access of one byte.
fn plain(kind: OpKind, address: u32) -> OpFields
    ensures { result ≡ record { kind = kind; address = address; width = AccessWidth.One; order = MemoryOrder.Unordered } }
{
    OpFields {
        kind,
        address,
        width: AccessWidth::One,
        order: MemoryOrder::Unordered,
    }
}

fn store(address: u32, value: u8) -> Op {
    Op::new(plain(OpKind::Write(u64::from(value)), address))
}

/// 150 stores of thread 0, each at its own address, with an update and a load of thread 1 after each, and two drains after
/// each eighth.
fn record(recorder: &mut Recorder) -> bool {
    for number in 0..150u32 {
        let address = number * 300;
        if !access(recorder, 0, store(address, (number % 256) as u8)) {
            return false;
        }
        let update = OpFields {
            order: MemoryOrder::SeqCst,
            ..plain(OpKind::Rmw(RmwOperator::Add, 1), address)
        };
        if !access(recorder, 1, Op::new(update))
            || !access(recorder, 1, Op::new(plain(OpKind::Read, address)))
        {
            return false;
        }
        if number % 8 == 7 && (!drain_at(recorder, 0) || !drain(recorder, 0)) {
            return false;
        }
    }
    true
}

/// A number that depends on the values that a thread's events read and wrote.
fn digest(recorder: &Recorder, thread: u32) -> u64 {
    let mut sum = 0u64;
    for event in recorder.events(thread) {
        sum = sum
            .wrapping_mul(31)
            .wrapping_add(event.read)
            .wrapping_add(event.written);
    }
    sum
}

/// Records the steps, and compares what was recorded.
fn records<R: Abort>(rt: &R, recorder: &mut Recorder) {
    same(rt, record(recorder), true);
    let wanted = [536, 150, 300, 150, 300, 450, 64];
    same(rt, counts(recorder).as_slice(), wanted.as_slice());
    same(rt, digest(recorder, 0), 16_029_121_844_371_414_091);
    same(rt, digest(recorder, 1), 268_154_834_597_599_936);
}

#[test]
fn refused_steps_change_nothing(rt: HostRuntime) -> Result<(), Fail> {
    let mut recorder = two_threads(rt.alloc())?;
    records(&rt, &mut recorder);
    drop(recorder);
    Ok(())
}
