//! Rows of buffered memory, with values from outside, and each call once on its happy path.
ghost use Rattle.std.specs.Prelude.{◌<◌, ◌≤◌};

use super::accesses::{atomic_load, exchange, load, load_byte, store_byte, store_word};
use super::{same, same_in};
use std::alloc::Global;
use std::process::Abort;
use std::test::Fail;
use wm_access::AccessWidth;
use wm_event::{EventId, EventKey, Initial, Op, Reply};
use wm_memory::{MemFault, Memory};

// Each call of a memory is in a function of its own, which hands none of its contract on, so a test is proved in
// seconds.

/// A memory of a page of zeros.
fn zeros(alloc: Global, threads: usize) -> Result<Memory, Fail>
    requires { threads ≤ 16 }
{
    let initial = Initial::zeros(alloc, 1);
    Ok(Memory::new(alloc, &initial, threads)?)
}

fn pending(memory: &Memory, thread: u32) -> usize {
    memory.pending(thread)
}

fn accesses(memory: &Memory, thread: u32) -> u32 {
    memory.accesses(thread)
}

fn drain(memory: &mut Memory, thread: u32) -> bool {
    memory.drain(thread)
}

fn drain_at(memory: &mut Memory, thread: u32, index: u32) -> bool {
    memory.drain_at(thread, index)
}

/// An access of a thread that made fewer than 1,000.
fn access<R: Abort>(rt: &R, memory: &mut Memory, thread: u32, op: Op) -> Result<Reply, MemFault> {
    assert!(rt; memory.accesses(thread) < 1_000);
    memory.access(thread, op)
}

fn reads<R: Abort>(rt: &R, memory: &mut Memory, thread: u32, address: u32) -> Option<u64> {
    match access(rt, memory, thread, load_byte(address)) {
        Ok(reply) => reply.read,
        Err(_) => None,
    }
}

/// A step of a test: a thread, and what the step takes and gives.
#[derive(Clone, Copy)]
enum Step {
    /// A store of a byte to an address.
    StoreByte(u32, u32, u8),
    /// A store of a word to an address.
    StoreWord(u32, u32, u8),
    /// A load of the byte at an address, and its value.
    Reads(u32, u32, u64),
    /// An atomic load of the byte at an address.
    AtomicLoad(u32, u32),
    /// How many stores wait.
    Pending(u32, usize),
    /// How many accesses were made.
    Accesses(u32, u32),
    /// A drain of the oldest store, and whether there was one.
    Drain(u32, bool),
    /// A drain of the store at an index, counted from 0 at the oldest, and whether it left.
    DrainAt(u32, u32, bool),
}

/// Makes the step at an index.
fn take<R: Abort>(rt: &R, memory: &mut Memory, number: usize, step: Step) -> Result<(), MemFault> {
    match step {
        Step::StoreByte(thread, address, value) => {
            access(rt, memory, thread, store_byte(address, value))?;
        }
        Step::StoreWord(thread, address, value) => {
            access(rt, memory, thread, store_word(address, value))?;
        }
        Step::Reads(thread, address, value) => {
            same_in(rt, &number, reads(rt, memory, thread, address), Some(value));
        }
        Step::AtomicLoad(thread, address) => {
            access(rt, memory, thread, atomic_load(address, AccessWidth::One))?;
        }
        Step::Pending(thread, count) => same_in(rt, &number, pending(memory, thread), count),
        Step::Accesses(thread, count) => same_in(rt, &number, accesses(memory, thread), count),
        Step::Drain(thread, left) => same_in(rt, &number, drain(memory, thread), left),
        Step::DrainAt(thread, index, left) => {
            same_in(rt, &number, drain_at(memory, thread, index), left);
        }
    }
    Ok(())
}

/// Makes the steps over a memory of two threads.
fn take_all<R: Abort>(rt: &R, memory: &mut Memory, steps: &[Step]) -> Result<(), MemFault> {
    for (number, step) in steps.iter().enumerate() {
        take(rt, memory, number, *step)?;
    }
    Ok(())
}

/// What a memory of two threads gives whose thread 0 stored to the first 65 bytes.
const FULL_BUFFER: [Step; 8] = [
    Step::Pending(0, 64),
    Step::Reads(1, 0, 1),
    Step::Reads(1, 1, 0),
    Step::Reads(0, 1, 1),
    Step::AtomicLoad(0, 0),
    Step::Pending(0, 0),
    Step::Reads(1, 64, 1),
    Step::Accesses(0, 67),
];

/// Makes the stores and then the steps.
fn store_65<R: Abort>(rt: &R, memory: &mut Memory) -> Result<(), MemFault> {
    same(rt, memory.threads(), 2);
    same(rt, memory.initial().len(), 65_536);
    for address in 0..65u32 {
        take(rt, memory, 0, Step::StoreByte(0, address, 1))?;
    }
    take_all(rt, memory, &FULL_BUFFER)
}

#[test]
fn a_full_buffer_drains_its_oldest_store(rt: HostRuntime) -> Result<(), Fail> {
    let mut memory = zeros(rt.alloc(), 2)?;
    let taken = store_65(&rt, &mut memory);
    drop(memory);
    Ok(taken?)
}

/// Stores of which the second overlaps the first.
const OVERLAPPING: [Step; 14] = [
    Step::StoreWord(0, 0, 1),
    Step::StoreWord(0, 2, 2),
    Step::StoreWord(0, 8, 3),
    Step::DrainAt(0, 1, false),
    Step::DrainAt(0, 3, false),
    Step::DrainAt(2, 0, false),
    Step::DrainAt(0, 2, true),
    Step::Pending(0, 2),
    Step::Reads(1, 8, 3),
    Step::Reads(1, 0, 0),
    Step::Drain(0, true),
    Step::Drain(0, true),
    Step::Drain(0, false),
    Step::Reads(1, 0, 1),
];

#[test]
fn a_store_leaves_before_older_ones_that_it_does_not_overlap(rt: HostRuntime) -> Result<(), Fail> {
    let mut memory = zeros(rt.alloc(), 2)?;
    let taken = take_all(&rt, &mut memory, &OVERLAPPING);
    let last = reads(&rt, &mut memory, 1, 2);
    drop(memory);
    taken?;
    same(&rt, last, Some(2));
    Ok(())
}

/// Why an access is refused; None if it is made.
fn fault_of<R: Abort>(rt: &R, memory: &mut Memory, thread: u32, op: Op) -> Option<MemFault> {
    access(rt, memory, thread, op).err()
}

/// A memory of four bytes for one thread.
fn four_bytes(alloc: Global) -> Result<Memory, Fail> {
    let initial = Initial::of(alloc, &[1, 2, 3, 4])?;
    Ok(Memory::new(alloc, &initial, 1)?)
}

/// An access of no thread and one past the end are refused, and one of the four bytes is made.
fn refuses_two<R: Abort>(rt: &R, memory: &mut Memory) -> Result<(), MemFault> {
    let outside = load(1, AccessWidth::Four);
    let fault = fault_of(rt, memory, 1, outside);
    same(rt, fault, Some(MemFault::NoThread));
    let fault = fault_of(rt, memory, 0, outside);
    same(rt, fault, Some(MemFault::OutOfBounds));
    let reply = access(rt, memory, 0, load(0, AccessWidth::Four))?;
    same(rt, reply.read, Some(0x0403_0201));
    same(rt, accesses(memory, 0), 1);
    Ok(())
}

#[test]
fn accesses_are_refused_in_order(rt: HostRuntime) -> Result<(), Fail> {
    let mut memory = four_bytes(rt.alloc())?;
    let refused = refuses_two(&rt, &mut memory);
    drop(memory);
    Ok(refused?)
}

#[test]
fn a_fault_has_its_name(rt: HostRuntime) -> Result<(), Fail> {
    let text = format!(in rt.alloc(); "{}", MemFault::OutOfBounds)?;
    same(&rt, text.as_str(), "OutOfBounds");
    Ok(())
}

/// The store of thread 0 with this number.
fn own(number: u32) -> EventId {
    EventId::At(EventKey { thread: 0, number })
}

/// Makes an access, and compares whether it stored, what it read, and the writers of the bytes read.
fn replies<R: Abort>(
    rt: &R,
    memory: &mut Memory,
    op: Op,
    wanted: (bool, Option<u64>),
    writers: [EventId; 8],
) -> Result<(), MemFault> {
    let reply = access(rt, memory, 0, op)?;
    same(rt, (reply.stored, reply.read), wanted);
    same(rt, reply.writers.as_slice(), writers.as_slice());
    Ok(())
}

/// Makes a compare-exchange of 8 bytes, and compares whether it stored and what it read.
fn exchanges<R: Abort>(
    rt: &R,
    memory: &mut Memory,
    op: Op,
    wanted: (bool, Option<u64>),
) -> Result<(), MemFault> {
    let reply = access(rt, memory, 0, op)?;
    same(rt, (reply.stored, reply.read), wanted);
    Ok(())
}

/// A store of the second byte, and a load of it and of the byte before it.
fn own_store_is_named<R: Abort>(rt: &R, memory: &mut Memory) -> Result<(), MemFault> {
    let mut writers = [EventId::Init; 8];
    replies(rt, memory, store_byte(1, 7), (true, None), writers)?;
    writers[1] = own(0);
    let both = load(0, AccessWidth::Two);
    replies(rt, memory, both, (false, Some(0x700)), writers)
}

/// An exchange that finds another value than it expects, and one that finds it.
fn second_exchanges<R: Abort>(rt: &R, memory: &mut Memory) -> Result<(), MemFault> {
    exchanges(rt, memory, exchange(1, 2), (false, Some(0x700)))?;
    same(rt, pending(memory, 0), 0);
    exchanges(rt, memory, exchange(0x700, 2), (true, Some(0x700)))?;
    same(rt, reads(rt, memory, 0, 0), Some(2));
    Ok(())
}

/// The store with its load, and then the exchanges.
fn replies_name_writers<R: Abort>(rt: &R, memory: &mut Memory) -> Result<(), MemFault> {
    own_store_is_named(rt, memory)?;
    second_exchanges(rt, memory)
}

#[test]
fn a_reply_names_the_writers_of_the_bytes_read(rt: HostRuntime) -> Result<(), Fail> {
    let mut memory = zeros(rt.alloc(), 1)?;
    let named = replies_name_writers(&rt, &mut memory);
    drop(memory);
    Ok(named?)
}
