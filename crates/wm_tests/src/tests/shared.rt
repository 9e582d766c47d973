//! The accesses and drains of memories that threads share, each by a caller of its own.
use super::accesses::{load, store_word};
use std::alloc::Global;
use wm_access::AccessWidth;
use wm_event::{Op, Reply};
use wm_recorder::{AccessFault, Accesses, Calls, Drains};

/// One access of a thread.
pub(super) fn access<M: Accesses>(
    alloc: Global,
    memory: &M,
    thread: u32,
    op: Op,
) -> Result<Reply, AccessFault> {
    let mut calls = Calls::new(alloc);
    match calls.reserve() {
        Ok(()) => memory.access(&mut calls, thread, op),
        Err(_) => Err(AccessFault::OutOfMemory),
    }
}

/// The value that a thread reads.
pub(super) fn read<M: Accesses>(
    alloc: Global,
    memory: &M,
    thread: u32,
    address: u32,
) -> Result<Option<u64>, AccessFault> {
    Ok(access(alloc, memory, thread, load(address, AccessWidth::Four))?.read)
}

/// Stores a word.
pub(super) fn write<M: Accesses>(
    alloc: Global,
    memory: &M,
    thread: u32,
    address: u32,
    value: u8,
) -> Result<(), AccessFault> {
    let _reply = access(alloc, memory, thread, store_word(address, value))?;
    Ok(())
}

/// Whether a thread's oldest store left its buffer.
pub(super) fn drain<M: Drains>(
    alloc: Global,
    memory: &M,
    thread: u32,
) -> Result<bool, AccessFault> {
    let mut calls = Calls::new(alloc);
    match memory.drain(&mut calls, thread) {
        Ok(drained) => Ok(drained),
        Err(_) => Err(AccessFault::OutOfMemory),
    }
}
