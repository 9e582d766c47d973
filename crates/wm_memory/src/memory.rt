//! Memory with a store buffer for each thread.
ghost use Rattle.std.specs.Prelude.{◌≡◌, ◌+◌, ◌<◌, ◌≤◌, length, slice_get, take, Some, None, MatchBool, MatchResult, IfOk, [], if◌then◌else◌};
ghost use Rattle.wm_access.specs.AccessWidth.{bytes_of};
ghost use Rattle.wm_event.specs.Event.{reads};
ghost use Rattle.wm_event.specs.Shape.{read_width};
ghost use Rattle.wm_memory.specs.Limits.{max_pending};
ghost use Rattle.wm_memory.specs.Memory.{Answers, Buffered, CannotLeave, DoesAtomic, DoesLoad, DoesStore, DrainFits, Drains, DrainsFirst, FaultIs, Fits, Fitting, HasNumber, MakesAccess, IsPending, MayLeave, PublishesAt, Waits, plain_store};
ghost use Rattle.wm_memory.specs.Reply.{padded, reply_of};
ghost use Rattle.wm_memory.specs.Texts.{mem_fault_text};
ghost use Rattle.wm_access.specs.declared.MemoryOrder.TheVariants.{SeqCst};
ghost use Rattle.std.specs.Prelude.{true};

use crate::MAX_PENDING;
use crate::buffer::Buffer;
use crate::cells::{Cells, ReadResult};
use std::alloc::{AllocError, Global};
use std::fmt;
use std::marker::Model;
use thiserror::Error;
use wm_access::MemoryOrder;
use wm_event::{Event, EventId, EventKey, Initial, Op, OpKind, Reply};

/// Why an access is refused.
#[derive(Clone, Copy, Debug, PartialEq, Eq, Error)]
pub enum MemFault {
    /// There is no such thread.
    NoThread,
    /// The range ends past the memory.
    OutOfBounds,
    /// An allocation failed.
    OutOfMemory,
}

impl fmt::Display for MemFault {
    ghost output = { λ fault. Some (mem_fault_text fault) };

    fn fmt<W: fmt::Write>(&self, f: &mut fmt::Formatter<W>) -> fmt::Result {
        match self {
            MemFault::NoThread => f.write_str("NoThread"),
            MemFault::OutOfBounds => f.write_str("OutOfBounds"),
            MemFault::OutOfMemory => f.write_str("OutOfMemory"),
        }
    }
}

/// Shared bytes with their writers, and the stores that wait in each thread's buffer.
#[derive(Drop)]
pub struct Memory {
    cells: Cells,
    buffers: Vec<Buffer>,
}

impl Model for Memory {
    ghost use Rattle.wm_memory.specs.Memory.{State};

    ghost Value = { State };

    ghost view = { λ a. record { cells = a.cells; buffers = a.buffers.items } };
}

/// What an access did: its event, and the writer of each byte that it read, the lowest first; the remaining writers are
/// Init.
#[derive(Clone, Copy)]
pub struct Made {
    pub event: Event,
    pub writers: [EventId; 8],
}

impl Made {
    /// The event with the writers of its range, if it reads.
    fn of(event: Event, reading: ReadResult) -> Self
        ensures event { result.event ≡ event }
        ensures writers { result.writers ≡ (if reads event then reading.writers else padded []) }
    {
        if event.reads() {
            let writers = reading.writers;
            return Made { event, writers };
        }
        Made {
            event,
            writers: [EventId::Init; 8],
        }
    }

    /// The writers of the bytes that it read, the lowest first.
    pub fn writers_read(&self) -> &[EventId]
        ensures { result.now ≡ take (read_width self.now.event) self.now.writers }
    {
        &self.writers[..self.bytes_read()]
    }

    /// How many bytes it read.
    fn bytes_read(&self) -> usize
        ensures width { result ≡ read_width self.now.event }
        ensures few { result ≤ 8 }
    {
        if !self.event.reads() {
            return 0;
        }
        self.event.width.bytes() as usize
    }

    /// The reply to the thread.
    pub fn reply(&self) -> Reply
        ensures { result ≡ reply_of self.now.event self.now.writers }
    {
        let writers = self.writers;
        Reply {
            read: self.read(),
            stored: self.event.writes(),
            writers,
        }
    }

    /// The value read; None if the access reads nothing.
    fn read(&self) -> Option<u64>
        ensures { result ≡ (if reads self.now.event then Some self.now.event.read else None) }
    {
        if !self.event.reads() {
            return None;
        }
        Some(self.event.read)
    }
}

impl Memory {
    /// A memory with the bytes of Init for `threads` threads, at most 16, which have made no access yet.
    ///
    /// # Errors
    ///
    /// Only if an allocation fails.
    pub fn new(alloc: Global, initial: &Initial, threads: usize) -> Result<Self, AllocError>
        requires { threads ≤ 16 }
        ensures { IfOk result (λ memory. Fits threads initial.now [] memory) }
    {
        let cells = Cells::new(alloc, initial)?;
        let mut buffers = Vec::with_capacity(alloc, threads)?;
        for thread in 0..threads {
            let _at = thread;
            buffers.push(Buffer::new(alloc)?)?;
        }
        Ok(Memory { cells, buffers })
    }

    /// The bytes of Init.
    pub fn initial(&self) -> &Initial
        ensures { result.now ≡ self.now.cells.initial }
    {
        self.cells.initial()
    }

    /// How many threads there are.
    pub fn threads(&self) -> usize
        ensures { result ≡ length self.now.buffers }
    {
        self.buffers.len()
    }

    /// How many accesses a thread made; 0 if there is no such thread.
    pub fn accesses(&self, thread: u32) -> u32
        ensures made { (b : Buffered) → slice_get self.now.buffers thread ≡ Some b → result ≡ b.accesses }
        ensures none { length self.now.buffers ≤ thread → result ≡ 0 }
    {
        match self.buffers.get(thread as usize) {
            Some(buffer) => buffer.accesses(),
            None => 0,
        }
    }

    /// The waiting stores of a thread, the oldest first; none if there is no such thread.
    pub fn stores(&self, thread: u32) -> &[Event]
        ensures waiting { (b : Buffered) → slice_get self.now.buffers thread ≡ Some b → result.now ≡ b.stores }
        ensures none { length self.now.buffers ≤ thread → result.now ≡ [] }
    {
        match self.buffers.get(thread as usize) {
            Some(buffer) => buffer.stores(),
            None => &[],
        }
    }

    /// Whether an access of the thread would drain its oldest store first: a plain store into a full buffer.
    pub fn drains_first(&self, thread: u32, op: Op) -> bool
        requires { thread < length self.now.buffers }
        ensures { DrainsFirst thread op self.now result }
    {
        if self.pending(thread) != MAX_PENDING {
            return false;
        }
        is_plain_store(&op)
    }

    /// How many stores of a thread wait; 0 if there is no such thread.
    pub fn pending(&self, thread: u32) -> usize
        ensures count { IsPending thread self.now result }
        ensures few { result ≤ max_pending }
    {
        match self.buffers.get(thread as usize) {
            Some(buffer) => buffer.len(),
            None => 0,
        }
    }

    /// Publishes the oldest waiting store of a thread; false, and nothing changes, if none waits. It doesn't allocate.
    pub fn drain(&mut self, thread: u32) -> bool
        ensures drained { Drains thread 0 result self.old self.new }
        ensures fits { DrainFits thread 0 result self.old self.new }
    {
        if self.pending(thread) == 0 {
            return false;
        }
        self.publish(thread, 0);
        true
    }

    /// Publishes the waiting store of a thread at `index`, counted from 0 at the oldest, if it overlaps no older one.
    /// If it does, or if there is no such store: false, and nothing changes. It doesn't allocate.
    pub fn drain_at(&mut self, thread: u32, index: u32) -> bool
        ensures drained { Drains thread index result self.old self.new }
        ensures fits { DrainFits thread index result self.old self.new }
    {
        if !self.may_leave(thread, index as usize) {
            return false;
        }
        self.publish(thread, index as usize);
        true
    }

    /// Whether a store of the thread waits at `index`, counted from 0 at the oldest, that overlaps no older one.
    pub fn may_leave(&self, thread: u32, index: usize) -> bool
        ensures { MatchBool result (MayLeave thread index self.now) (CannotLeave thread index self.now) }
    {
        match self.buffers.get(thread as usize) {
            Some(buffer) => buffer.may_leave(index),
            None => false,
        }
    }

    /// Publishes the waiting store of a thread at `index`, counted from 0 at the oldest.
    fn publish(&mut self, thread: u32, index: usize)
        requires { Waits thread index self.old }
        ensures { PublishesAt thread index self.old self.new }
    {
        let store = self.buffers[thread as usize].take_at(index);
        self.cells.put(&store);
    }

    /// An atomic access: publishes the thread's stores, reads, and then writes at once.
    fn atomic(&mut self, thread: u32, op: Op) -> Made
        requires there { thread < length self.old.buffers }
        requires few { HasNumber thread self.old }
        ensures event { DoesAtomic thread op self.old result.event result.writers self.new }
    {
        let fields = op.fields();
        let buffer = &mut self.buffers[thread as usize];
        self.cells.put_all(buffer.stores());
        let number = buffer.publish_all();
        let reading = self.cells.read(&[], fields.address, fields.width);
        let event = op.event(EventKey { thread, number }, reading.value);
        self.cells.put(&event);
        Made::of(event, reading)
    }

    /// A plain read.
    fn load(&mut self, thread: u32, op: Op) -> Made
        requires there { thread < length self.old.buffers }
        requires few { HasNumber thread self.old }
        ensures event { DoesLoad thread op self.old result.event result.writers self.new }
    {
        let fields = op.fields();
        let buffer = &mut self.buffers[thread as usize];
        let number = buffer.count();
        let reading = self
            .cells
            .read(buffer.stores(), fields.address, fields.width);
        let event = op.event(EventKey { thread, number }, reading.value);
        Made::of(event, reading)
    }

    /// A plain store into a buffer with room.
    fn store(&mut self, thread: u32, op: Op) -> Made
        requires there { thread < length self.old.buffers }
        requires few { HasNumber thread self.old }
        requires room { (b : Buffered) → slice_get self.old.buffers thread ≡ Some b → length b.stores < max_pending }
        ensures event { DoesStore thread op self.old result.event result.writers self.new }
    {
        let buffer = &mut self.buffers[thread as usize];
        let number = buffer.accesses();
        let event = op.event(EventKey { thread, number }, 0);
        buffer.add(event);
        Made {
            event,
            writers: [EventId::Init; 8],
        }
    }

    /// A plain store, after a drain of the oldest one if the buffer is full.
    fn plain_store(&mut self, thread: u32, op: Op) -> Result<Made, AllocError>
        requires there { thread < length self.old.buffers }
        requires range { op.address + bytes_of op.width ≤ length self.old.cells.initial }
        requires few { HasNumber thread self.old }
        requires store { plain_store op.order op.kind ≡ true }
        ensures ok { MatchResult result (λ made. Fitting thread op self.old made.event made.writers self.new) (λ e. self.new ≡ self.old) }
    {
        let fields = op.fields();
        self.cells.make_room(fields.address, fields.width)?;
        if self.pending(thread) < MAX_PENDING {
            return Ok(self.store(thread, op));
        }
        self.publish(thread, 0);
        Ok(self.store(thread, op))
    }

    /// An atomic access that may write.
    fn atomic_write(&mut self, thread: u32, op: Op) -> Result<Made, AllocError>
        requires there { thread < length self.old.buffers }
        requires range { op.address + bytes_of op.width ≤ length self.old.cells.initial }
        requires few { HasNumber thread self.old }
        requires atomic { op.order ≡ SeqCst }
        ensures ok { MatchResult result (λ made. Fitting thread op self.old made.event made.writers self.new) (λ e. self.new ≡ self.old) }
    {
        let fields = op.fields();
        self.cells.make_room(fields.address, fields.width)?;
        Ok(self.atomic(thread, op))
    }

    /// Makes one access of a thread, which has made fewer than 2^32 - 1. A plain store goes into the thread's buffer;
    /// if 64 stores wait there, the oldest is drained first. An atomic access first publishes all stores of its thread,
    /// then reads and writes at once; a compare-exchange that doesn't find the expected value does so too, and is a
    /// read. Each byte read comes from the thread's newest waiting store there, else from the latest published one,
    /// else from Init.
    ///
    /// # Errors
    ///
    /// With nothing changed, in this order: [`MemFault::NoThread`] if there is no such thread,
    /// [`MemFault::OutOfBounds`] if the range ends past the memory, [`MemFault::OutOfMemory`] if an allocation fails.
    pub fn access(&mut self, thread: u32, op: Op) -> Result<Reply, MemFault>
        requires { HasNumber thread self.old }
        ensures ok { MatchResult result (λ reply. Answers thread op self.old reply self.new) (λ fault. self.new ≡ self.old) }
        ensures fault { FaultIs result (length self.old.buffers ≤ thread) (length self.old.cells.initial < op.address + bytes_of op.width) }
    {
        match self.make(thread, op) {
            Ok(made) => Ok(made.reply()),
            Err(fault) => Err(fault),
        }
    }

    /// The same as [`Memory::access`], with the event and its writers instead of the reply.
    ///
    /// # Errors
    ///
    /// As for [`Memory::access`].
    pub fn make(&mut self, thread: u32, op: Op) -> Result<Made, MemFault>
        requires few { HasNumber thread self.old }
        ensures ok { MakesAccess thread op self.old self.new result }
        ensures fault { FaultIs result (length self.old.buffers ≤ thread) (length self.old.cells.initial < op.address + bytes_of op.width) }
    {
        if thread as usize >= self.buffers.len() {
            return Err(MemFault::NoThread);
        }
        let fields = op.fields();
        if fields.address as usize + fields.width.bytes() as usize > self.cells.len() {
            return Err(MemFault::OutOfBounds);
        }
        match fields.order {
            MemoryOrder::SeqCst => match fields.kind {
                OpKind::Read => Ok(self.atomic(thread, op)),
                _ => match self.atomic_write(thread, op) {
                    Ok(made) => Ok(made),
                    Err(_) => Err(MemFault::OutOfMemory),
                },
            },
            MemoryOrder::Unordered => match fields.kind {
                OpKind::Read => Ok(self.load(thread, op)),
                OpKind::Write(_) => match self.plain_store(thread, op) {
                    Ok(made) => Ok(made),
                    Err(_) => Err(MemFault::OutOfMemory),
                },
                _ => unreachable!(),
            },
        }
    }
}

/// Whether an access is a plain store, which goes into its thread's buffer.
fn is_plain_store(op: &Op) -> bool
    ensures { result ≡ plain_store op.now.order op.now.kind }
{
    let fields = op.fields();
    match fields.order {
        MemoryOrder::SeqCst => false,
        MemoryOrder::Unordered => matches!(fields.kind, OpKind::Write(_)),
    }
}
