//! What a history records, in lists whose capacity is reserved before a step is made.
ghost use Rattle.std.specs.Prelude.{◌≡◌, ◌+◌, ◌<◌, ◌≤◌, ◌++◌, ◌∷◌, [], length, IfOk, OnOk};
ghost use Rattle.wm_recorder.specs.Transcript.{AddsAccess, HasRoom, HasThreadRoom, IsBlank, IsPartsOf, SameItems, SameThread, access_items};

use std::alloc::{AllocError, Global};
use wm_event::{Event, EventId, EventKey, Op};
use wm_list::{Growing, List};
use wm_memory::HistoryStep;

/// The events of a thread, and for each of them the writers of the bytes that it read.
#[derive(Drop)]
pub struct ThreadRecord {
    pub events: Growing<Event>,
    pub writers: Growing<List<EventId>>,
}

impl ThreadRecord {
    /// Reserves space for one event.
    fn reserve(&mut self) -> Result<(), AllocError>
        ensures same { SameThread self.old self.new }
        ensures room { OnOk result (HasThreadRoom self.new) }
    {
        self.events.reserve(1)?;
        self.writers.reserve(1)
    }

    /// Adds an event within the reserved capacity.
    fn add(&mut self, event: Event, writers: List<EventId>)
        requires { HasThreadRoom self.old }
        ensures events { self.new.events.items ≡ self.old.events.items ++ event ∷ [] }
        ensures writers { self.new.writers.items ≡ self.old.writers.items ++ writers ∷ [] }
    {
        self.events.push_reserved(event);
        self.writers.push_reserved(writers);
    }
}

/// What a recorder recorded.
#[derive(Drop)]
pub struct Parts {
    /// The steps, the oldest first.
    pub history: List<HistoryStep>,
    /// The events of each thread.
    pub events: List<List<Event>>,
    /// For each thread and each of its events, the writers of the bytes that it read, from the lowest address.
    pub writers: List<List<List<EventId>>>,
    /// The events in the order in which they were made.
    pub order: List<EventKey>,
}

/// The steps so far, the oldest first, what each thread recorded, and the order of the accesses.
#[derive(Drop)]
pub struct Transcript {
    pub history: Growing<HistoryStep>,
    pub threads: Vec<ThreadRecord>,
    pub order: Growing<EventKey>,
}

impl Transcript {
    /// The empty transcript for `threads` threads.
    pub fn new(alloc: Global, threads: usize) -> Result<Self, AllocError>
        requires { threads ≤ 16 }
        ensures { IfOk result (λ transcript. IsBlank threads transcript) }
    {
        let mut records = Vec::with_capacity(alloc, threads)?;
        for thread in 0..threads {
            let _at = thread;
            records.push(ThreadRecord {
                events: Growing::new(alloc),
                writers: Growing::new(alloc),
            })?;
        }
        Ok(Transcript {
            history: Growing::new(alloc),
            threads: records,
            order: Growing::new(alloc),
        })
    }

    /// The lists of the transcript, with an entry for each thread.
    pub fn into_parts(self, alloc: Global) -> Result<Parts, AllocError>
        ensures { IfOk result (λ parts. IsPartsOf self parts) }
    {
        let Transcript {
            history,
            threads,
            order,
        } = self;
        let mut events = Vec::with_capacity(alloc, threads.len())?;
        let mut writers = Vec::with_capacity(alloc, threads.len())?;
        for record in threads {
            let ThreadRecord {
                events: own_events,
                writers: own_writers,
            } = record;
            events.push(own_events.into_list())?;
            writers.push(own_writers.into_list())?;
        }
        Ok(Parts {
            history: history.into_list(),
            events: List::from_vec(events),
            writers: List::from_vec(writers),
            order: order.into_list(),
        })
    }

    /// Reserves space for an access of a thread and for a drain before it.
    pub fn reserve(&mut self, thread: usize) -> Result<(), AllocError>
        requires { thread < length self.old.threads.items }
        ensures same { SameItems self.old self.new }
        ensures room { OnOk result (HasRoom thread self.new) }
    {
        self.history.reserve(2)?;
        self.order.reserve(1)?;
        self.threads[thread].reserve()?;
        Ok(())
    }

    /// Adds an access of a thread within the reserved capacity, after a drain if one came first.
    pub fn add_access(
        &mut self,
        drained: bool,
        thread: u32,
        op: Op,
        event: Event,
        writers: List<EventId>,
    )
        requires { HasRoom thread self.old }
        ensures { AddsAccess drained thread op event writers self.old self.new }
    {
        add_steps(&mut self.history, drained, thread, op);
        self.order.push_reserved(event.key());
        self.threads[thread as usize].add(event, writers);
    }
}

/// Adds an access to the steps, after a drain if one came first.
fn add_steps(history: &mut Growing<HistoryStep>, drained: bool, thread: u32, op: Op)
    requires { length history.old.items + 2 ≤ history.old.capacity }
    ensures { history.new.items ≡ history.old.items ++ access_items drained thread op }
{
    if drained {
        history.push_reserved(HistoryStep::Drain(thread));
    }
    history.push_reserved(HistoryStep::Access(thread, op));
}
