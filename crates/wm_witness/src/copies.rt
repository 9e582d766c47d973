//! Copies of logs and witnesses.
ghost use Rattle.std.specs.Prelude.{◌≡◌, IfOk};

use std::alloc::{AllocError, Global};
use wm_event::{EventId, Log, Start, ThreadLog, Witness};
use wm_list::{List, Text};

/// A copy of a start.
fn copy_start(alloc: Global, start: &Start) -> Result<Start, AllocError>
    ensures { IfOk result (λ copy. copy ≡ start.now) }
{
    let name = String::from_str(alloc, start.name.as_str())?;
    let args = start.args.as_slice().to_vec(alloc)?;
    Ok(Start {
        name: Text::from_string(name),
        args: List::from_vec(args),
    })
}

/// A copy of what a thread did.
fn copy_thread(alloc: Global, thread: &ThreadLog) -> Result<ThreadLog, AllocError>
    ensures { IfOk result (λ copy. copy ≡ thread.now) }
{
    let start = copy_start(alloc, &thread.start)?;
    let events = thread.events.as_slice().to_vec(alloc)?;
    Ok(ThreadLog {
        start,
        end: thread.end,
        steps: thread.steps,
        events: List::from_vec(events),
    })
}

/// A copy of a log.
pub(crate) fn copy_log(alloc: Global, log: &Log) -> Result<Log, AllocError>
    ensures { IfOk result (λ copy. copy ≡ log.now) }
{
    let mut threads = List::new(alloc);
    for thread in log.threads() {
        threads.push(copy_thread(alloc, thread)?)?;
    }
    Ok(Log::new(threads))
}

/// A copy of the writers of a thread's reads.
fn copy_writers(
    alloc: Global,
    thread: &List<List<EventId>>,
) -> Result<List<List<EventId>>, AllocError>
    ensures { IfOk result (λ copy. copy ≡ thread.now) }
{
    let mut copy = List::new(alloc);
    for writers in thread.as_slice() {
        let bytes = writers.as_slice().to_vec(alloc)?;
        copy.push(List::from_vec(bytes))?;
    }
    Ok(copy)
}

/// A copy of a witness.
pub(crate) fn copy_witness(alloc: Global, witness: &Witness) -> Result<Witness, AllocError>
    ensures { IfOk result (λ copy. copy ≡ witness.now) }
{
    let mut writers = List::new(alloc);
    for thread in witness.writers.as_slice() {
        writers.push(copy_writers(alloc, thread)?)?;
    }
    let order = witness.order.as_slice().to_vec(alloc)?;
    Ok(Witness {
        writers,
        order: List::from_vec(order),
    })
}
