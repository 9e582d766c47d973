//! A witness for a log of which none is known.
ghost use Rattle.std.specs.Prelude.{◌≡◌, ◌++◌, IfOk, OnOk, flat_map, map};
ghost use Rattle.wm_witness.specs.Unknown.{IsStart, IsUnknown, from_init, keys_of, thread_from_init};

use std::alloc::{AllocError, Global};
use wm_event::{Event, EventId, EventKey, Log, ThreadLog, Witness};
use wm_list::List;

/// Init as the writer of each byte that an event reads.
fn event_writers(alloc: Global, event: &Event) -> Result<List<EventId>, AllocError>
    ensures { IfOk result (λ list. list ≡ from_init event.now) }
{
    let mut list = List::new(alloc);
    let count = if event.reads() {
        event.width.bytes()
    } else {
        0
    };
    for _ in 0..count {
        list.push(EventId::Init)?;
    }
    Ok(list)
}

/// Init as the writer of each byte that a thread reads.
fn thread_writers(alloc: Global, thread: &ThreadLog) -> Result<List<List<EventId>>, AllocError>
    ensures { IfOk result (λ list. list ≡ thread_from_init thread.now) }
{
    let mut list = List::new(alloc);
    for event in thread.events.as_slice() {
        list.push(event_writers(alloc, event)?)?;
    }
    Ok(list)
}

/// Appends the names of a thread's events.
fn add_keys(order: &mut List<EventKey>, thread: &ThreadLog) -> Result<(), AllocError>
    ensures { OnOk result (order.new ≡ order.old ++ keys_of thread.now) }
{
    for event in thread.events.as_slice() {
        order.push(event.key())?;
    }
    Ok(())
}

/// The events of a log, one thread after the other.
fn thread_by_thread(alloc: Global, threads: &[ThreadLog]) -> Result<List<EventKey>, AllocError>
    ensures { IfOk result (λ order. order ≡ flat_map keys_of threads.now) }
{
    let mut order = List::new(alloc);
    for thread in threads {
        add_keys(&mut order, thread)?;
    }
    Ok(order)
}

/// Init as the writer of each byte that a log reads.
fn all_from_init(
    alloc: Global,
    threads: &[ThreadLog],
) -> Result<List<List<List<EventId>>>, AllocError>
    ensures { IfOk result (λ list. list ≡ map thread_from_init threads.now) }
{
    let mut list = List::new(alloc);
    for thread in threads {
        list.push(thread_writers(alloc, thread)?)?;
    }
    Ok(list)
}

/// A witness to start from where none is known: each byte is from Init, and the order has one thread after the other. If
/// the number of events, their ranges and their values are right, the log is well shaped with it.
///
/// # Errors
///
/// Only if an allocation fails.
pub fn unknown_witness(alloc: Global, log: &Log) -> Result<Witness, AllocError>
    ensures witness { IfOk result (IsUnknown log.now) }
    ensures shape { IfOk result (IsStart log.now) }
{
    let writers = all_from_init(alloc, log.threads())?;
    let order = thread_by_thread(alloc, log.threads())?;
    Ok(Witness { writers, order })
}
