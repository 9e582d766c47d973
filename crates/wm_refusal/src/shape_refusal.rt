//! Why a log and its witness are not a run.

use std::alloc::{AllocError, Global};
use std::fmt;
use wm_event::{Event, EventId, EventKey, Log, MAX_EVENTS, Misshapen, ShapeFault, Witness};
use wm_phrase::{Count, EventPhrase};

/// What is wrong with the order of the events.
#[derive(Clone, Copy)]
pub(crate) enum OrderFault {
    /// It lists this event, which the log doesn't have.
    Unknown(EventKey),
    /// It lists this event twice.
    Twice(EventKey),
    /// It doesn't list this event.
    Missing(EventKey),
}

impl fmt::Display for OrderFault {
    fn fmt<W: fmt::Write>(&self, f: &mut fmt::Formatter<W>) -> fmt::Result {
        match self {
            OrderFault::Unknown(key) => write!(f, "It lists {key}, and the log has no such event."),
            OrderFault::Twice(key) => write!(f, "It lists {key} twice."),
            OrderFault::Missing(key) => write!(f, "It doesn't list {key}."),
        }
    }
}

/// How many events a log has.
fn count_events(log: &Log) -> usize {
    let mut count = 0usize;
    for thread in log.threads() {
        count = count.saturating_add(thread.events.len());
    }
    count
}

/// The number of an event among all events of a log, thread by thread; None if there is no such event.
fn number_in_log(log: &Log, key: EventKey) -> Option<usize> {
    log.event(key)?;
    let mut number = key.number as usize;
    for thread in log.threads().iter().take(key.thread as usize) {
        number = number.saturating_add(thread.events.len());
    }
    Some(number)
}

/// The first event of a log that isn't marked, by its number among all events.
fn first_unmarked(log: &Log, marked: &[bool]) -> Option<EventKey> {
    for thread in log.threads() {
        for event in thread.events.as_slice() {
            let number = number_in_log(log, event.key())?;
            if marked.get(number) != Some(&true) {
                return Some(event.key());
            }
        }
    }
    None
}

/// The first fault of the order of the events; None if it has no fault.
///
/// # Errors
///
/// Only if an allocation fails.
pub(crate) fn order_fault(
    alloc: Global,
    log: &Log,
    order: &[EventKey],
) -> Result<Option<OrderFault>, AllocError> {
    let mut listed = Vec::new(alloc);
    for _ in 0..count_events(log) {
        listed.push(false)?;
    }
    for key in order {
        let Some(number) = number_in_log(log, *key) else {
            return Ok(Some(OrderFault::Unknown(*key)));
        };
        match listed.get_mut(number) {
            Some(is_listed) if !*is_listed => *is_listed = true,
            _ => return Ok(Some(OrderFault::Twice(*key))),
        }
    }
    Ok(first_unmarked(log, listed.as_slice()).map(OrderFault::Missing))
}

/// A thread for whose events the witness doesn't have exactly one list each.
#[derive(Clone, Copy)]
struct Miscounted {
    thread: usize,
    lists: usize,
    events: usize,
}

/// The first such thread.
fn first_miscounted(log: &Log, witness: &Witness) -> Option<Miscounted> {
    let all_lists = witness.writers.as_slice();
    for (number, (lists, thread)) in all_lists.iter().zip(log.threads()).enumerate() {
        if lists.len() != thread.events.len() {
            return Some(Miscounted {
                thread: number,
                lists: lists.len(),
                events: thread.events.len(),
            });
        }
    }
    None
}

/// Adds how many lists of writers there are, if the witness doesn't have exactly one for each event of each thread.
fn add_list_counts(text: &mut String, log: &Log, witness: &Witness) -> Result<(), AllocError> {
    let lists = witness.writers.len();
    let threads = log.threads().len();
    if lists != threads {
        return writeln!(
            text,
            "The witness has writers for {}. Expected: {threads}, as the log has.",
            Count(lists as u64, "thread")
        );
    }
    let Some(
        Miscounted {
            thread,
            lists,
            events,
        },
    ) = first_miscounted(log, witness)
    else {
        return Ok(());
    };
    writeln!(
        text,
        "The witness has writers for {} of thread {thread}. Expected: {events}, as the log has.",
        Count(lists as u64, "event")
    )
}

/// How many bytes an event reads.
fn bytes_read(event: &Event) -> u8 {
    if event.reads() {
        event.width.bytes()
    } else {
        0
    }
}

/// The value of an event that is too wide for it: the value read, or the value written.
fn wide_value(event: &Event) -> u64 {
    let bits = u32::from(event.width.bytes()).saturating_mul(8);
    if bits < 64 && event.read >> bits == 0 {
        event.written
    } else {
        event.read
    }
}

/// Adds which byte of an event has a writer that doesn't exist.
fn add_missing_writer(
    text: &mut String,
    log: &Log,
    key: EventKey,
    writers: &[EventId],
) -> Result<(), AllocError> {
    for (byte, writer) in writers.iter().enumerate() {
        if let EventId::At(at) = writer {
            if log.event(*at).is_none() {
                return writeln!(
                    text,
                    "Byte {byte} of {key} has the writer {writer}, and the log has no such event."
                );
            }
        }
    }
    Ok(())
}

/// Adds what is wrong with an event.
fn add_event_fault(
    text: &mut String,
    fault: ShapeFault,
    key: EventKey,
    event: &Event,
    writers: &[EventId],
    memory: usize,
) -> Result<(), AllocError> {
    let bytes = event.width.bytes();
    match fault {
        ShapeFault::WriterCount(_) => writeln!(
            text,
            "The witness has {} for {key}. Expected: {}, one for each byte that it reads.",
            Count(writers.len() as u64, "writer"),
            bytes_read(event)
        )?,
        ShapeFault::RangeOutOfMemory(_) => writeln!(
            text,
            "The last byte of {key} is at address {}. The memory has {memory} bytes.",
            u64::from(event.address)
                .saturating_add(u64::from(bytes))
                .saturating_sub(1)
        )?,
        ShapeFault::ValueTooWide(_) => writeln!(
            text,
            "The value {} doesn't fit the {} of {key}.",
            wide_value(event),
            Count(u64::from(bytes), "byte")
        )?,
        _ => {}
    }
    let article = if event.is_atomic() { "an" } else { "a" };
    writeln!(text, "{key} is {article} {}.", EventPhrase::decimal(event))
}

/// The event that a fault names.
fn event_of(fault: ShapeFault) -> Option<EventKey> {
    match fault {
        ShapeFault::WriterCount(key) => key,
        ShapeFault::WriterMissing(key)
        | ShapeFault::RangeOutOfMemory(key)
        | ShapeFault::ValueTooWide(key) => Some(key),
        ShapeFault::TooManyEvents | ShapeFault::OrderNotPermutation | ShapeFault::OutOfMemory =>
            None,
    }
}

/// Adds what is wrong with the log or the witness as a whole.
fn add_log_fault(
    alloc: Global,
    text: &mut String,
    fault: ShapeFault,
    log: &Log,
    witness: &Witness,
) -> Result<(), AllocError> {
    let events = count_events(log);
    match fault {
        ShapeFault::TooManyEvents => writeln!(
            text,
            "The log has {events} events. At most {MAX_EVENTS} are supported."
        ),
        ShapeFault::OrderNotPermutation => {
            let order = witness.order.as_slice();
            writeln!(
                text,
                "The order has {} for {}. It has to list each event exactly once.",
                Count(order.len() as u64, "item"),
                Count(events as u64, "event")
            )?;
            match order_fault(alloc, log, order)? {
                Some(fault) => writeln!(text, "{fault}"),
                None => Ok(()),
            }
        }
        _ => add_list_counts(text, log, witness),
    }
}

/// Why a log and its witness are not a run over a memory of `memory` bytes.
///
/// # Errors
///
/// Only if an allocation fails.
pub fn shape_reason(
    alloc: Global,
    misshapen: &Misshapen,
    memory: usize,
) -> Result<String, AllocError> {
    let Misshapen {
        log,
        witness,
        fault,
    } = misshapen;
    let mut text = String::new(alloc);
    let Some(key) = event_of(*fault) else {
        add_log_fault(alloc, &mut text, *fault, log, witness)?;
        return Ok(text);
    };
    let Some(event) = log.event(key) else {
        return Ok(text);
    };
    let writers = witness.writers(key);
    if let ShapeFault::WriterMissing(_) = fault {
        add_missing_writer(&mut text, log, key, writers)?;
    }
    add_event_fault(&mut text, *fault, key, event, writers, memory)?;
    Ok(text)
}
