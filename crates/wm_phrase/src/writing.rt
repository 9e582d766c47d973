//! Numbers and names of events, written into a string or a formatter without a formatter of their own.

use itoa::Buffer;
use std::fmt;
use wm_event::{EventId, EventKey, MAX_THREADS};

/// Writes a number in decimal.
///
/// # Errors
///
/// Only if the writer fails.
pub fn write_number<W: fmt::Write>(out: &mut W, number: u64) -> fmt::Result {
    let mut digits = Buffer::new();
    out.write_str(digits.format(number))
}

/// The number of each thread of a log with the dot that follows it in the names of its events, to be written at once.
const THREADS: [&str; MAX_THREADS] = [
    "0.", "1.", "2.", "3.", "4.", "5.", "6.", "7.", "8.", "9.", "10.", "11.", "12.", "13.", "14.",
    "15.",
];

/// Writes the name of a listed event, as `0.1`.
///
/// # Errors
///
/// Only if the writer fails.
pub fn write_key<W: fmt::Write>(out: &mut W, key: EventKey) -> fmt::Result {
    match THREADS.get(key.thread as usize) {
        Some(thread) => out.write_str(thread)?,
        None => {
            write_number(out, u64::from(key.thread))?;
            out.write_str(".")?;
        }
    }
    write_number(out, u64::from(key.number))
}

/// Writes the name of an event, as `0.1` or `init`.
///
/// # Errors
///
/// Only if the writer fails.
pub fn write_id<W: fmt::Write>(out: &mut W, id: EventId) -> fmt::Result {
    match id {
        EventId::Init => out.write_str("init"),
        EventId::At(key) => write_key(out, key),
    }
}
