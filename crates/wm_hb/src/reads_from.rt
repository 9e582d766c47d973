//! The writers of the bytes of a read, by runs of bytes with one writer.
ghost use Rattle.std.specs.Prelude.{◌≡◌, ◌≢◌, ◌+◌, ◌<◌, false, true, IfOk, length, slice_get};
ghost use Rattle.wm_event.specs.Witness.{writers_in};
ghost use Rattle.wm_hb.specs.ReadsFrom.{AreFromWriters};

use std::alloc::{AllocError, Global};
use wm_event::{Candidate, EventId, EventKey};
use wm_list::List;

/// Adjacent bytes of a read that one writer wrote.
#[derive(Clone, Copy)]
pub struct WriterRun {
    pub writer: EventId,
    /// The first byte, counted from 0 in the read's range.
    pub first: usize,
    /// The last byte.
    pub last: usize,
}

/// Whether there is no next byte, or it has another writer.
fn is_last(writers: &[EventId], byte: usize) -> bool
    requires { byte < length writers.now }
    ensures same { result ≡ false → slice_get writers.now (byte + 1) ≡ slice_get writers.now byte }
    ensures ended { result ≡ true → slice_get writers.now (byte + 1) ≢ slice_get writers.now byte }
{
    match (writers.get(byte), writers.get(byte.saturating_add(1))) {
        (Some(one), Some(other)) => one != other,
        (_, _) => true,
    }
}

/// The bytes of a read by their writers: a run for adjacent bytes that one writer wrote, in the order of their
/// addresses. An event that reads nothing has no runs.
///
/// # Errors
///
/// Only if an allocation fails.
pub fn writer_runs(
    alloc: Global,
    candidate: &Candidate,
    reader: EventKey,
) -> Result<List<WriterRun>, AllocError>
    ensures { IfOk result (AreFromWriters (writers_in candidate.now.witness reader)) }
{
    let writers = candidate.writers(reader);
    let mut runs = List::new(alloc);
    let mut first = 0usize;
    for (last, writer) in writers.iter().enumerate() {
        if is_last(writers, last) {
            runs.push(WriterRun {
                writer: *writer,
                first,
                last,
            })?;
            first = last + 1;
        }
    }
    Ok(runs)
}
