//! How another witness differs from a log's own.

use std::alloc::{AllocError, Global};
use wm_event::{Candidate, Event, EventId, EventKey, Witness};

/// The most bytes with another writer that are listed.
const MAX_BYTES: usize = 16;

/// The most events of an order that is listed.
const MAX_LISTED: usize = 60;

/// Bytes with another writer, as they are listed.
#[derive(Drop)]
struct OtherBytes {
    text: String,
    /// How many there are, also those that aren't listed.
    count: usize,
}

impl OtherBytes {
    /// Adds a byte of a read with its other writer.
    fn add(
        &mut self,
        event: &Event,
        byte: usize,
        own: EventId,
        other: EventId,
    ) -> Result<(), AllocError> {
        self.count = self.count.saturating_add(1);
        if self.count > MAX_BYTES {
            return Ok(());
        }
        let key = event.key();
        let address = u64::from(event.address).saturating_add(byte as u64);
        writeln!(
            self.text,
            "  byte {byte} of {key}, at address {address}, from {other} in place of {own}"
        )
    }

    /// Adds the bytes of a read whose writers differ.
    fn add_read(
        &mut self,
        candidate: &Candidate,
        event: &Event,
        others: &[EventId],
    ) -> Result<(), AllocError> {
        let own = candidate.writers(event.key());
        for (byte, (own, other)) in own.iter().zip(others.iter()).enumerate() {
            if own != other {
                self.add(event, byte, *own, *other)?;
            }
        }
        Ok(())
    }

    /// Adds how many bytes aren't listed.
    fn add_rest(&mut self) -> Result<(), AllocError> {
        match self.count.checked_sub(MAX_BYTES) {
            None | Some(0) => Ok(()),
            Some(more) => writeln!(self.text, "  and {more} more bytes from other writers"),
        }
    }
}

/// Adds an order in one line.
fn add_order(text: &mut String, order: &[EventKey]) -> Result<(), AllocError> {
    if order.len() > MAX_LISTED {
        return Ok(text.push_str("  in another order: `wmlab witness` prints it\n")?);
    }
    text.push_str("  in the order")?;
    for key in order {
        write!(text, " {key}")?;
    }
    Ok(text.push('\n')?)
}

/// How a witness differs from that of a candidate: the bytes with another writer, and the order if it is another one.
///
/// # Errors
///
/// Only if an allocation fails.
pub(crate) fn differences(
    alloc: Global,
    candidate: &Candidate,
    witness: &Witness,
) -> Result<String, AllocError> {
    let mut found = OtherBytes {
        text: String::new(alloc),
        count: 0,
    };
    for thread in candidate.log().threads() {
        for event in thread.events.as_slice() {
            found.add_read(candidate, event, witness.writers(event.key()))?;
        }
    }
    found.add_rest()?;
    let OtherBytes { mut text, .. } = found;
    let order = witness.order.as_slice();
    if order != candidate.witness().order.as_slice() {
        add_order(&mut text, order)?;
    }
    Ok(text)
}
