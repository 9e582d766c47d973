//! The events that fit a byte of a read.
ghost use Rattle.std.specs.Prelude.{◌≡◌, ◌<◌, ◌++◌, IfOk, OnOk};
ghost use Rattle.std.specs.List.{filter};
ghost use Rattle.wm_writers.specs.Fits.{fits as spec_fits, fitting, is_from as spec_is_from};

use std::alloc::{AllocError, Global};
use wm_event::{Candidate, Event, EventId, EventKey, byte_of};
use wm_list::List;

/// Whether an id is this event or a later one of its thread.
fn is_from(reader: EventKey, id: EventId) -> bool
    ensures { result ≡ spec_is_from reader id }
{
    match id {
        EventId::Init => false,
        EventId::At(key) => key.thread == reader.thread && reader.number <= key.number,
    }
}

/// Whether an id fits a byte of a read.
fn fits(candidate: &Candidate, event: &Event, byte: u8, id: EventId) -> bool
    requires { byte < 8 }
    ensures { result ≡ spec_fits candidate.now.log candidate.now.initial event.now byte id }
{
    let address = u64::from(event.address) + u64::from(byte);
    match candidate.byte_by(id, address) {
        None => false,
        Some(left) => left == byte_of(event.read, byte) && !is_from(event.key(), id),
    }
}

/// Appends the ids that fit a byte of a read.
fn add_fitting(
    fit: &mut List<EventId>,
    candidate: &Candidate,
    event: &Event,
    byte: u8,
    ids: &[EventId],
) -> Result<(), AllocError>
    requires { byte < 8 }
    ensures { OnOk result (fit.new ≡ fit.old ++ filter (spec_fits candidate.now.log candidate.now.initial event.now byte) ids.now) }
{
    for id in ids {
        if fits(candidate, event, byte, *id) {
            fit.push(*id)?;
        }
    }
    Ok(())
}

/// All ids that fit a byte of a read: Init first, then the events of each thread, one thread after the other.
pub(crate) fn fitting_ids(
    alloc: Global,
    candidate: &Candidate,
    event: &Event,
    byte: u8,
) -> Result<List<EventId>, AllocError>
    requires { byte < 8 }
    ensures { IfOk result (λ fit. fit ≡ fitting candidate.now.log candidate.now.initial event.now byte) }
{
    let mut fit = List::new(alloc);
    add_fitting(&mut fit, candidate, event, byte, &[EventId::Init])?;
    let address = u64::from(event.address) + u64::from(byte);
    for thread in 0..candidate.log().threads().len() {
        let writes = candidate.thread_writes_to(thread, address);
        add_fitting(&mut fit, candidate, event, byte, writes)?;
    }
    Ok(fit)
}
