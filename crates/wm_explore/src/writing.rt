//! The events that write a byte of an access.
ghost use Rattle.std.specs.Prelude.{◌≡◌, Some, false, IfOk};
ghost use Rattle.wm_event.specs.Log.{event_in};
ghost use Rattle.wm_event.specs.declared.event.Event.{Event};
ghost use Rattle.wm_explore.specs.Writing.{ListsWriting, WritesNone};

use crate::state::State;
use std::alloc::{AllocError, Global};
use wm_event::{Event, EventKey, OpFields};
use wm_list::List;

/// Whether an event writes a byte of an access.
fn writes_in(event: &Event, op: OpFields) -> bool
    ensures { result ≡ false → WritesNone op event.now }
{
    if !event.writes() {
        return false;
    }
    let (start, first) = (u64::from(event.address), u64::from(op.address));
    if first + u64::from(op.width.bytes()) <= start {
        return false;
    }
    first < start + u64::from(event.width.bytes())
}

/// Whether the event of that name writes a byte of an access.
pub(crate) fn is_writer(state: &State, key: EventKey, op: OpFields) -> bool
    ensures { result ≡ false → (e : Event) → event_in state.now.log key ≡ Some e → WritesNone op e }
{
    match state.log.event(key) {
        None => false,
        Some(event) => writes_in(event, op),
    }
}

/// The places at which those events arrived that write a byte of an access.
pub(crate) fn writing(alloc: Global, state: &State, op: OpFields) -> Result<List<usize>, AllocError>
    ensures { IfOk result (ListsWriting state.now op.address op.width) }
{
    let mut places = List::new(alloc);
    let arrived = state.arrived.as_slice();
    for place in 0..arrived.len() {
        if !is_writer(state, arrived[place], op) {
            continue;
        }
        places.push(place)?;
    }
    Ok(places)
}
