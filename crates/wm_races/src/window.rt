//! Which writes of a byte may race with an event.
ghost use Rattle.std.specs.Prelude.{◌≡◌, ◌<◌, Some, length, slice_get};
ghost use Rattle.wm_event.specs.Event.{key_of};
ghost use Rattle.wm_event.specs.LoggedRun.{execution};
ghost use Rattle.wm_hb.specs.Scan.{IsEventOf};
ghost use Rattle.wm_races.specs.Bounds.{IsEndFor};
ghost use Rattle.wm_races.specs.Window.{AreRacingWrites, HasBegins};

use crate::begins::Begins;
use crate::bounds::{end_of, start_of};
use wm_event::{ByteWrite, Event, EventId};
use wm_hb::{HappensBefore, part_between};

/// Up to this number, all writes are looked at; if there are more, those of each thread or class are searched.
pub(crate) const FEW: usize = 16;

/// A place from which on no write of a byte has a race that is named as one of the event at a place.
fn end_for(before: &HappensBefore, event: &Event, place: usize, address: u64) -> usize
    ensures { IsEndFor before.now (λ t. t < length before.now.log) event.now place address result }
{
    if event.writes() {
        place
    } else {
        end_of(before, EventId::At(event.key()), address)
    }
}

/// The writes of a byte that may race with the event at a place, if this is the first byte that both access. They are in
/// the order of their places.
pub(crate) fn racing_writes<'c>(
    before: &HappensBefore<'c, '_>,
    begins: &Begins,
    event: &Event,
    place: usize,
    address: u64,
) -> &'c [ByteWrite]
    requires listed { IsEventOf (execution before.now) event.now }
    requires place { slice_get before.now.witness.order place ≡ Some (key_of event.now) }
    requires begins { HasBegins before.now begins.now }
    ensures { AreRacingWrites before.now place address result.now }
{
    let candidate = before.candidate();
    let _order = candidate.witness();
    if address != u64::from(event.address) && !begins.contains(address) {
        return &[];
    }
    let writes = candidate.byte_writes(address);
    if writes.len() <= FEW {
        return writes;
    }
    let start = start_of(before, EventId::At(event.key()), address);
    part_between(writes, start, end_for(before, event, place, address))
}
