//! Places of the order before or after which the writes of a byte are ordered with an event by happens-before.
ghost use Rattle.std.specs.Prelude.{◌≡◌, ◌<◌, ◌≤◌, ◌+◌, ◌⊎◌, ℕ, Some, length, slice_get};
ghost use Rattle.wm_event.specs.Execution.{place};
ghost use Rattle.wm_event.specs.HappensBefore.{HappensBefore as IsBefore};
ghost use Rattle.wm_event.specs.Limits.{max_events};
ghost use Rattle.wm_event.specs.LoggedRun.{execution};
ghost use Rattle.wm_event.specs.declared.event.EventId.{EventId};
ghost use Rattle.wm_hb.specs.Sequence.{AreInSequence};
ghost use Rattle.wm_races.specs.Bounds.{IsEnd, IsStart};

use wm_event::{Candidate, EventId};
use wm_hb::{HappensBefore, Turning, turn_of};

/// Writes in sequence, of which the early ones happen before an event.
#[derive(Clone, Copy)]
struct WriteRow<'r, 'c, 'i> {
    before: &'r HappensBefore<'c, 'i>,
    writes: &'r [EventId],
    event: EventId,
}

impl Turning for WriteRow<'_, '_, '_> {
    ghost use Rattle.wm_hb.specs.Sequence.{HasInRow, NoneInRow};

    ghost ready = { λ row i. i < length row.writes.now };

    ghost early = { λ row. HasInRow (λ v. IsBefore (execution row.before.now) v row.event) row.writes.now };

    ghost late = { λ row. NoneInRow (λ v. IsBefore (execution row.before.now) v row.event) row.writes.now };

    fn is_late(&self, index: usize) -> bool {
        !self.before.before(self.writes[index], self.event)
    }
}

/// How many of a thread's writes, a prefix of them, happen before an event.
fn count_before(before: &HappensBefore, writes: &[EventId], event: EventId) -> usize
    requires { AreInSequence (execution before.now) writes.now }
    ensures bound { result ≤ length writes.now }
    ensures before { (i : ℕ) (v : EventId) → i < result → slice_get writes.now i ≡ Some v → IsBefore (execution before.now) v event }
{
    let row = WriteRow {
        before,
        writes,
        event,
    };
    turn_of(&row, writes.len())
}

/// The place of an event, 0 if it isn't listed.
fn place_or_first(candidate: &Candidate, id: EventId) -> usize
    ensures { (result ≡ 0) ⊎ (place (execution candidate.now) id ≡ result + 1) }
{
    match candidate.place(id) {
        Some(place) => place,
        None => 0,
    }
}

/// The place after an event's, the greatest number if the event isn't listed.
fn place_after(candidate: &Candidate, id: EventId) -> usize
    ensures { (max_events ≤ result) ⊎ (place (execution candidate.now) id ≡ result) }
{
    let _log = candidate.log();
    match candidate.place(id) {
        Some(place) => place + 1,
        None => usize::MAX,
    }
}

/// A place before which each write of a byte by a thread happens before an event.
fn start_in_thread(before: &HappensBefore, event: EventId, thread: usize, address: u64) -> usize
    requires { thread < length before.now.log }
    ensures { IsStart before.now (λ t. t ≡ thread) address event result }
{
    let candidate = before.candidate();
    let _log = candidate.log();
    let writes = candidate.thread_writes_to(thread, address);
    match writes.get(count_before(before, writes, event)) {
        Some(first) => place_or_first(candidate, *first),
        None => usize::MAX,
    }
}

/// A place before which each write of a byte happens before an event.
pub(crate) fn start_of(before: &HappensBefore, event: EventId, address: u64) -> usize
    ensures { IsStart before.now (λ t. t < length before.now.log) address event result }
{
    let mut start = usize::MAX;
    for thread in 0..before.candidate().log().threads().len() {
        start = start.min(start_in_thread(before, event, thread, address));
    }
    start
}

/// A place from which on an event happens before each write of a byte by a thread.
fn end_in_thread(before: &HappensBefore, event: EventId, thread: usize, address: u64) -> usize
    requires { thread < length before.now.log }
    ensures { IsEnd before.now (λ t. t ≡ thread) address event result }
{
    let candidate = before.candidate();
    let _log = candidate.log();
    let writes = candidate.thread_writes_to(thread, address);
    let count = before.count_not_after(event, writes);
    if count == 0 {
        return 0;
    }
    place_after(candidate, writes[count - 1])
}

/// A place from which on an event happens before each write of a byte.
pub(crate) fn end_of(before: &HappensBefore, event: EventId, address: u64) -> usize
    ensures { IsEnd before.now (λ t. t < length before.now.log) address event result }
{
    let mut end = 0usize;
    for thread in 0..before.candidate().log().threads().len() {
        end = end.max(end_in_thread(before, event, thread, address));
    }
    end
}
