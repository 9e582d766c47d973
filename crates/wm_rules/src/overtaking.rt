//! The first atomic write that overtakes the writer of a read, found in one thread after the other.
ghost use Rattle.std.specs.Prelude.{◌≡◌, ◌<◌, ◌≤◌, ◌↔◌, IsTrue, length};
ghost use Rattle.wm_event.specs.LoggedRun.{execution};
ghost use Rattle.wm_event.specs.Shape.{IsThere};
ghost use Rattle.wm_event.specs.Writes.{id_in, thread_keys};
ghost use Rattle.wm_hb.specs.Scan.{IsEventOf};
ghost use Rattle.wm_hb.specs.Sequence.{AreInSequence, HoldsFrom};
ghost use Rattle.wm_rules.specs.Cases.{overtaking_number};
ghost use Rattle.wm_rules.specs.Earliest.{FindsBelow, FindsInThread};
ghost use Rattle.wm_rules.specs.Others.{IsOutOfOrder};
ghost use Rattle.wm_rules.specs.Overtaking.{IsPast, ids_in_thread};

use crate::by_thread::earlier;
use crate::cases::OvertakingCase;
use crate::sequential_consistency::{is_out_of_order, range_by_case};
use wm_event::{ByteWrite, Candidate, Event, EventId, EventKey};
use wm_hb::{HappensBefore, Turning, stands_before, turn_of};

/// The name of the event of a thread that a write in the thread's own list names.
fn id_in_thread(candidate: &Candidate, thread: usize, write: ByteWrite) -> EventId
    ensures value { result ≡ id_in (thread_keys candidate.now.log thread) write }
    ensures there { IsThere candidate.now.log result }
{
    let Some(thread) = candidate.log().threads().get(thread) else {
        return EventId::Init;
    };
    match thread.events.as_slice().get(write.place) {
        None => EventId::Init,
        Some(event) => EventId::At(event.key()),
    }
}

/// Whether the order lists an event after a writer, which in the third case must happen before it.
fn is_past(relation: &HappensBefore, writer: EventId, other: EventId, case: OvertakingCase) -> bool
    requires writer { IsThere relation.now.log writer }
    requires other { IsThere relation.now.log other }
    ensures { IsTrue result ↔ IsPast (execution relation.now) writer case other }
{
    stands_before(relation.candidate(), writer, other)
        && (case != OvertakingCase::ReadPast || relation.before(writer, other))
}

/// How many of a thread's writes aren't past a writer. All those after them are.
fn count_not_past(
    relation: &HappensBefore,
    writer: EventId,
    case: OvertakingCase,
    thread: usize,
    writes: &[ByteWrite],
) -> usize
    requires writer { IsThere relation.now.log writer }
    requires sequence { AreInSequence (execution relation.now) (ids_in_thread relation.now.log thread writes.now) }
    ensures bound { result ≤ length writes.now }
    ensures turn { HoldsFrom (IsPast (execution relation.now) writer case) (ids_in_thread relation.now.log thread writes.now) result }
{
    let _candidate = relation.candidate();
    let row = PastRow {
        relation,
        writer,
        case,
        thread,
        writes,
    };
    turn_of(&row, writes.len())
}

/// The writes of a thread, of which the late ones are past a writer.
#[derive(Clone, Copy)]
struct PastRow<'r, 'c, 'i> {
    relation: &'r HappensBefore<'c, 'i>,
    writer: EventId,
    case: OvertakingCase,
    thread: usize,
    writes: &'r [ByteWrite],
}

impl Turning for PastRow<'_, '_, '_> {
    ghost use Rattle.wm_hb.specs.Sequence.{HasInRow, NoneInRow};
    ghost use Rattle.wm_rules.specs.Overtaking.{IsReadyPast, ids_of_row};

    ghost ready = { IsReadyPast };

    ghost early = { λ row. NoneInRow (IsPast (execution row.relation.now) row.writer row.case) (ids_of_row row) };

    ghost late = { λ row. HasInRow (IsPast (execution row.relation.now) row.writer row.case) (ids_of_row row) };

    fn is_late(&self, index: usize) -> bool {
        let candidate = self.relation.candidate();
        let other = id_in_thread(candidate, self.thread, self.writes[index]);
        is_past(self.relation, self.writer, other, self.case)
    }
}

/// The first write of a thread that overtakes a writer, by a case of the rule.
fn first_in_thread(
    relation: &HappensBefore,
    event: &Event,
    writer: EventId,
    case: OvertakingCase,
    thread: usize,
) -> Option<EventKey>
    requires listed { IsEventOf (execution relation.now) event.now }
    requires writer { IsThere relation.now.log writer }
    requires thread { thread < length relation.now.log }
    ensures { FindsInThread (execution relation.now) thread (IsOutOfOrder relation.now event.now writer (overtaking_number case)) result }
{
    let candidate = relation.candidate();
    let _log = candidate.log();
    let range = range_by_case(candidate, event, writer, case);
    let writes = candidate.thread_atomic_writes(thread, range);
    let Some(write) = writes.get(count_not_past(relation, writer, case, thread, writes)) else {
        return None;
    };
    match id_in_thread(candidate, thread, *write) {
        EventId::Init => None,
        EventId::At(key) => {
            if is_out_of_order(relation, event, writer, EventId::At(key), case) {
                Some(key)
            } else {
                None
            }
        }
    }
}

/// The first listed write that overtakes a writer, by a case of the rule.
pub fn earliest_out_of_order(
    relation: &HappensBefore,
    event: &Event,
    writer: EventId,
    case: OvertakingCase,
) -> Option<EventKey>
    requires listed { IsEventOf (execution relation.now) event.now }
    requires writer { IsThere relation.now.log writer }
    ensures { FindsBelow (execution relation.now) (length relation.now.log)
        (IsOutOfOrder relation.now event.now writer (overtaking_number case)) result }
{
    let candidate = relation.candidate();
    let mut earliest = None;
    for thread in 0..candidate.log().threads().len() {
        let found = first_in_thread(relation, event, writer, case, thread);
        earliest = earlier(candidate, earliest, found);
    }
    earliest
}
