//! The first write of a byte that happens between a read and its writer, found in one thread after the other.
ghost use Rattle.std.specs.Prelude.{◌≡◌, ◌<◌, IfSome, length};
ghost use Rattle.wm_event.specs.declared.event.EventId.TheVariants.{At};
ghost use Rattle.wm_event.specs.LoggedRun.{execution};
ghost use Rattle.wm_event.specs.Shape.{IsThere};
ghost use Rattle.wm_rules.specs.Earliest.{FindsBelow, FindsInThread, earlier_of};
ghost use Rattle.wm_rules.specs.Others.{WritesBetween};

use crate::coherence::is_written_between;
use wm_event::{Candidate, Event, EventId, EventKey};
use wm_hb::{HappensBefore, stands_before};

/// The first of a thread's writes of a byte that happens between a read and the byte's writer.
fn first_in_thread(
    relation: &HappensBefore,
    event: &Event,
    byte: u8,
    writer: EventId,
    thread: usize,
) -> Option<EventKey>
    requires { thread < length relation.now.log }
    ensures { FindsInThread (execution relation.now) thread (WritesBetween relation.now event.now byte writer) result }
{
    let candidate = relation.candidate();
    let _log = candidate.log();
    let address = u64::from(event.address) + u64::from(byte);
    let writes = candidate.thread_writes_to(thread, address);
    match writes.get(relation.count_not_after(writer, writes)) {
        None => None,
        Some(EventId::Init) => None,
        Some(EventId::At(key)) => {
            if is_written_between(relation, event, byte, writer, EventId::At(*key)) {
                Some(*key)
            } else {
                None
            }
        }
    }
}

/// Whichever of two events comes first in the order.
pub fn earlier(
    candidate: &Candidate,
    first: Option<EventKey>,
    second: Option<EventKey>,
) -> Option<EventKey>
    requires first { IfSome first (λ a. IsThere candidate.now.log (At a)) }
    requires second { IfSome second (λ b. IsThere candidate.now.log (At b)) }
    ensures { result ≡ earlier_of (execution candidate.now) first second }
{
    match (first, second) {
        (None, _) => second,
        (Some(_), None) => first,
        (Some(a), Some(b)) => {
            if stands_before(candidate, EventId::At(b), EventId::At(a)) {
                second
            } else {
                first
            }
        }
    }
}

/// The first listed write of a byte that happens between a read and the byte's writer.
pub fn earliest_between(
    relation: &HappensBefore,
    event: &Event,
    byte: u8,
    writer: EventId,
) -> Option<EventKey>
    ensures { FindsBelow (execution relation.now) (length relation.now.log) (WritesBetween relation.now event.now byte writer) result }
{
    let candidate = relation.candidate();
    let mut earliest = None;
    for thread in 0..candidate.log().threads().len() {
        let found = first_in_thread(relation, event, byte, writer, thread);
        earliest = earlier(candidate, earliest, found);
    }
    earliest
}
