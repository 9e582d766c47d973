//! The writers of a read.
ghost use Rattle.std.specs.Prelude.{IfSome};
ghost use Rattle.wm_event.specs.Event.{key_of};
ghost use Rattle.wm_event.specs.LoggedRun.{execution};
ghost use Rattle.wm_event.specs.Shape.{IsThere};
ghost use Rattle.wm_rules.specs.Others.{IsOnlyWriter};

use wm_event::{Candidate, Event, EventId};

/// The writer of all bytes of a read, if they have the same one.
pub fn only_writer(candidate: &Candidate, event: &Event) -> Option<EventId>
    ensures only { IfSome result (IsOnlyWriter (execution candidate.now) (key_of event.now)) }
    ensures there { IfSome result (IsThere candidate.now.log) }
{
    let writers = candidate.writers(event.key());
    let first = *writers.first()?;
    for writer in writers {
        if *writer != first {
            return None;
        }
    }
    Some(first)
}
