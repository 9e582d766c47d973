//! The result of a replay.
ghost use Rattle.std.specs.Prelude.{Some};
ghost use Rattle.wm_replay.specs.Texts.{place_text, replay_answer_text};

use std::fmt;
use wm_machine::StartFault;

/// Where a thread differs from its log.
#[derive(Clone, Copy, PartialEq, Eq)]
pub enum Place {
    /// At the log's event of that number: the thread makes an access there that can't be that event, whatever value it
    /// reads; or it makes an access and the log has no event; or it makes none and the log has one.
    Event(usize),
    /// At its end: it ends before its last stated step, or differently from what is stated.
    End,
}

/// Prints the place, as in `event 0`, or `end`.
impl fmt::Display for Place {
    ghost output = { λ place. Some (place_text place) };

    fn fmt<W: fmt::Write>(&self, f: &mut fmt::Formatter<W>) -> fmt::Result {
        match self {
            Place::Event(event) => write!(f, "event {event}"),
            Place::End => f.write_str("end"),
        }
    }
}

/// How a log compares with the runs of its threads. The thread named is the first that differs.
#[derive(Clone, Copy, PartialEq, Eq)]
pub enum ReplayAnswer {
    /// Each thread's events and end are the ones that its run has on the values that it read.
    Same,
    /// The thread doesn't start.
    StartRefused(usize, StartFault),
    /// The thread differs from its log.
    Differs(usize, Place),
}

/// Prints the first difference, as in `thread 0 start NoExport` or `thread 0 event 0`; or `same`.
impl fmt::Display for ReplayAnswer {
    ghost output = { λ answer. Some (replay_answer_text answer) };

    fn fmt<W: fmt::Write>(&self, f: &mut fmt::Formatter<W>) -> fmt::Result {
        match self {
            ReplayAnswer::Same => f.write_str("same"),
            ReplayAnswer::StartRefused(thread, fault) => write!(f, "thread {thread} start {fault}"),
            ReplayAnswer::Differs(thread, place) => write!(f, "thread {thread} {place}"),
        }
    }
}
