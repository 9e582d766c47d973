//! The effects of a script's turns.

use crate::run::Run;
use crate::turn::Turn;
use wm_event::EventKey;
use wm_list::List;
use wm_machine::CodePosition;

/// Why a thread makes no step. The first reason that applies is named.
#[derive(Clone, Copy)]
pub enum Rest {
    /// It has ended.
    Ended,
    /// It has made all the steps that its plan allows.
    Spent,
    /// It is before an access, and the log has [`wm_event::MAX_EVENTS`] events.
    Full,
}

/// What a turn of a script did.
#[derive(Clone, Copy)]
pub enum TurnDone {
    /// The thread made a step without an access.
    Stepped,
    /// The thread made an access.
    Accessed {
        /// The event of the run that the access made.
        event: EventKey,
        /// The oldest store, if it left the full buffer before the access.
        drained: Option<EventKey>,
    },
    /// The thread made no step.
    Rested(Rest),
    /// The store that made this event left the thread's buffer.
    Drained(EventKey),
    /// The buffer has no such store.
    Absent,
    /// The store overlaps an older one in the buffer, and stays there.
    Held,
}

/// A turn of a script with what it did.
#[derive(Drop)]
pub struct TracedTurn {
    pub turn: Turn,
    /// The position of the thread before the turn. A thread that has ended is at its last step.
    pub position: CodePosition,
    pub done: TurnDone,
    /// The events of the stores in the thread's buffer after the turn, the oldest first.
    pub pending: List<EventKey>,
}

/// A scripted run with the effect of each of its turns, in their order.
#[derive(Drop)]
pub struct Trace {
    pub run: Run,
    pub turns: List<TracedTurn>,
}
