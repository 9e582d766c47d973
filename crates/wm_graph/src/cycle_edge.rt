//! The edges of a cycle.

use wm_event::EventKey;

/// What an edge of a cycle states.
#[derive(Clone, Copy)]
pub(crate) enum CycleKind {
    /// The second event is the next one of the thread.
    Sequenced,
    /// The second event reads a byte that the first one wrote.
    ReadsFrom,
    /// The second event overwrites a byte that the first one wrote.
    Coherence,
    /// The first event reads a byte from a write that the second one overwrites.
    FromRead,
}

/// An edge of a cycle.
#[derive(Clone, Copy)]
pub(crate) struct CycleEdge {
    pub from: EventKey,
    pub to: EventKey,
    pub kind: CycleKind,
}
