//! The steps of a history.
use wm_event::Op;

/// A step of a history.
#[derive(Clone, Copy, Debug, PartialEq, Eq)]
pub enum HistoryStep {
    /// An access of a thread.
    Access(u32, Op),
    /// Publishes the oldest waiting store of a thread.
    Drain(u32),
    /// Publishes the waiting store of a thread at an index, counted from 0 at the oldest. It overlaps no older one.
    DrainAt(u32, u32),
}
