//! What an exploration found.
use crate::bound::Bound;
use wm_event::{Log, Witness};
use wm_list::List;

/// A causal execution in which each thread has ended: program order with reads-from, of any byte, has no cycle.
#[derive(Drop)]
pub struct Finished {
    /// What the threads did, with their ends.
    pub log: Log,
    /// Writers and an order with which the memory rules allow it.
    pub witness: Witness,
}

/// What an exploration found.
#[derive(Drop)]
pub struct Exploration {
    /// An execution for each outcome, no two of which have the same ends.
    pub finished: List<Finished>,
    /// How many graphs were extended.
    pub graphs: u64,
    /// Why other outcomes may exist; None if no bound was met.
    pub met: Option<Bound>,
}
