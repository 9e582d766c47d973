//! The answer of a search.
use wm_event::Witness;

/// Whether a log has a witness that makes it valid by the memory rules.
#[derive(Drop)]
pub enum Answer {
    /// The log is valid with this witness.
    Found(Witness),
    /// The log is valid with no witness.
    NoWitness,
    /// The search took as many steps as it was given. This says nothing about the log.
    GaveUp,
}
