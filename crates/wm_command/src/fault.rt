//! Why words spell nothing.
ghost use Rattle.std.specs.Prelude.{◌≡◌};

use std::alloc::{AllocError, AllocFailed};

/// The kind of the malformed word, or an allocation failure.
#[derive(Clone, Copy)]
pub enum WordFault {
    /// The turns of a script.
    Turns,
    /// The number of rounds.
    Rounds,
    /// The number of nodes of a search.
    Nodes,
    /// The most events of a thread in an exploration.
    Events,
    /// The start of a thread.
    Start,
    /// An allocation failed.
    OutOfMemory,
}

impl From<AllocError> for WordFault {
    ghost use Rattle.wm_command.specs.declared.fault.WordFault.TheVariants.{OutOfMemory};

    ghost from_gives = { λ _ fault. fault ≡ OutOfMemory };

    fn from(_refused: AllocError) -> Self {
        WordFault::OutOfMemory
    }
}

impl<T: Drop> From<AllocFailed<T>> for WordFault {
    ghost use Rattle.wm_command.specs.declared.fault.WordFault.TheVariants.{OutOfMemory};

    ghost from_gives = { λ _ fault. fault ≡ OutOfMemory };

    fn from(_refused: AllocFailed<T>) -> Self {
        WordFault::OutOfMemory
    }
}
