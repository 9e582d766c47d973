//! Why a guess ends without a witness.
ghost use Rattle.std.specs.Prelude.{◌≡◌};
ghost use Rattle.wm_witness.specs.declared.halt.Halt.TheVariants.{OutOfMemory};

use std::alloc::{AllocError, AllocFailed};

/// Why a guess ends.
#[derive(Drop)]
pub(crate) enum Halt {
    /// An allocation failed.
    OutOfMemory,
    /// What was guessed contradicts itself. This says nothing about the log.
    Contradiction,
}

impl From<AllocError> for Halt {
    ghost from_gives = { λ _ halt. halt ≡ OutOfMemory };

    fn from(_refused: AllocError) -> Halt {
        Halt::OutOfMemory
    }
}

impl<T: Drop> From<AllocFailed<T>> for Halt {
    ghost from_gives = { λ _ halt. halt ≡ OutOfMemory };

    fn from(_refused: AllocFailed<T>) -> Halt {
        Halt::OutOfMemory
    }
}
