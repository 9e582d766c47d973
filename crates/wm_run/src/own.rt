//! Own logs are allowed.
ghost use Rattle.wm_run.specs.Own.{OwnRunsAreAllowed, OwnRunsAreWithinLimits};

use wm_memory::legal_histories_are_valid;

/// A log whose threads are runs of the module, with the witness that a legal history over its initial memory records,
/// is a well-shaped candidate and a valid execution. So its check answers `allowed`, in whichever order the threads
/// took turns.
pub fn own_runs_are_allowed()
    ensures { OwnRunsAreAllowed }
{
    legal_histories_are_valid();
}

/// The numbers of such a log are in the ranges of a document, if it has no more threads and steps than a plan may have.
pub fn own_runs_are_within_limits()
    ensures { OwnRunsAreWithinLimits }
{
    own_runs_are_allowed();
}
