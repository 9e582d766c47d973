//! The lines that answers print, without their newline.
ghost use Rattle.std.specs.Prelude.{◌≡◌, IfOk, string_bytes};
ghost use Rattle.wm_check.specs.Texts.{verdict_text};
ghost use Rattle.wm_event.specs.Texts.{judgement_text};

use std::alloc::{AllocError, Global};
use wm_check::Verdict;
use wm_event::Judgement;

/// The line of a judgement: `allowed`, or `broken V5 case 3 at 1.0 byte 0 writer init other 0.0`. The last part is left
/// out if the fault has no other write.
///
/// # Errors
///
/// Only if an allocation fails.
pub fn rules_line(alloc: Global, judgement: &Judgement) -> Result<String, AllocError>
    ensures { IfOk result (λ line. string_bytes line ≡ judgement_text judgement.now) }
{
    format!(in alloc; "{judgement}")
}

/// The line of a verdict: `allowed threads=2 events=4`, `refused` with the part and its fault, as in
/// `refused decode Truncated at 42`, `broken replay` with the thread and the place, as in
/// `broken replay thread 0 event 0`, or the first fault of a memory rule, as in [`rules_line`].
///
/// # Errors
///
/// Only if an allocation fails.
pub fn verdict_line(alloc: Global, verdict: &Verdict) -> Result<String, AllocError>
    ensures { IfOk result (λ line. string_bytes line ≡ verdict_text verdict.now) }
{
    format!(in alloc; "{verdict}")
}
