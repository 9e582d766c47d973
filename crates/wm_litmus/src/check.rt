//! The command `check`: a document is checked against a module.
ghost use Rattle.std.specs.Prelude.{IfOk, string_bytes};
ghost use Rattle.wm_litmus.specs.Tasks.{AnswersCheck};

use crate::answer::Answer;
use std::alloc::AllocError;
use std::thread::Threads;
use wm_check::check;

/// The answer to the bytes of a module and of a document.
///
/// # Errors
///
/// Only if an allocation fails.
pub(crate) fn check_answer<R: AllocGlobal + Threads + Sync>(
    rt: &R,
    module_bytes: &[u8],
    document_bytes: &[u8],
) -> Result<Answer, AllocError>
    ensures { IfOk result (λ answer.
        AnswersCheck module_bytes.now document_bytes.now answer.status (string_bytes answer.text)) }
{
    let verdict = check(rt, module_bytes, document_bytes)?;
    Answer::of_verdict(rt.alloc(), &verdict)
}
