//! The command `complete`: a document is printed with the steps and the ends of its threads' runs.
ghost use Rattle.std.specs.Prelude.{IfOk, string_bytes};
ghost use Rattle.wm_litmus.specs.Tasks.{AnswersComplete};

use crate::answer::Answer;
use std::alloc::{AllocError, Global};
use wm_check::{Breach, CompletedDocument, Verdict, complete_document};

/// The answer to the bytes of a module and of a document.
///
/// # Errors
///
/// Only if an allocation fails.
pub(crate) fn completion_answer(
    alloc: Global,
    module_bytes: &[u8],
    document_bytes: &[u8],
) -> Result<Answer, AllocError>
    ensures { IfOk result (λ answer.
        AnswersComplete module_bytes.now document_bytes.now answer.status (string_bytes answer.text)) }
{
    match complete_document(alloc, module_bytes, document_bytes)? {
        CompletedDocument::Text(text) => Answer::of_line(0, text),
        CompletedDocument::Refused(refusal) => {
            Answer::of_verdict(alloc, &Verdict::Refused(refusal))
        }
        CompletedDocument::NoRun(answer) => {
            Answer::of_verdict(alloc, &Verdict::Broken(Breach::Replay(answer)))
        }
    }
}
