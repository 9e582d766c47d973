//! The command `migrate`: a document is printed in version 2.
ghost use Rattle.std.specs.Prelude.{IfOk, string_bytes};
ghost use Rattle.wm_litmus.specs.Tasks.{AnswersMigrate};

use crate::answer::Answer;
use std::alloc::{AllocError, Global};
use wm_logfile::migrate;

/// The answer to the bytes of a document.
///
/// # Errors
///
/// Only if an allocation fails.
pub(crate) fn migrate_answer(alloc: Global, bytes: &[u8]) -> Result<Answer, AllocError>
    ensures { IfOk result (λ answer.
        AnswersMigrate bytes.now answer.status (string_bytes answer.text)) }
{
    match migrate(alloc, bytes) {
        Ok(text) => Answer::of_line(0, text),
        Err(fault) => Answer::refused_document(alloc, &fault),
    }
}
