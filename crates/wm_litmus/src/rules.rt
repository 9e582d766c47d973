//! The command `rules`: a document is judged by the memory rules, over pages of zeros.
ghost use Rattle.std.specs.Prelude.{◌≡◌, ◌≤◌, IfOk};
ghost use Rattle.wm_litmus.specs.Prints.{Gives, Prints};
ghost use Rattle.wm_litmus.specs.Rules.{AnswersRules, judged_status, judged_text, zeros};

use crate::INITIAL_PAGES;
use crate::answer::Answer;
use std::alloc::{AllocError, Global};
use std::thread::Threads;
use wm_check::{JudgedDocument, judge_document};
use wm_event::Initial;

/// The initial memory of a document without a module: this number of pages of zeros.
pub(crate) fn zero_memory(alloc: Global, pages: usize) -> Initial
    requires { pages ≤ 65536 }
    ensures { result ≡ zeros pages }
{
    Initial::zeros(alloc, pages)
}

/// The line of what a judgement of a document found.
///
/// # Errors
///
/// Only if an allocation fails.
pub(crate) fn judged_line(alloc: Global, judged: &JudgedDocument) -> Result<Answer, AllocError>
    ensures { IfOk result (Prints (judged_status judged.now) (judged_text judged.now)) }
{
    match judged {
        JudgedDocument::Refused(fault) => Answer::refused_document(alloc, fault),
        JudgedDocument::Misshapen(misshapen) => Answer::refused_shape(alloc, misshapen.fault),
        JudgedDocument::Judged {
            candidate: _candidate,
            finding,
        } => Answer::judged(alloc, &finding.judgement()),
    }
}

/// The answer to the bytes of a document. Starts, ends and steps are ignored.
///
/// # Errors
///
/// Only if an allocation fails.
pub(crate) fn rules_answer<R: AllocGlobal + Threads + Sync>(
    rt: &R,
    bytes: &[u8],
) -> Result<Answer, AllocError>
    ensures { IfOk result (Gives (AnswersRules bytes.now)) }
{
    let initial = zero_memory(rt.alloc(), INITIAL_PAGES);
    let judged = judge_document(rt, bytes, &initial)?;
    judged_line(rt.alloc(), &judged)
}
