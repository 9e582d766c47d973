//! The commands `verify`, `stream` and `decide`: documents are completed against a module, and checked or given a
//! witness.
ghost use Rattle.std.specs.Prelude.{◌≡◌, IfOk, string_bytes};
ghost use Rattle.wm_stream.specs.Answers.{status_code};
ghost use Rattle.wm_check.specs.Texts.{verdict_status};
ghost use Rattle.wm_litmus.specs.Stream.{AnswersVerify, IsJudgeOf, IsLineOf, JudgesLine, status_of};

use crate::answer::Answer;
use crate::line_witness::line_witness;
use std::alloc::{AllocError, Global};
use wm_check::{Unread, Verdict, read_module, verify, verify_log};
use wm_command::LineTask;
use wm_stream::{AnswersLines, LineAnswer, LineStatus};
use wm_valid::ValidModule;

/// The answer to the bytes of a module and of a document, which is completed and checked.
///
/// # Errors
///
/// Only if an allocation fails.
pub(crate) fn verify_answer(
    alloc: Global,
    module_bytes: &[u8],
    document_bytes: &[u8],
) -> Result<Answer, AllocError>
    ensures { IfOk result (λ answer.
        AnswersVerify module_bytes.now document_bytes.now answer.status (string_bytes answer.text)) }
{
    let verdict = verify(alloc, module_bytes, document_bytes)?;
    Answer::of_verdict(alloc, &verdict)
}

/// The module, or its refusal, that the lines of a stream are answered by.
#[derive(Drop)]
pub(crate) enum Judge {
    /// The module that the lines are verified against.
    Module(ValidModule),
    /// The module over which a witness of each line is searched for.
    Search(ValidModule),
    /// The refusal of the module, which answers each line.
    Refused(Verdict),
}

impl Judge {
    /// The status of the module by itself.
    pub fn status(&self) -> LineStatus
        ensures { result ≡ status_of self.now }
    {
        match self {
            Judge::Module(_) | Judge::Search(_) => LineStatus::Allowed,
            Judge::Refused(_) => LineStatus::Refused,
        }
    }
}

/// The status of a line by its verdict.
fn line_status(verdict: &Verdict) -> LineStatus
    ensures { status_code result ≡ verdict_status verdict.now }
{
    match verdict {
        Verdict::Allowed(_) => LineStatus::Allowed,
        Verdict::Broken(_) => LineStatus::Broken,
        Verdict::Refused(_) => LineStatus::Refused,
    }
}

/// The answer to a line by its verdict.
fn line_answer(alloc: Global, verdict: &Verdict) -> Result<LineAnswer, AllocError>
    ensures { IfOk result (IsLineOf verdict.now) }
{
    let answer = Answer::of_verdict(alloc, verdict)?;
    Ok(LineAnswer {
        text: answer.text,
        status: line_status(verdict),
    })
}

impl AnswersLines for Judge {
    ghost says = { JudgesLine };

    fn answer(&self, alloc: Global, line: &[u8]) -> Result<LineAnswer, AllocError> {
        match self {
            Judge::Module(module) => {
                let verdict = verify_log(alloc, module, line)?;
                line_answer(alloc, &verdict)
            }
            Judge::Search(module) => line_witness(alloc, module, line),
            Judge::Refused(verdict) => line_answer(alloc, verdict),
        }
    }
}

/// The judge of a stream's lines, over the bytes of a module.
///
/// # Errors
///
/// Only if an allocation fails.
pub(crate) fn judge_of(
    alloc: Global,
    task: LineTask,
    module_bytes: &[u8],
) -> Result<Judge, AllocError>
    ensures { IfOk result (IsJudgeOf task module_bytes.now) }
{
    match read_module(alloc, module_bytes) {
        Ok(module) => Ok(match task {
            LineTask::Verify => Judge::Module(module),
            LineTask::Witness => Judge::Search(module),
        }),
        Err(Unread::Refused(refusal)) => Ok(Judge::Refused(Verdict::Refused(refusal))),
        Err(Unread::OutOfMemory) => Err(AllocError),
    }
}
