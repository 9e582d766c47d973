//! A line of `decide`: a document that is completed against a module, and given a witness.
ghost use Rattle.std.specs.Prelude.{◌≡◌, ◌≤◌, IfOk};
ghost use Rattle.wm_litmus.specs.LineWitness.{AnswersLineWitness, SaysWitness};
ghost use Rattle.wm_litmus.specs.Prints.{Gives};
ghost use Rattle.wm_stream.specs.Answers.{status_code};

use crate::answer::Answer;
use crate::witness::{DEFAULT_NODES, searched, started};
use std::alloc::{AllocError, Global};
use wm_check::{Breach, Verdict};
use wm_logfile::read_document;
use wm_replay::{Completion, complete};
use wm_stream::{LineAnswer, LineStatus};
use wm_valid::ValidModule;

/// The answer to the bytes of a document over a module: if its threads have a run that makes its events, that of a search for
/// a witness of the log with the steps and the ends of that run.
fn completed_answer(alloc: Global, module: &ValidModule, line: &[u8]) -> Result<Answer, AllocError>
    ensures { IfOk result (Gives (AnswersLineWitness «module».now line.now)) }
{
    let log = match read_document(alloc, line) {
        Ok((log, _own)) => log,
        Err(fault) => return Answer::refused_document(alloc, &fault),
    };
    let completed = match complete(alloc, module, &log)? {
        Completion::Completed(completed) => completed,
        Completion::NoRun(answer) => {
            return Answer::of_verdict(alloc, &Verdict::Broken(Breach::Replay(answer)));
        }
    };
    match started(alloc, completed, module.initial())? {
        Ok(start) => searched(alloc, &start, DEFAULT_NODES),
        Err(fault) => Answer::refused_shape(alloc, fault),
    }
}

/// The status of a line by the exit status of its answer.
fn status_by(code: u8) -> LineStatus
    requires { code ≤ 2 }
    ensures { status_code result ≡ code }
{
    match code {
        0 => LineStatus::Allowed,
        1 => LineStatus::Broken,
        _ => LineStatus::Refused,
    }
}

/// The answer to a line.
///
/// # Errors
///
/// Only if an allocation fails.
pub(crate) fn line_witness(
    alloc: Global,
    module: &ValidModule,
    line: &[u8],
) -> Result<LineAnswer, AllocError>
    ensures { IfOk result (SaysWitness «module».now line.now) }
{
    let answer = completed_answer(alloc, module, line)?;
    Ok(LineAnswer {
        text: answer.text,
        status: status_by(answer.status),
    })
}
