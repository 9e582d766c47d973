//! The answers to the tasks over documents.
ghost use Rattle.std.specs.Prelude.{IfOk};
ghost use Rattle.wm_litmus.specs.Prints.{Gives};
ghost use Rattle.wm_litmus.specs.Tasks.{AnswersDocumentTask, AnswersRunTask};

use crate::answer::Answer;
use crate::check::check_answer;
use crate::completion::completion_answer;
use crate::event_explanation::{explain_events_answer, graph_events_answer};
use crate::explanation::{explain_answer, graph_answer};
use crate::migration::migrate_answer;
use crate::races::{event_races_answer, races_answer};
use crate::rules::rules_answer;
use crate::stream::verify_answer;
use std::alloc::AllocError;
use std::thread::Threads;
use wm_command::{DocumentTask, RunTask};

/// The answer to a task over a module and a document.
pub(crate) fn run_task_answer<R: AllocGlobal + Threads + Sync>(
    rt: &R,
    task: RunTask,
    module_bytes: &[u8],
    document_bytes: &[u8],
) -> Result<Answer, AllocError>
    ensures { IfOk result (Gives (AnswersRunTask task module_bytes.now document_bytes.now)) }
{
    match task {
        RunTask::Check => check_answer(rt, module_bytes, document_bytes),
        RunTask::Complete => completion_answer(rt.alloc(), module_bytes, document_bytes),
        RunTask::Verify => verify_answer(rt.alloc(), module_bytes, document_bytes),
        RunTask::Races => races_answer(rt, module_bytes, document_bytes),
        RunTask::Explain => explain_answer(rt, module_bytes, document_bytes),
        RunTask::Graph => graph_answer(rt, module_bytes, document_bytes),
    }
}

/// The answer to a task over a document alone.
pub(crate) fn document_task_answer<R: AllocGlobal + Threads + Sync>(
    rt: &R,
    task: DocumentTask,
    bytes: &[u8],
) -> Result<Answer, AllocError>
    ensures { IfOk result (Gives (AnswersDocumentTask task bytes.now)) }
{
    match task {
        DocumentTask::Rules => rules_answer(rt, bytes),
        DocumentTask::Migrate => migrate_answer(rt.alloc(), bytes),
        DocumentTask::Races => event_races_answer(rt, bytes),
        DocumentTask::Explain => explain_events_answer(rt, bytes),
        DocumentTask::Graph => graph_events_answer(rt, bytes),
    }
}
