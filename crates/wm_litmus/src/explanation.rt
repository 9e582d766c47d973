//! The commands `explain` and `graph`: why a check gives its answer, in sentences and as a picture. Module and document
//! are read and checked once, and the explanation is about what that check found.
ghost use Rattle.std.specs.Prelude.{IfOk, string_bytes};
ghost use Rattle.wm_check.specs.Checked.{verdict_by, verdict_of};
ghost use Rattle.wm_check.specs.declared.verdict.Breach.TheVariants.{Replay};
ghost use Rattle.wm_check.specs.declared.verdict.Verdict.TheVariants.{Broken, Refused};
ghost use Rattle.wm_litmus.specs.Explanation.{AnswersExplain, AnswersGraph, Explains, ExplainsChecked, ExplainsOver, ExplainsRun, GraphsOver, Shows};

use crate::answer::Answer;
use crate::event_explanation::breach_of;
use crate::line::verdict_line;
use std::alloc::{AllocError, Global};
use std::thread::Threads;
use wm_check::{
    Breach, CheckedLog, Refusal, Unread, Verdict, check_log, judged_verdict, read_module,
};
use wm_event::{Candidate, Judgement};
use wm_explain::{
    PictureNotes, difference_notes, explain_difference, explain_judged, explain_refusal,
    explain_shape, judged_notes,
};
use wm_graph::{Caption, Sketch};
use wm_list::List;
use wm_machine::CodePosition;
use wm_replay::ReplayAnswer;
use wm_sites::ModuleCode;
use wm_valid::ValidModule;

/// The line of a refusal, and why these bytes are refused.
fn explain_refused(
    alloc: Global,
    refusal: Refusal,
    module_bytes: &[u8],
    document_bytes: &[u8],
) -> Result<Answer, AllocError>
    ensures { IfOk result (Explains (Refused refusal)) }
{
    let reasons = explain_refusal(alloc, &refusal, module_bytes, document_bytes)?;
    Answer::explained(alloc, &Verdict::Refused(refusal), reasons)
}

/// The line of a judged run, and its explanation.
fn explain_judged_run(
    alloc: Global,
    code: ModuleCode,
    candidate: &Candidate,
    positions: Vec<List<CodePosition>>,
    judgement: &Judgement,
) -> Result<Answer, AllocError>
    ensures { IfOk result (ExplainsRun candidate.now judgement.now) }
{
    let explanation = explain_judged(alloc, code, candidate, positions, judgement)?;
    let mut reasons = String::new(alloc);
    explanation.add_to(&mut reasons)?;
    Answer::explained(alloc, &judged_verdict(candidate, judgement), reasons)
}

/// The line of a check, and its explanation.
fn explain_checked<R: AllocGlobal + Threads + Sync>(
    rt: &R,
    code: ModuleCode,
    checked: CheckedLog,
    document_bytes: &[u8],
) -> Result<Answer, AllocError>
    ensures { IfOk result (ExplainsChecked checked.entry) }
{
    let alloc = rt.alloc();
    match checked {
        CheckedLog::Refused(refusal) => {
            explain_refused(alloc, refusal, code.bytes, document_bytes)
        }
        CheckedLog::Misshapen(misshapen) => {
            let reasons = explain_shape(alloc, &misshapen, code.module.initial().len())?;
            let verdict = Verdict::Refused(Refusal::Shape(misshapen.fault));
            Answer::explained(alloc, &verdict, reasons)
        }
        CheckedLog::Differs { candidate, answer } => {
            let reasons = explain_difference(rt, code, &candidate, answer)?;
            Answer::explained(alloc, &Verdict::Broken(Breach::Replay(answer)), reasons)
        }
        CheckedLog::Judged {
            candidate,
            positions,
            finding,
        } => explain_judged_run(alloc, code, &candidate, positions, &finding.judgement()),
    }
}

/// The answer to a document over a module.
fn explain_log<R: AllocGlobal + Threads + Sync>(
    rt: &R,
    module: &ValidModule,
    module_bytes: &[u8],
    document_bytes: &[u8],
) -> Result<Answer, AllocError>
    ensures { IfOk result (ExplainsOver «module».now document_bytes.now) }
{
    let checked = check_log(rt, module, document_bytes)?;
    let code = ModuleCode {
        module,
        bytes: module_bytes,
    };
    explain_checked(rt, code, checked, document_bytes)
}

/// The line of the check of these bytes, and its explanation.
///
/// # Errors
///
/// Only if an allocation fails.
pub(crate) fn explain_answer<R: AllocGlobal + Threads + Sync>(
    rt: &R,
    module_bytes: &[u8],
    document_bytes: &[u8],
) -> Result<Answer, AllocError>
    ensures { IfOk result (λ answer.
        AnswersExplain module_bytes.now document_bytes.now answer.status (string_bytes answer.text)) }
{
    match read_module(rt.alloc(), module_bytes) {
        Ok(module) => explain_log(rt, &module, module_bytes, document_bytes),
        Err(Unread::Refused(refusal)) => {
            explain_refused(rt.alloc(), refusal, module_bytes, document_bytes)
        }
        Err(Unread::OutOfMemory) => Err(AllocError),
    }
}

/// A sketch with its notes, under the line of the verdict.
fn draw(
    alloc: Global,
    verdict: &Verdict,
    sketch: &Sketch,
    notes: &PictureNotes,
) -> Result<String, AllocError> {
    let title = verdict_line(alloc, verdict)?;
    let caption = Caption {
        title: title.as_str(),
        places: notes.places.as_slice(),
        module_does: notes.module_does.as_str(),
    };
    sketch.draw(alloc, caption)
}

/// The picture of a candidate with a thread that isn't its run, with what the module does there.
fn differing_picture(
    alloc: Global,
    code: ModuleCode,
    candidate: &Candidate,
    answer: ReplayAnswer,
) -> Result<Answer, AllocError>
    ensures { IfOk result (Shows (Broken (Replay answer))) }
{
    let breach = Breach::Replay(answer);
    let verdict = Verdict::Broken(breach);
    let sketch = Sketch::of(alloc, Some(breach), candidate)?;
    let events = sketch.events(alloc)?;
    let notes = difference_notes(alloc, code, candidate, answer, events.as_slice())?;
    let picture = draw(alloc, &verdict, &sketch, &notes)?;
    Ok(Answer::pictured(&verdict, picture))
}

/// The picture of a candidate with this judgement, whose threads make its events at these positions.
fn judged_picture(
    alloc: Global,
    code: ModuleCode,
    candidate: &Candidate,
    positions: Vec<List<CodePosition>>,
    judgement: &Judgement,
) -> Result<Answer, AllocError>
    ensures { IfOk result (Shows (verdict_by candidate.now.log judgement.now)) }
{
    let verdict = judged_verdict(candidate, judgement);
    let sketch = Sketch::of(alloc, breach_of(judgement), candidate)?;
    let events = sketch.events(alloc)?;
    let notes = judged_notes(alloc, code, candidate, positions, events.as_slice())?;
    let picture = draw(alloc, &verdict, &sketch, &notes)?;
    Ok(Answer::pictured(&verdict, picture))
}

/// The picture of what was checked; if that is refused, the line of the refusal.
fn show_checked(alloc: Global, code: ModuleCode, checked: CheckedLog) -> Result<Answer, AllocError>
    ensures { IfOk result (Shows (verdict_of checked.entry)) }
{
    match checked {
        CheckedLog::Refused(refusal) => Answer::of_verdict(alloc, &Verdict::Refused(refusal)),
        CheckedLog::Misshapen(misshapen) => {
            Answer::of_verdict(alloc, &Verdict::Refused(Refusal::Shape(misshapen.fault)))
        }
        CheckedLog::Differs { candidate, answer } => {
            differing_picture(alloc, code, &candidate, answer)
        }
        CheckedLog::Judged {
            candidate,
            positions,
            finding,
        } => judged_picture(alloc, code, &candidate, positions, &finding.judgement()),
    }
}

/// The answer to a document over a module.
fn show_log<R: AllocGlobal + Threads + Sync>(
    rt: &R,
    module: &ValidModule,
    module_bytes: &[u8],
    document_bytes: &[u8],
) -> Result<Answer, AllocError>
    ensures { IfOk result (GraphsOver «module».now document_bytes.now) }
{
    let checked = check_log(rt, module, document_bytes)?;
    let code = ModuleCode {
        module,
        bytes: module_bytes,
    };
    show_checked(rt.alloc(), code, checked)
}

/// The execution that these bytes record, for Graphviz; if they are refused, the line of the refusal.
///
/// # Errors
///
/// Only if an allocation fails.
pub(crate) fn graph_answer<R: AllocGlobal + Threads + Sync>(
    rt: &R,
    module_bytes: &[u8],
    document_bytes: &[u8],
) -> Result<Answer, AllocError>
    ensures { IfOk result (λ answer.
        AnswersGraph module_bytes.now document_bytes.now answer.status (string_bytes answer.text)) }
{
    match read_module(rt.alloc(), module_bytes) {
        Ok(module) => show_log(rt, &module, module_bytes, document_bytes),
        Err(unread) => Answer::refused_module(rt.alloc(), unread),
    }
}
