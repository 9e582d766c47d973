//! The commands `explain` and `graph` for a document without a module: why `rules` gives its answer, in sentences and
//! as a picture. The document is read and judged once.
ghost use Rattle.std.specs.Prelude.{◌≡◌, IfOk, string_bytes};
ghost use Rattle.wm_litmus.specs.EventExplanation.{AnswersEventExplain, AnswersEventGraph, AreStatedBy};
ghost use Rattle.wm_litmus.specs.Lines.{judgement_status};
ghost use Rattle.wm_litmus.specs.Prints.{Gives};

use crate::INITIAL_PAGES;
use crate::answer::{Answer, status_of};
use crate::line::rules_line;
use crate::rules::{judged_line, zero_memory};
use std::alloc::{AllocError, Global};
use std::thread::Threads;
use wm_check::{Breach, JudgedDocument, judge_document};
use wm_event::{Candidate, Judgement};
use wm_explain::{explain_document, explain_events, explain_shape};
use wm_graph::{Caption, Sketch};

/// Why a judgement found what it did of the bytes of a document over an initial memory of this number of bytes.
fn reasons_of(
    alloc: Global,
    judged: &JudgedDocument,
    bytes: &[u8],
    memory_bytes: usize,
) -> Result<String, AllocError>
    ensures { IfOk result (λ reasons. AreStatedBy judged.now (string_bytes reasons)) }
{
    match judged {
        JudgedDocument::Refused(fault) => explain_document(alloc, fault, bytes),
        JudgedDocument::Misshapen(misshapen) => explain_shape(alloc, misshapen, memory_bytes),
        JudgedDocument::Judged { candidate, finding } => {
            let explanation = explain_events(alloc, &finding.judgement(), candidate)?;
            let mut reasons = String::new(alloc);
            explanation.add_to(&mut reasons)?;
            Ok(reasons)
        }
    }
}

/// The line of `rules` for the bytes of a document, and its explanation.
///
/// # Errors
///
/// Only if an allocation fails.
pub(crate) fn explain_events_answer<R: AllocGlobal + Threads + Sync>(
    rt: &R,
    bytes: &[u8],
) -> Result<Answer, AllocError>
    ensures { IfOk result (Gives (AnswersEventExplain bytes.now)) }
{
    let initial = zero_memory(rt.alloc(), INITIAL_PAGES);
    let judged = judge_document(rt, bytes, &initial)?;
    let reasons = reasons_of(rt.alloc(), &judged, bytes, initial.len())?;
    let answer = judged_line(rt.alloc(), &judged)?;
    answer.with_reasons(reasons.as_str())
}

/// What a judgement found broken.
pub(crate) fn breach_of(judgement: &Judgement) -> Option<Breach> {
    match judgement {
        Judgement::Valid => None,
        Judgement::Broken(fault) => Some(Breach::Rule(*fault)),
    }
}

/// The picture of a candidate with this judgement, under its line.
fn picture_of(
    alloc: Global,
    candidate: &Candidate,
    judgement: &Judgement,
) -> Result<String, AllocError> {
    let title = rules_line(alloc, judgement)?;
    let sketch = Sketch::of(alloc, breach_of(judgement), candidate)?;
    sketch.draw(alloc, Caption::titled(title.as_str()))
}

/// The answer with the picture of a candidate with this judgement.
fn draw(alloc: Global, candidate: &Candidate, judgement: &Judgement) -> Result<Answer, AllocError>
    ensures { IfOk result (λ answer. answer.status ≡ judgement_status judgement.now) }
{
    let text = picture_of(alloc, candidate, judgement)?;
    let status = status_of(judgement);
    Ok(Answer { text, status })
}

/// The execution that the bytes of a document record, for Graphviz; if the document is refused, the line of the
/// refusal.
///
/// # Errors
///
/// Only if an allocation fails.
pub(crate) fn graph_events_answer<R: AllocGlobal + Threads + Sync>(
    rt: &R,
    bytes: &[u8],
) -> Result<Answer, AllocError>
    ensures { IfOk result (Gives (AnswersEventGraph bytes.now)) }
{
    let initial = zero_memory(rt.alloc(), INITIAL_PAGES);
    let judged = judge_document(rt, bytes, &initial)?;
    match judged {
        JudgedDocument::Judged { candidate, finding } => {
            draw(rt.alloc(), &candidate, &finding.judgement())
        }
        JudgedDocument::Refused(fault) => Answer::refused_document(rt.alloc(), &fault),
        JudgedDocument::Misshapen(misshapen) => {
            Answer::refused_shape(rt.alloc(), misshapen.fault)
        }
    }
}
