//! The reasons for a verdict.
ghost use Rattle.std.specs.Prelude.{IfOk};
ghost use Rattle.wm_event.specs.Faults.{Judges};
ghost use Rattle.wm_event.specs.LoggedRun.{execution};
ghost use Rattle.wm_explain.specs.Parts.{AllHold};

use crate::allowed::{allowed_reason, permitted_reason};
use crate::explanation::Explanation;
use crate::named_site::NamedSites;
use crate::replay::replay_reason;
use crate::row::EventTables;
use crate::rule::rule_reason;
use std::alloc::{AllocError, Global};
use std::thread::Threads;
use wm_check::Refusal;
use wm_event::{Candidate, Judgement, Misshapen};
use wm_list::List;
use wm_logfile::DocFault;
use wm_machine::CodePosition;
use wm_refusal::{decode_reason, document_reason, shape_reason, valid_reason};
use wm_replay::ReplayAnswer;
use wm_sites::ModuleCode;

/// Why the bytes of a module or of a document are refused: where the fault is, what was found and what was expected.
/// Each line ends with a newline. The text is empty for a refused shape: [`explain_shape`] has its reason.
///
/// # Errors
///
/// Only if an allocation fails.
pub fn explain_refusal(
    alloc: Global,
    refusal: &Refusal,
    module_bytes: &[u8],
    document_bytes: &[u8],
) -> Result<String, AllocError> {
    match refusal {
        Refusal::Decode(fault) => decode_reason(alloc, fault, module_bytes),
        Refusal::Valid(fault) => valid_reason(alloc, fault, module_bytes),
        Refusal::Document(fault) => explain_document(alloc, fault, document_bytes),
        Refusal::Shape(_) => Ok(String::new(alloc)),
    }
}

/// Why the bytes of a document are refused, as in [`explain_refusal`].
///
/// # Errors
///
/// Only if an allocation fails.
pub fn explain_document(
    alloc: Global,
    fault: &DocFault,
    bytes: &[u8],
) -> Result<String, AllocError> {
    document_reason(alloc, fault, bytes)
}

/// Why a log and its witness are not a candidate over an initial memory of `memory_bytes` bytes. Each line ends with a
/// newline.
///
/// # Errors
///
/// Only if an allocation fails.
pub fn explain_shape(
    alloc: Global,
    misshapen: &Misshapen,
    memory_bytes: usize,
) -> Result<String, AllocError> {
    shape_reason(alloc, misshapen, memory_bytes)
}

/// Why the memory rules allow the events of a candidate whose threads run as it states, or don't, in sentences and a table.
/// Events are shown with the byte offsets of the instructions that make them; `positions` are those at which the threads
/// make the events. Each line ends with a newline.
///
/// # Errors
///
/// Only if an allocation fails.
pub fn explain_judged(
    alloc: Global,
    code: ModuleCode,
    candidate: &Candidate,
    positions: Vec<List<CodePosition>>,
    judgement: &Judgement,
) -> Result<Explanation, AllocError>
    ensures { IfOk result (λ parts. Judges (execution candidate.now) judgement.now → AllHold candidate.now parts) }
{
    let sites = NamedSites::at(alloc, code, candidate.log(), positions)?;
    let mut tables = EventTables::over(alloc, candidate, sites);
    match judgement {
        Judgement::Valid => Explanation::of_prose(alloc, allowed_reason(&mut tables)?),
        Judgement::Broken(fault) => rule_reason(&mut tables, candidate, fault),
    }
}

/// Why a thread of a candidate over the initial memory of a module isn't its run, and whether the memory rules allow the
/// events, in sentences and a table. Each line ends with a newline.
///
/// # Errors
///
/// Only if an allocation fails.
pub fn explain_difference<R: AllocGlobal + Threads + Sync>(
    rt: &R,
    code: ModuleCode,
    candidate: &Candidate,
    answer: ReplayAnswer,
) -> Result<String, AllocError> {
    replay_reason(rt, code, candidate, answer)
}

/// Why the memory rules allow the events of a candidate, or don't, in sentences and a table. Each line ends with a
/// newline. No module is involved, so the events have no places in code.
///
/// # Errors
///
/// Only if an allocation fails.
pub fn explain_events(
    alloc: Global,
    judgement: &Judgement,
    candidate: &Candidate,
) -> Result<Explanation, AllocError>
    ensures { IfOk result (λ parts. Judges (execution candidate.now) judgement.now → AllHold candidate.now parts) }
{
    let mut tables = EventTables::without_code(alloc, candidate);
    match judgement {
        Judgement::Valid => Explanation::of_prose(alloc, permitted_reason(&mut tables)?),
        Judgement::Broken(fault) => rule_reason(&mut tables, candidate, fault),
    }
}
