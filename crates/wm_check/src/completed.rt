//! The completion of a document against a module.
ghost use Rattle.std.specs.Prelude.{IfOk};
ghost use Rattle.wm_check.specs.Completed.{CompletesDocument, CompletesDocumentOver, CompletesLog, CompletesOver};

use crate::checker::{Unread, read_log, read_module};
use crate::verdict::Refusal;
use std::alloc::{AllocError, Global};
use wm_event::{Candidate, Log, ShapeFault, Witness};
use wm_logfile::write_document;
use wm_replay::{Completion, ReplayAnswer, complete};
use wm_valid::ValidModule;

/// A document with the steps and the ends of its threads' runs, or why there is no such document.
#[derive(Drop)]
pub enum CompletedDocument {
    /// The document's text, in version 2.
    Text(String),
    /// The module or the document is refused, as by [`check`](crate::check).
    Refused(Refusal),
    /// The first thread whose events no number of steps makes. The answer isn't `Same`.
    NoRun(ReplayAnswer),
}

/// The completion of a candidate.
fn complete_candidate(
    alloc: Global,
    module: &ValidModule,
    candidate: &Candidate,
) -> Result<CompletedDocument, AllocError>
    ensures { IfOk result (CompletesLog «module».now candidate.now) }
{
    match complete(alloc, module, candidate.log())? {
        Completion::NoRun(answer) => Ok(CompletedDocument::NoRun(answer)),
        Completion::Completed(log) => {
            let text = write_document(alloc, &log, candidate.witness())?;
            Ok(CompletedDocument::Text(text))
        }
    }
}

/// The completion of a log with a witness over the initial memory of a module.
fn complete_over(
    alloc: Global,
    module: &ValidModule,
    log: Log,
    witness: Witness,
) -> Result<CompletedDocument, AllocError>
    ensures { IfOk result (CompletesOver «module».now log witness) }
{
    match Candidate::new(alloc, log, witness, module.initial()) {
        Ok(candidate) => complete_candidate(alloc, module, &candidate),
        Err(ShapeFault::OutOfMemory) => Err(AllocError),
        Err(fault) => Ok(CompletedDocument::Refused(Refusal::Shape(fault))),
    }
}

/// The completion of the bytes of a log against a valid module.
fn complete_document_over(
    alloc: Global,
    module: &ValidModule,
    document_bytes: &[u8],
) -> Result<CompletedDocument, AllocError>
    ensures { IfOk result (CompletesDocumentOver «module».now document_bytes.now) }
{
    match read_log(alloc, document_bytes) {
        Ok((log, witness)) => complete_over(alloc, module, log, witness),
        Err(Unread::Refused(refusal)) => Ok(CompletedDocument::Refused(refusal)),
        Err(Unread::OutOfMemory) => Err(AllocError),
    }
}

/// Completes the bytes of a log against the bytes of a module: each thread gets the steps and the end of its longest
/// run that makes exactly its events, of at most 1,000,000 steps, as [`complete`] does. The steps and the ends in the
/// document are ignored, and everything else stays as it is. Its parts are refused in the order decode, valid,
/// document, shape, as by [`check`](crate::check). The memory rules aren't checked.
///
/// # Errors
///
/// Only if an allocation fails.
pub fn complete_document(
    alloc: Global,
    module_bytes: &[u8],
    document_bytes: &[u8],
) -> Result<CompletedDocument, AllocError>
    ensures { IfOk result (CompletesDocument module_bytes.now document_bytes.now) }
{
    match read_module(alloc, module_bytes) {
        Ok(module) => complete_document_over(alloc, &module, document_bytes),
        Err(Unread::Refused(refusal)) => Ok(CompletedDocument::Refused(refusal)),
        Err(Unread::OutOfMemory) => Err(AllocError),
    }
}
