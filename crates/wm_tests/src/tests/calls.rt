//! Calls with long contracts that several tests make, each in a function of its own, which hands none of its contract on.
//! So what a contract states is proved once, and no test has it among its facts.
use std::alloc::{AllocError, Global};
use wm_check::{Unread, read_module};
use wm_event::{Candidate, Initial, Log, ShapeFault, Witness};
use wm_logfile::{DocFault, read_document};
use wm_recorder::Recorder;
use wm_valid::ValidModule;

/// The log and the witness of a document.
pub(super) fn read(alloc: Global, text: &str) -> Result<(Log, Witness), DocFault> {
    read_document(alloc, text.as_bytes())
}

/// A log with its witness, as a candidate.
pub(super) fn candidate(
    alloc: Global,
    log: Log,
    witness: Witness,
    initial: &Initial,
) -> Result<Candidate<'_>, ShapeFault> {
    Candidate::new(alloc, log, witness, initial)
}

/// The module that the bytes spell; None if they spell no valid module.
///
/// # Errors
///
/// Only if an allocation fails.
pub(super) fn module_of(alloc: Global, bytes: &[u8]) -> Result<Option<ValidModule>, AllocError> {
    match read_module(alloc, bytes) {
        Ok(module) => Ok(Some(module)),
        Err(Unread::OutOfMemory) => Err(AllocError),
        Err(Unread::Refused(_)) => Ok(None),
    }
}

/// A recorder of two threads over a page of zeros.
pub(super) fn two_threads(alloc: Global) -> Result<Recorder, AllocError> {
    let initial = Initial::zeros(alloc, 1);
    Recorder::new(alloc, &initial, 2)
}
