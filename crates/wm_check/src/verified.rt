//! The verdict on a log that is completed with the steps and the ends that its module gives it.
ghost use Rattle.std.specs.Prelude.{IfOk};
ghost use Rattle.wm_check.specs.Verified.{Verifies, VerifiesCandidate, VerifiesOver, VerifiesPair};

use crate::checker::{Unread, judged_verdict, read_log, read_module};
use crate::verdict::{Breach, Refusal, Verdict};
use std::alloc::{AllocError, Global};
use wm_event::{Candidate, Log, ShapeFault, Witness};
use wm_replay::without_run;
use wm_rules::judge_sequentially;
use wm_valid::ValidModule;

/// The verdict on a candidate, completed. It has the same events as the completed log, and the memory rules look at
/// nothing else.
fn verify_candidate(
    alloc: Global,
    module: &ValidModule,
    candidate: &Candidate,
) -> Result<Verdict, AllocError>
    ensures { IfOk result (VerifiesCandidate «module».now candidate.now) }
{
    match without_run(alloc, module, candidate.log())? {
        Some(answer) => Ok(Verdict::Broken(Breach::Replay(answer))),
        None => {
            let judgement = judge_sequentially(alloc, candidate)?;
            Ok(judged_verdict(candidate, &judgement))
        }
    }
}

/// The verdict on a log with a witness over the initial memory of a module.
fn verify_pair(
    alloc: Global,
    module: &ValidModule,
    log: Log,
    witness: Witness,
) -> Result<Verdict, AllocError>
    ensures { IfOk result (VerifiesPair «module».now log witness) }
{
    match Candidate::new(alloc, log, witness, module.initial()) {
        Ok(candidate) => verify_candidate(alloc, module, &candidate),
        Err(ShapeFault::OutOfMemory) => Err(AllocError),
        Err(fault) => Ok(Verdict::Refused(Refusal::Shape(fault))),
    }
}

/// Completes the bytes of a log against a valid module, as [`complete_document`](crate::complete_document) does, and
/// checks the completed log. It starts no thread, so many logs can be verified at the same time.
///
/// # Errors
///
/// Only if an allocation fails.
pub fn verify_log(
    alloc: Global,
    module: &ValidModule,
    document_bytes: &[u8],
) -> Result<Verdict, AllocError>
    ensures { IfOk result (VerifiesOver «module».now document_bytes.now) }
{
    match read_log(alloc, document_bytes) {
        Ok((log, witness)) => verify_pair(alloc, module, log, witness),
        Err(Unread::Refused(refusal)) => Ok(Verdict::Refused(refusal)),
        Err(Unread::OutOfMemory) => Err(AllocError),
    }
}

/// Completes the bytes of a log against the bytes of a module, as [`complete_document`](crate::complete_document) does,
/// and checks the completed log: the verdict is the one that [`check`](crate::check) gives on the completed document,
/// or `broken` with the replay's answer if the log can't be completed.
///
/// # Errors
///
/// Only if an allocation fails.
pub fn verify(
    alloc: Global,
    module_bytes: &[u8],
    document_bytes: &[u8],
) -> Result<Verdict, AllocError>
    ensures { IfOk result (Verifies module_bytes.now document_bytes.now) }
{
    match read_module(alloc, module_bytes) {
        Ok(module) => verify_log(alloc, &module, document_bytes),
        Err(Unread::Refused(refusal)) => Ok(Verdict::Refused(refusal)),
        Err(Unread::OutOfMemory) => Err(AllocError),
    }
}
