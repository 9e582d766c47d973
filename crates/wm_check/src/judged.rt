//! A log judged by the memory rules alone, over an initial memory that no module gives.
ghost use Rattle.std.specs.Prelude.{IfOk};
ghost use Rattle.wm_check.specs.Judged.{IsJudgedDocument, IsJudgedLog};

use std::alloc::AllocError;
use std::thread::Threads;
use wm_event::{Candidate, Initial, Log, Misshapen, ShapeFault, Witness};
use wm_logfile::{DocFault, read_document};
use wm_rules::{Finding, judge_and_close};

/// What a judgement of the bytes of a log finds.
#[derive(Drop)]
pub enum JudgedDocument<'i> {
    /// The bytes are not a log with a witness within the limits. The fault isn't `OutOfMemory`.
    Refused(DocFault),
    /// The log and the witness are not a candidate over the initial memory. The fault isn't `OutOfMemory`.
    Misshapen(Misshapen),
    Judged {
        candidate: Candidate<'i>,
        finding: Finding,
    },
}

/// Judges a log with a witness over an initial memory.
fn judge_log<'i, R: AllocGlobal + Threads + Sync>(
    rt: &R,
    log: Log,
    witness: Witness,
    initial: &'i Initial,
) -> Result<JudgedDocument<'i>, AllocError>
    ensures { IfOk result (IsJudgedLog log witness initial.now) }
{
    match Candidate::of(rt.alloc(), log, witness, initial) {
        Ok(candidate) => {
            let finding = judge_and_close(rt, &candidate)?;
            Ok(JudgedDocument::Judged { candidate, finding })
        }
        Err(misshapen) => match misshapen.fault {
            ShapeFault::OutOfMemory => Err(AllocError),
            _ => Ok(JudgedDocument::Misshapen(misshapen)),
        },
    }
}

/// Judges the bytes of a log by the memory rules over an initial memory. Starts, ends and steps are ignored.
///
/// # Errors
///
/// Only if an allocation fails.
pub fn judge_document<'i, R: AllocGlobal + Threads + Sync>(
    rt: &R,
    bytes: &[u8],
    initial: &'i Initial,
) -> Result<JudgedDocument<'i>, AllocError>
    ensures { IfOk result (IsJudgedDocument bytes.now initial.now) }
{
    match read_document(rt.alloc(), bytes) {
        Ok((log, witness)) => judge_log(rt, log, witness, initial),
        Err(DocFault::OutOfMemory) => Err(AllocError),
        Err(fault) => Ok(JudgedDocument::Refused(fault)),
    }
}
