//! The check of a log against a module.
ghost use Rattle.std.specs.Prelude.{◌≡◌, ◌≤◌, IfErr, IfOk};
ghost use Rattle.wm_event.specs.Limits.{max_events};
ghost use Rattle.wm_event.specs.Shape.{event_count};
ghost use Rattle.wm_logfile.specs.DocumentBytes.{IsDocumentOf};
ghost use Rattle.wm_check.specs.Run.{IsModuleOf};
ghost use Rattle.wm_check.specs.Checked.{IsCheckOf, IsCheckOfLog, IsCheckOfRun, verdict_by, verdict_of};
ghost use Rattle.wm_check.specs.Reading.{ComparesLog, ComparesOver, IsUnreadDocument, IsUnreadModule, SaysOver};
ghost use Rattle.wm_check.specs.Verdicts.{IfAllowed, IfBroken, IfRefused, IsAllowed, IsBrokenBy, IsRefusedFor, Says};
ghost use Rattle.wm_check.specs.declared.checker.Unread.TheVariants.{OutOfMemory};

use crate::verdict::{Breach, Certificate, Refusal, Verdict};
use std::alloc::{AllocError, Global};
use std::thread::Threads;
use wm_decode::{DecodeFault, decode};
use wm_event::{Candidate, Judgement, Log, Misshapen, ShapeFault, ThreadLog, Witness};
use wm_list::List;
use wm_logfile::{DocFault, read_document};
use wm_machine::CodePosition;
use wm_replay::{ReplayAnswer, Replayed, replay_with_positions};
use wm_rules::{Finding, judge_and_close};
use wm_valid::{ValidFault, ValidModule, validate};

/// Why there is no run to compare.
#[derive(Drop)]
pub enum Unread {
    /// The bytes are refused.
    Refused(Refusal),
    /// An allocation failed.
    OutOfMemory,
}

/// The module that the bytes spell, if it is valid.
pub fn read_module(alloc: Global, bytes: &[u8]) -> Result<ValidModule, Unread>
    ensures read { IfOk result (IsModuleOf bytes.now) }
    ensures refused { IfErr result (IsUnreadModule bytes.now) }
{
    let module = match decode(alloc, bytes) {
        Ok(module) => module,
        Err(DecodeFault::OutOfMemory) => return Err(Unread::OutOfMemory),
        Err(fault) => return Err(Unread::Refused(Refusal::Decode(fault))),
    };
    match validate(alloc, module) {
        Ok(module) => Ok(module),
        Err(ValidFault::OutOfMemory) => Err(Unread::OutOfMemory),
        Err(fault) => Err(Unread::Refused(Refusal::Valid(fault))),
    }
}

/// The log with its witness that the bytes spell.
pub(crate) fn read_log(alloc: Global, bytes: &[u8]) -> Result<(Log, Witness), Unread>
    ensures read { IfOk result (λ p. IsDocumentOf bytes.now p.0 p.1) }
    ensures refused { IfErr result (IsUnreadDocument bytes.now) }
{
    match read_document(alloc, bytes) {
        Ok(read) => Ok(read),
        Err(DocFault::OutOfMemory) => Err(Unread::OutOfMemory),
        Err(fault) => Err(Unread::Refused(Refusal::Document(fault))),
    }
}

/// How many events the threads have.
pub fn count_events(threads: &[ThreadLog]) -> usize
    requires { event_count threads.now ≤ max_events }
    ensures { result ≡ event_count threads.now }
{
    let mut events = 0usize;
    for thread in threads {
        events += thread.events.len();
    }
    events
}

/// The verdict on a candidate whose threads run as it states, by its judgement.
pub fn judged_verdict(candidate: &Candidate, judgement: &Judgement) -> Verdict
    ensures { result ≡ verdict_by candidate.now.log judgement.now }
{
    match judgement {
        Judgement::Broken(fault) => Verdict::Broken(Breach::Rule(*fault)),
        Judgement::Valid => {
            let threads = candidate.log().threads();
            Verdict::Allowed(Certificate {
                threads: threads.len(),
                events: count_events(threads),
            })
        }
    }
}

/// What a check of the bytes of a log over a valid module finds.
#[derive(Drop)]
pub enum CheckedLog<'m> {
    /// The bytes are not a log with a witness within the limits.
    Refused(Refusal),
    /// The log and the witness are not a candidate over the module's initial memory.
    Misshapen(Misshapen),
    /// Some thread's log isn't its run. The answer isn't `Same`.
    Differs {
        candidate: Candidate<'m>,
        answer: ReplayAnswer,
    },
    /// Each thread's log is its run.
    Judged {
        candidate: Candidate<'m>,
        /// For each thread, the positions in the code at which it makes its events, in order.
        positions: Vec<List<CodePosition>>,
        finding: Finding,
    },
}

impl CheckedLog<'_> {
    /// The verdict alone.
    pub fn into_verdict(self) -> Verdict
        ensures { result ≡ verdict_of self.entry }
    {
        match self {
            CheckedLog::Refused(refusal) => Verdict::Refused(refusal),
            CheckedLog::Misshapen(misshapen) => Verdict::Refused(Refusal::Shape(misshapen.fault)),
            CheckedLog::Differs {
                candidate: _candidate,
                answer,
            } => Verdict::Broken(Breach::Replay(answer)),
            CheckedLog::Judged {
                candidate,
                positions: _positions,
                finding,
            } => judged_verdict(&candidate, &finding.judgement()),
        }
    }
}

/// Compares the threads of a candidate with their runs, and then its events with the memory rules.
fn compare<'m, R: AllocGlobal + Threads + Sync>(
    rt: &R,
    module: &ValidModule,
    candidate: Candidate<'m>,
) -> Result<CheckedLog<'m>, AllocError>
    ensures verdict { IfOk result (λ checked. ComparesLog «module».now candidate.entry (verdict_of checked)) }
    ensures kept { IfOk result (IsCheckOfRun «module».now candidate.entry) }
{
    let Replayed { answer, positions } = replay_with_positions(rt, module, candidate.log())?;
    if answer != ReplayAnswer::Same {
        return Ok(CheckedLog::Differs { candidate, answer });
    }
    let finding = judge_and_close(rt, &candidate)?;
    Ok(CheckedLog::Judged {
        candidate,
        positions,
        finding,
    })
}

/// Checks a log with a witness over the initial memory of a module.
fn compare_log<'m, R: AllocGlobal + Threads + Sync>(
    rt: &R,
    module: &'m ValidModule,
    log: Log,
    witness: Witness,
) -> Result<CheckedLog<'m>, AllocError>
    ensures verdict { IfOk result (λ checked. ComparesOver «module».now log witness (verdict_of checked)) }
    ensures kept { IfOk result (IsCheckOfLog «module».now log witness) }
{
    match Candidate::of(rt.alloc(), log, witness, module.initial()) {
        Ok(candidate) => compare(rt, module, candidate),
        Err(misshapen) => match misshapen.fault {
            ShapeFault::OutOfMemory => Err(AllocError),
            _ => Ok(CheckedLog::Misshapen(misshapen)),
        },
    }
}

/// Checks the bytes of a log against a valid module, as [`check`] does, and keeps what it finds.
///
/// # Errors
///
/// Only if an allocation fails.
pub fn check_log<'m, R: AllocGlobal + Threads + Sync>(
    rt: &R,
    module: &'m ValidModule,
    document_bytes: &[u8],
) -> Result<CheckedLog<'m>, AllocError>
    ensures verdict { IfOk result (λ checked. SaysOver «module».now document_bytes.now (verdict_of checked)) }
    ensures kept { IfOk result (IsCheckOf «module».now document_bytes.now) }
{
    match read_log(rt.alloc(), document_bytes) {
        Ok((log, witness)) => compare_log(rt, module, log, witness),
        Err(Unread::Refused(refusal)) => Ok(CheckedLog::Refused(refusal)),
        Err(Unread::OutOfMemory) => Err(AllocError),
    }
}

/// The verdict on the bytes of a log over a valid module.
fn verdict_over<R: AllocGlobal + Threads + Sync>(
    rt: &R,
    module: &ValidModule,
    document_bytes: &[u8],
) -> Result<Verdict, AllocError>
    ensures { IfOk result (SaysOver «module».now document_bytes.now) }
{
    let checked = check_log(rt, module, document_bytes)?;
    Ok(checked.into_verdict())
}

/// The verdict on the bytes, if both can be read.
fn verdict_of<R: AllocGlobal + Threads + Sync>(
    rt: &R,
    module_bytes: &[u8],
    document_bytes: &[u8],
) -> Result<Verdict, AllocError>
    ensures { IfOk result (Says module_bytes.now document_bytes.now) }
{
    match read_module(rt.alloc(), module_bytes) {
        Ok(module) => verdict_over(rt, &module, document_bytes),
        Err(Unread::Refused(refusal)) => Ok(Verdict::Refused(refusal)),
        Err(Unread::OutOfMemory) => Err(AllocError),
    }
}

/// Checks the bytes of a log against the bytes of a module, whoever made them, in the order decode, valid, document,
/// shape, replay, rule.
///
/// `Allowed` means that the bytes spell a valid module and a log with a witness, that each thread's events and end are
/// the ones that the module gives it on the values that it read, and that the memory rules permit the events under that
/// witness. A thread that is cut is a prefix of a run. It means nothing for other witnesses.
///
/// # Errors
///
/// Only if an allocation fails.
pub fn check<R: AllocGlobal + Threads + Sync>(
    rt: &R,
    module_bytes: &[u8],
    document_bytes: &[u8],
) -> Result<Verdict, AllocError>
    ensures allowed { IfAllowed result (IsAllowed module_bytes.now document_bytes.now) }
    ensures refused { IfRefused result (IsRefusedFor module_bytes.now document_bytes.now) }
    ensures broken { IfBroken result (IsBrokenBy module_bytes.now document_bytes.now) }
{
    verdict_of(rt, module_bytes, document_bytes)
}
