//! Migration of documents of either version to version 2, and reading them back.
ghost use Rattle.std.specs.Prelude.{◌≡◌, ◌≢◌, ◌<◌, IfErr, IfOk, string_bytes};
ghost use Rattle.wm_event.specs.Fitting.{FitsLog};
ghost use Rattle.wm_logfile.specs.Document.{IsWithinLimits};
ghost use Rattle.wm_logfile.specs.DocumentBytes.{IsNoDocument, IsWrittenTooLarge};
ghost use Rattle.wm_logfile.specs.Migration.{IsMigrated, IsMisplaced, IsRewriteFault, IsRewritten};

use crate::document::read_document;
use crate::fault::DocFault;
use crate::text::write_document;
use std::alloc::Global;
use wm_event::{Log, Witness};

/// The text in version 2 of the log with the witness that the bytes spell in version 1 or 2.
///
/// # Errors
///
/// The first fault of [`read_document`]; if there is none, `Misplaced` if the witness doesn't fit the log;
/// `OutOfMemory` if an allocation fails.
pub fn migrate(alloc: Global, bytes: &[u8]) -> Result<String, DocFault>
    ensures migrated { IfOk result (λ s. IsMigrated bytes.now (string_bytes s)) }
    ensures misplaced { IfErr result (λ e. e ≡ DocFault.Misplaced → IsMisplaced bytes.now) }
    ensures refused { IfErr result (λ e. e ≢ DocFault.OutOfMemory → e ≢ DocFault.Misplaced
        → IsNoDocument bytes.now e) }
{
    let (log, witness) = read_document(alloc, bytes)?;
    rewrite(alloc, log, witness)
}

/// The text in version 2 of a log with its witness.
///
/// # Errors
///
/// `Misplaced` if the witness doesn't fit the log; `OutOfMemory` if an allocation fails.
fn rewrite(alloc: Global, log: Log, witness: Witness) -> Result<String, DocFault>
    ensures written { IfOk result (λ s. IsRewritten log witness (string_bytes s)) }
    ensures refused { IfErr result (IsRewriteFault log witness) }
{
    if !witness.fits(&log) {
        return Err(DocFault::Misplaced);
    }
    let text = write_document(alloc, &log, &witness)?;
    Ok(text)
}

/// Writes a log with its witness, and reads them back: the same pair, unless the text is too large or an allocation
/// fails.
pub fn write_and_read(
    alloc: Global,
    log: &Log,
    witness: &Witness,
) -> Result<(Log, Witness), DocFault>
    requires fits { FitsLog log.now witness.now }
    requires limits { IsWithinLimits log.now witness.now }
    ensures same { IfOk result (λ p. (p.0 ≡ log.now) × (p.1 ≡ witness.now)) }
    ensures refused { IfErr result (IsWrittenTooLarge log.now witness.now) }
{
    let text = write_document(alloc, log, witness)?;
    read_document(alloc, text.as_bytes())
}
