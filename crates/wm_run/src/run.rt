//! What a run recorded.
ghost use Rattle.std.specs.Prelude.{◌≡◌, IfOk, string_bytes};
ghost use Rattle.serde_json.specs.Written.{compact_text};
ghost use Rattle.wm_event.specs.Fitting.{FitsLog};
ghost use Rattle.wm_logfile.specs.Document.{document_2};
ghost use Rattle.wm_recorder.specs.Recorder.{IsRecording, RecordsValid};
ghost use Rattle.wm_run.specs.Run.{AreLogsOver, IsReadAs, IsRunOver};

use std::alloc::{AllocError, Global};
use std::marker::Model;
use wm_event::{Log, ThreadLog, Witness};
use wm_list::List;
use wm_logfile::write_document;
use wm_recorder::Recorder;

/// The log of a run with its witness. For each event of the log, the witness has the writer of each byte read.
pub struct Run {
    log: Log,
    witness: Witness,
}

// By hand, since a derived drop is written out wherever a run goes out of scope.
impl Drop for Run {
    fn drop(self) {
        let Run {
            log: _log,
            witness: _witness,
        } = self;
    }
}

impl Model for Run {
    ghost use Rattle.wm_event.specs.Fitting.{FitsLog};
    ghost use Rattle.wm_run.specs.Run.{Record};

    ghost Value = { Record };

    ghost view = { λ a. record { log = a.log; witness = a.witness } };

    ghost invariant = { λ a. FitsLog a.log a.witness };
}

impl Run {
    /// The run of a log with its witness.
    pub fn new(log: Log, witness: Witness) -> Self
        requires { FitsLog log witness }
        ensures log { result.log ≡ log }
        ensures witness { result.witness ≡ witness }
    {
        Run { log, witness }
    }

    /// What each thread did.
    pub fn log(&self) -> &Log
        ensures { result.now ≡ self.now.log }
    {
        &self.log
    }

    /// The writer of each byte read, and the order in which the events took effect.
    pub fn witness(&self) -> &Witness
        ensures same { result.now ≡ self.now.witness }
        ensures fits { FitsLog self.now.log self.now.witness }
    {
        &self.witness
    }
}

/// The run of these logs, whose events were recorded, with the recorded witness.
pub(crate) fn recorded_run(recorder: Recorder, logs: List<ThreadLog>) -> Result<Run, AllocError>
    requires { AreLogsOver recorder logs }
    ensures run { IfOk result (IsRunOver recorder logs) }
    ensures recording { IsRecording recorder }
    ensures valid { RecordsValid recorder }
{
    let parts = recorder.into_parts()?;
    let witness = Witness {
        writers: parts.writers,
        order: parts.order,
    };
    Ok(Run::new(Log::new(logs), witness))
}

/// The document of a run, in version 2, with no white space.
///
/// # Errors
///
/// Only if an allocation fails.
pub fn write_run(alloc: Global, run: &Run) -> Result<String, AllocError>
    ensures text { IfOk result (λ s. string_bytes s ≡ compact_text (document_2 run.now.log run.now.witness)) }

    // Within the limits it reads back as the same pair.
    ensures again { IfOk result (λ s. IsReadAs (string_bytes s) run.now) }
{
    write_document(alloc, run.log(), run.witness())
}
