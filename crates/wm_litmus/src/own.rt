//! The check of a run that wmlab made.
ghost use Rattle.std.specs.Prelude.{◌≡◌, IfOk, string_bytes};
ghost use Rattle.wm_check.specs.Reading.{SaysOver};
ghost use Rattle.wm_litmus.specs.Own.{IsOwnVerdictOver, run_text};

use std::alloc::AllocError;
use std::thread::Threads;
use wm_check::{Verdict, check_log, one_verdict};
use wm_run::{Run, own_runs_are_allowed, own_runs_are_within_limits, write_run};
use wm_valid::ValidModule;

/// The document of a run, and the verdict on it.
#[derive(Drop)]
pub(crate) struct Checked {
    pub document: String,
    pub verdict: Verdict,
}

/// Writes a run and checks the written document against the run's module: it is allowed, unless the text exceeds the
/// limit of bytes.
///
/// # Errors
///
/// Only if an allocation fails.
pub(crate) fn check_own<R: AllocGlobal + Threads + Sync>(
    rt: &R,
    module: &ValidModule,
    run: &Run,
) -> Result<Checked, AllocError>
    ensures document { IfOk result (λ own. string_bytes own.document ≡ run_text run.now) }
    ensures says { IfOk result (λ own. SaysOver «module».now (run_text run.now) own.verdict) }
    ensures own { IfOk result (λ own. IsOwnVerdictOver «module».now run.now own.verdict) }
{
    own_runs_are_allowed();
    own_runs_are_within_limits();
    one_verdict();
    let document = write_run(rt.alloc(), run)?;
    let checked = check_log(rt, module, document.as_bytes())?;
    Ok(Checked {
        document,
        verdict: checked.into_verdict(),
    })
}
