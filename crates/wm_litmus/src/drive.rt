//! The command `drive`: a script is played over a module.
ghost use Rattle.std.specs.Prelude.{IfOk, string_bytes};
ghost use Rattle.wm_litmus.specs.Drive.{AnswersDrive, DrivesOver, IsDrivenOver};

use crate::answer::Answer;
use crate::outcomes::outcome;
use crate::own::check_own;
use std::alloc::AllocError;
use std::thread::Threads;
use wm_check::read_module;
use wm_command::Script;
use wm_run::{Run, RunFault, drive};
use wm_valid::ValidModule;

/// The answer for a run.
fn driven<R: AllocGlobal + Threads + Sync>(
    rt: &R,
    module: &ValidModule,
    run: &Run,
) -> Result<Answer, AllocError>
    ensures { IfOk result (IsDrivenOver «module».now run.now) }
{
    let checked = check_own(rt, module, run)?;
    let outcome = outcome(rt.alloc(), run)?;
    Answer::driven(
        rt.alloc(),
        outcome.as_str(),
        &checked.verdict,
        checked.document.as_str(),
    )
}

/// The answer to a script over a module.
fn play<R: AllocGlobal + Threads + Sync>(
    rt: &R,
    module: &ValidModule,
    script: &Script,
) -> Result<Answer, AllocError>
    ensures { IfOk result (DrivesOver «module».now script.now) }
{
    match drive(rt.alloc(), module, &script.plan, script.turns.as_slice()) {
        Ok(run) => driven(rt, module, &run),
        Err(RunFault::OutOfMemory) => Err(AllocError),
        Err(fault) => Answer::refused_run(rt.alloc(), fault),
    }
}

/// The answer to the bytes of a module and a script.
///
/// # Errors
///
/// Only if an allocation fails.
pub(crate) fn drive_answer<R: AllocGlobal + Threads + Sync>(
    rt: &R,
    module_bytes: &[u8],
    script: &Script,
) -> Result<Answer, AllocError>
    ensures { IfOk result (λ answer.
        AnswersDrive module_bytes.now script.now.plan script.now.turns answer.status (string_bytes answer.text)) }
{
    match read_module(rt.alloc(), module_bytes) {
        Ok(module) => play(rt, &module, script),
        Err(unread) => Answer::refused_module(rt.alloc(), unread),
    }
}
