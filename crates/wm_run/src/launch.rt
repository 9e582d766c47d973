//! The starts of a plan's threads.
ghost use Rattle.std.specs.Prelude.{◌≡◌, IfErr, IfOk};
ghost use Rattle.wm_run.specs.Launch.{AreLaunched, IsLaunchFault};

use crate::fault::RunFault;
use crate::runner::Runner;
use std::alloc::{AllocError, Global};
use wm_event::Start;
use wm_list::{List, Text};
use wm_machine::{StartFault, Thread};
use wm_valid::ValidModule;

/// Starts each thread, in order.
///
/// # Errors
///
/// `Start` with the first thread that doesn't start, `OutOfMemory` if an allocation fails.
pub fn launch<'m>(
    alloc: Global,
    module: &'m ValidModule,
    starts: &[Start],
) -> Result<Vec<Runner<'m>>, RunFault>
    ensures launched { IfOk result (λ runners. AreLaunched «module».now starts.now runners.items) }
    ensures refused { IfErr result (IsLaunchFault «module».now starts.now) }
{
    let mut runners = Vec::with_capacity(alloc, starts.len())?;
    for (number, start) in starts.iter().enumerate() {
        match Thread::start(alloc, module, start.name.as_str(), start.args.as_slice()) {
            Ok(thread) => runners.push_reserved(Runner { thread, made: 0 }),
            Err(StartFault::OutOfMemory) => return Err(RunFault::OutOfMemory),
            Err(fault) => return Err(RunFault::Start(number, fault)),
        }
    }
    Ok(runners)
}

/// A copy of a start.
pub fn copy_start(alloc: Global, start: &Start) -> Result<Start, AllocError>
    ensures { IfOk result (λ copy. copy ≡ start.now) }
{
    let name = String::from_str(alloc, start.name.as_str())?;
    let args = start.args.as_slice().to_vec(alloc)?;
    Ok(Start {
        name: Text::from_string(name),
        args: List::from_vec(args),
    })
}
