//! Parallel replay of long threads.
ghost use Rattle.std.specs.Prelude.{◌<◌, IfOk, length};
ghost use Rattle.wm_event.specs.Log.{HasKeys};
ghost use Rattle.wm_replay.specs.Comparison.{ReplaysAt, ReplaysEach, Replays};
ghost use Rattle.wm_replay.specs.Positions.{HasLogPositions};

use crate::answer::ReplayAnswer;
use crate::compare::{Replayed, ThreadReplay, replay_thread};
use std::alloc::AllocError;
use std::thread;
use std::thread::Threads;
use wm_event::{Log, ThreadLog};
use wm_valid::ValidModule;

/// A thread with at least this number of steps is worth its own processor.
const LONG_STEPS: u32 = 20_000;

/// Whether some thread has enough steps for a replay in parallel. The answer is the same either way.
pub(crate) fn is_long(threads: &[ThreadLog]) -> bool {
    threads.iter().any(|stated: &ThreadLog| -> bool { stated.steps >= LONG_STEPS })
}

/// How each thread compares with its log, or that an allocation failed.
fn replay_threads<R: AllocGlobal + Threads + Sync>(
    rt: &R,
    module: &ValidModule,
    log: &Log,
) -> Result<Vec<Result<ThreadReplay, AllocError>>, AllocError>
    ensures { IfOk result (λ answers. ReplaysEach «module».now log.now answers.items) }
{
    let threads = log.threads();
    thread::map_indices(
        rt,
        rt.alloc(),
        threads.len(),
        &|number: usize| -> Result<ThreadReplay, AllocError>
            requires keys { HasKeys threads.now }
            requires there { number < length threads.now }
            ensures { IfOk result (ReplaysAt «module».entry.now threads.entry.now number) }
        { replay_thread(rt.alloc(), module, &threads[number], number) },
    )
}

/// Compares a log with the runs of its threads, which are made at the same time.
pub(crate) fn replay_in_parallel<R: AllocGlobal + Threads + Sync>(
    rt: &R,
    module: &ValidModule,
    log: &Log,
) -> Result<Replayed, AllocError>
    ensures answer { IfOk result (λ replay. Replays «module».now log.now replay.answer) }
    ensures positions { IfOk result (λ replay. HasLogPositions «module».now log.now replay.answer replay.positions.items) }
{
    let mut positions = Vec::new(rt.alloc());
    for replayed in replay_threads(rt, module, log)? {
        let ThreadReplay {
            difference,
            positions: own,
        } = replayed?;
        positions.push(own)?;
        if let Some(answer) = difference {
            return Ok(Replayed { answer, positions });
        }
    }
    Ok(Replayed {
        answer: ReplayAnswer::Same,
        positions,
    })
}
