//! What a run starts, and how long it may run.
ghost use Rattle.std.specs.Prelude.{◌≡◌, ◌≤◌, ◌⊎◌, IfErr, IfNone, IfSome, OnOk, Some};
ghost use Rattle.wm_run.specs.Plan.{AreTurnsOf, IsLeastAbsent, IsPlan, IsPlanFault};

use crate::MAX_TURNS;
use crate::fault::PlanFault;
use crate::turn::Turn;
use wm_event::{MAX_STEPS, MAX_THREADS, Start};
use wm_list::List;

/// What a run starts, and how long it may run.
#[derive(Drop)]
pub struct Plan {
    /// The start of each thread, for 1 to 16 threads.
    pub starts: List<Start>,
    /// The most steps of each thread, up to 1,000,000.
    pub steps: u32,
    /// How many turns the drainer of a round takes, up to 1,000,000. A script has its own drains and ignores this.
    pub drains: u32,
}

impl Plan {
    /// Whether the plan can be followed through the turns of a script.
    ///
    /// # Errors
    ///
    /// In this order: `Threads` if it starts none or more than 16, `Steps` if it lets a thread make more than
    /// 1,000,000, `Turns` if there are more than 1,000,000, `Turn` with the least thread that has a turn and isn't
    /// started.
    pub fn follows(&self, turns: &[Turn]) -> Result<(), PlanFault>
        ensures ok { OnOk result (IsPlan self.now turns.now) }
        ensures fault { IfErr result (IsPlanFault self.now turns.now) }
    {
        let threads = self.starts.len();
        if threads == 0 || threads > MAX_THREADS {
            return Err(PlanFault::Threads);
        }
        if self.steps > MAX_STEPS {
            return Err(PlanFault::Steps);
        }
        if turns.len() > MAX_TURNS {
            return Err(PlanFault::Turns);
        }
        match least_absent(turns, threads) {
            Some(thread) => Err(PlanFault::Turn(thread)),
            None => Ok(()),
        }
    }
}

/// The least thread of all turns that is not below `threads`; None if all are.
fn least_absent(turns: &[Turn], threads: usize) -> Option<u32>
    ensures none { IfNone result (AreTurnsOf threads turns.now) }
    ensures some { IfSome result (IsLeastAbsent threads turns.now) }
{
    let mut least: Option<u32> = None;
    for turn in turns {
        let thread = turn.thread();
        if (thread as usize) < threads {
            continue;
        }
        least = Some(lesser(least, thread));
    }
    least
}

/// The lesser of the two threads, or the second if there is no first.
fn lesser(first: Option<u32>, thread: u32) -> u32
    ensures below { result ≤ thread }
    ensures below_first { IfSome first (λ other. result ≤ other) }
    ensures one { (result ≡ thread) ⊎ (first ≡ Some result) }
{
    match first {
        Some(other) => other.min(thread),
        None => thread,
    }
}
