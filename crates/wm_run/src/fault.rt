//! Why a run isn't made.
ghost use Rattle.std.specs.Prelude.{Some};
ghost use Rattle.wm_run.specs.Texts.{plan_fault_text, run_fault_text};

use std::alloc::AllocError;
use std::fmt;
use thiserror::Error;
use wm_machine::StartFault;

/// Which part of a plan or of its script is over a limit or missing.
#[derive(Clone, Copy, Debug, PartialEq, Eq, Error)]
pub enum PlanFault {
    /// It starts no thread, or more than [`wm_event::MAX_THREADS`].
    Threads,
    /// It lets a thread make more than [`wm_event::MAX_STEPS`] steps.
    Steps,
    /// There are more than [`crate::MAX_TURNS`] turns.
    Turns,
    /// A turn is for this thread, which the plan doesn't start: the least such thread.
    Turn(u32),
}

/// Why a run isn't made.
#[derive(Clone, Copy, Debug, PartialEq, Eq, Error)]
pub enum RunFault {
    /// The thread doesn't start.
    Start(usize, StartFault),
    /// The thread's events aren't the ones recorded for it, or the memory stopped it though it could have gone on.
    Split(usize),
    /// The plan or its script can't be followed.
    Plan(PlanFault),
    /// An allocation failed.
    OutOfMemory,
    /// The thread has no end, or several, or isn't a thread of the run.
    Ends(usize),
    /// What was recorded isn't over the initial memory of the module.
    Foreign,
}

impl fmt::Display for PlanFault {
    ghost output = { λ fault. Some (plan_fault_text fault) };

    fn fmt<W: fmt::Write>(&self, f: &mut fmt::Formatter<W>) -> fmt::Result {
        match self {
            PlanFault::Threads => f.write_str("Threads"),
            PlanFault::Steps => f.write_str("Steps"),
            PlanFault::Turns => f.write_str("Turns"),
            PlanFault::Turn(thread) => write!(f, "Turn {thread}"),
        }
    }
}

impl fmt::Display for RunFault {
    ghost output = { λ fault. Some (run_fault_text fault) };

    fn fmt<W: fmt::Write>(&self, f: &mut fmt::Formatter<W>) -> fmt::Result {
        match self {
            RunFault::Start(thread, fault) => write!(f, "start {fault} thread {thread}"),
            RunFault::Split(thread) => write!(f, "split thread {thread}"),
            RunFault::Plan(fault) => write!(f, "plan {fault}"),
            RunFault::OutOfMemory => f.write_str("out of memory"),
            RunFault::Ends(thread) => write!(f, "ends thread {thread}"),
            RunFault::Foreign => f.write_str("foreign"),
        }
    }
}

impl From<AllocError> for RunFault {
    ghost use Rattle.std.specs.Prelude.{◌≡◌};
    ghost use Rattle.wm_run.specs.declared.fault.RunFault.TheVariants.{OutOfMemory};

    ghost from_gives = { λ _ fault. fault ≡ OutOfMemory };

    fn from(_error: AllocError) -> Self {
        RunFault::OutOfMemory
    }
}
