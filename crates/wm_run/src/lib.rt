//! Runs of a module's threads over one memory, and the logs that they record: by a script on one thread (`scripts`), or in
//! rounds of threads that run at the same time (`rounds`).
#![tactic(auto)]

mod fault;
mod launch;
mod own;
mod plan;
mod rounds;
mod run;
mod runner;
mod scripts;
mod turn;

pub use fault::{PlanFault, RunFault};
pub use own::{own_runs_are_allowed, own_runs_are_within_limits};
pub use plan::Plan;
pub use rounds::{
    Assigned, Gate, OpenGate, Stop, Taker, ThreadEnd, WorkPromise, drainer, gather, run_round,
    run_rounds, work,
};
pub use run::{Run, write_run};
pub use scripts::{
    Rest, Trace, TracedTurn, TurnDone, drive, one_scripted_run, trace, traced_accesses_are_logged,
    traced_stores_are_logged,
};
pub use turn::Turn;

/// The most turns of a script, and of the drainer of a round.
pub const MAX_TURNS: usize = 1_000_000;
