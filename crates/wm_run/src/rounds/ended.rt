//! The result of a worker.
ghost use Rattle.std.specs.Prelude.{◌≡◌, true, ◌||◌};
ghost use Rattle.std.proofs.Props.{props};
ghost use Rattle.wm_replay.specs.Replay.{IsRun};
ghost use Rattle.wm_run.specs.Reached.{stands_before_access, thread_log};
ghost use Rattle.wm_run.specs.Stops.{is_own};

use std::snapshot::Snapshot;
use wm_event::{End, Start};
use wm_recorder::Calls;
use wm_valid::ValidModule;

/// Why a worker stopped.
#[derive(Clone, Copy, Debug, PartialEq, Eq)]
pub enum Stop {
    /// The thread ended, or made all steps that it may make.
    Own,
    /// The gate stopped it before an access.
    Gate,
    /// The memory refused its access, for a cause other than an allocation failure.
    Memory,
}

/// A run of a thread of the module `program`: its calls of the memory and its end are the result of its steps from its
/// start, on the values that the calls read. If the gate or the memory stopped it, it is before an access.
#[derive(Drop)]
pub struct ThreadEnd {
    /// The module, which only contracts see.
    pub program: Snapshot<ValidModule>,
    pub thread: u32,
    pub start: Start,
    pub end: End,
    /// How many steps it made.
    pub steps: u32,
    /// The calls of the memory that it made: the events of its accesses, in their order, and no drain.
    pub calls: Calls,
    pub stop: Stop,
    pub ghost is_run: { IsRun program.value thread (thread_log start end steps calls.events) } by { Prim.hlevel props },
    pub ghost stopped: { (is_own stop || stands_before_access program.value thread (thread_log start end steps calls.events)) ≡ true },
}
