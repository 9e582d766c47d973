//! Events, logs with their witnesses, candidates, and what it means for a run to be allowed.
#![tactic(auto)]

/// The most threads of a log.
pub const MAX_THREADS: usize = 16;

/// The most steps of a thread.
pub const MAX_STEPS: u32 = 1_000_000;

/// The most events of a log.
pub const MAX_EVENTS: usize = 16_384;

mod atomic_writes;
mod candidate;
mod draft;
mod event;
mod initial;
mod log;
mod misshapen;
mod op;
mod places;
mod rule;
mod shape;
mod shape_fault;
mod witness;
mod writes;

pub use candidate::Candidate;
pub use event::{Event, EventId, EventKey, EventKind, Range, byte_of};
pub use initial::Initial;
pub use log::{End, Log, Start, ThreadLog, TrapKind};
pub use misshapen::Misshapen;
pub use op::{Op, OpFields, OpKind, Reply, updated};
pub use rule::{Judgement, Rule, RuleFault};
pub use shape_fault::ShapeFault;
pub use witness::Witness;
pub use writes::ByteWrite;
