//! Scripts: the threads of a module take turns on one thread, as a list of turns has them.

mod script;
mod traced;
mod tracing;

pub use script::{drive, one_scripted_run};
pub use traced::{Rest, Trace, TracedTurn, TurnDone};
pub use tracing::{trace, traced_accesses_are_logged, traced_stores_are_logged};
